//! Octets as values of the Data Storage object.
ghost use Rattle.std.specs.Prelude.{◌≡◌};
ghost use Rattle.iol_explain.specs.Objects.{command_in, four_octets, one_octet};

use iol_texts::Spaced;
use iol_transfer::DsCommand;
use std::fmt;

// Returns the octet, if there is exactly one.
pub(crate) fn one_octet(octets: &[u8]) -> Option<u8>
    ensures { result ≡ one_octet octets.now }
{
    match octets {
        [octet] => Some(*octet),
        _ => None,
    }
}

// Returns the number that four octets are, most significant octet first, if there are four.
pub(crate) fn four_octets(octets: &[u8]) -> Option<u32>
    ensures { result ≡ four_octets octets.now }
{
    match octets {
        [first, second, third, fourth] => {
            Some(u32::from_be_bytes([*first, *second, *third, *fourth]))
        }
        _ => None,
    }
}

// Returns the command to the Data Storage of a device that octets are, if they are one.
pub(crate) fn command_in(octets: &[u8]) -> Option<DsCommand>
    ensures { result ≡ command_in octets.now }
{
    match one_octet(octets) {
        Some(octet) => DsCommand::from_octet(octet),
        None => None,
    }
}

// Octets, each after a space, or that there are none.
#[derive(Drop)]
pub(crate) struct OctetWords<'a>(pub(crate) &'a [u8]);

impl fmt::Display for OctetWords<'_> {
    ghost use Rattle.std.specs.Prelude.{Some};
    ghost use Rattle.iol_explain.specs.Objects.{octet_words};

    ghost output = { λ words. Some (octet_words words.0.now) };

    fn fmt<W: fmt::Write>(&self, f: &mut fmt::Formatter<W>) -> fmt::Result {
        if self.0.is_empty() {
            f.write_str(" no octet")
        } else {
            write!(f, "{}", Spaced(self.0))
        }
    }
}
