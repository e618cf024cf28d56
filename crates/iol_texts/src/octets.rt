//! Octets in hexadecimal (docs/FORMATS.md, "Texts").
ghost use Rattle.std.specs.Fmt.{WritesOnOk};
ghost use Rattle.iol_texts.specs.Texts.{spaced};

use std::fmt;

/// Octets in hexadecimal: two digits each, in upper case, after a space.
#[derive(Drop)]
pub struct Spaced<'a>(pub &'a [u8]);

impl fmt::Display for Spaced<'_> {
    ghost use Rattle.std.specs.Prelude.{Some};
    ghost use Rattle.iol_texts.specs.Texts.{spaced};

    ghost output = { λ octets. Some (spaced octets.0.now) };

    fn fmt<W: fmt::Write>(&self, f: &mut fmt::Formatter<W>) -> fmt::Result {
        write_octets(f, self.0)
    }
}

// Writes octets, each after a space.
fn write_octets<W: fmt::Write>(f: &mut fmt::Formatter<W>, octets: &[u8]) -> fmt::Result
    ensures { WritesOnOk W.write_str_gives f.old result (spaced octets.now) f.new }
{
    for octet in octets {
        write!(f, " {octet:02X}")?;
    }
    Ok(())
}
