//! The label of a port, the name that plant staff give it.
ghost use Rattle.std.specs.Prelude.{◌≡◌, ◌≤◌, ◌↔◌, [], length, true, IsTrue, IsSome, IfSome};
ghost use Rattle.std.specs.Str.{bytes_eq};
ghost use Rattle.std.specs.List.{list_all};
ghost use Rattle.iol_types.specs.Label.{is_label_octet, is_label};
ghost use Rattle.iol_types.specs.declared.label.TheConstants.{MOST_LABEL_OCTETS};

use std::marker::Model;
use std::{fmt, str};

/// The maximum number of octets of a label.
pub const MOST_LABEL_OCTETS: usize = 32;

// A label is printed between quotation marks, so it contains none.
pub(crate) const QUOTATION_MARK: u8 = 0x22;

// The first and the last printable octet, a space and a tilde.
pub(crate) const FIRST_PRINTED: u8 = 0x20;

pub(crate) const LAST_PRINTED: u8 = 0x7E;

/// The label of a port, which plant staff read in place of its number: at most 32 octets, each from 20 to 7E except 22,
/// the quotation mark. A contract sees its octets.
#[derive(Clone, Copy, Debug)]
pub struct Label {
    // The octets after those of the label are 00.
    octets: [u8; MOST_LABEL_OCTETS],
    count: u8,
}

impl Model for Label {
    ghost use Rattle.std.specs.Prelude.{ℕ, List, take, length};
    ghost use Rattle.iol_types.specs.Label.{HoldsLabel, padded_label};

    ghost Value = { List ℕ };

    ghost view = { λ l. take l.count l.octets };

    ghost invariant = { λ l. HoldsLabel l.count l.octets };

    ghost inverse = { λ label. record { octets = padded_label label; count = length label } };

    ghost inverse_ok = { λ l h i. record { octets = h.padded i; count = h.counted i } };
}

/// Labels are equal if their octets are.
impl PartialEq for Label {
    ghost use Rattle.std.specs.Cmp.{partial_equiv_from_equiv};
    ghost use Rattle.iol_types.specs.Sameness.{same_label-laws};

    ghost eq = { bytes_eq };

    ghost laws = { partial_equiv_from_equiv same_label-laws };

    fn eq(&self, other: &Label) -> bool
        ensures test { result ≡ bytes_eq self.now other.now }
        ensures exactly { IsTrue result ↔ (self.now ≡ other.now) }
    {
        self.octets() == other.octets()
    }
}

impl Eq for Label {
    ghost use Rattle.iol_types.specs.Sameness.{same_label-laws};

    ghost laws = { same_label-laws };
}

impl Label {
    /// The label of these octets, or `None` if there are more than 32, or one of them is below 20, over 7E, or 22.
    pub fn new(octets: &[u8]) -> Option<Label>
        ensures range { IsSome result ↔ (is_label octets.now ≡ true) }
        ensures label { IfSome result (λ label. label ≡ octets.now) }
    {
        if octets.len() > MOST_LABEL_OCTETS || !may_all_stand(octets) {
            return None;
        }
        let mut padded = [0; MOST_LABEL_OCTETS];
        padded[..octets.len()].copy_from_slice(octets);
        Some(Label {
            octets: padded,
            count: octets.len() as u8,
        })
    }

    /// The empty label, of a port that was given none.
    pub fn empty() -> Label
        ensures { result ≡ [] }
    {
        Label {
            octets: [0; MOST_LABEL_OCTETS],
            count: 0,
        }
    }

    /// The octets of the label.
    pub fn octets(&self) -> &[u8]
        ensures octets { result.now ≡ self.now }
        ensures label { is_label self.now ≡ true }
        ensures bound { length self.now ≤ MOST_LABEL_OCTETS }
    {
        &self.octets[..usize::from(self.count)]
    }

    /// The label as a text.
    pub fn as_str(&self) -> &str
        ensures { result.now ≡ self.now }
    {
        match str::from_utf8(self.octets()) {
            Ok(text) => text,
            // ASCII octets are valid UTF-8.
            Err(_) => unreachable!(),
        }
    }

    /// The number of octets, 0 to 32.
    pub fn len(&self) -> usize
        ensures count { result ≡ length self.now }
        ensures bound { result ≤ 32 }
    {
        usize::from(self.count)
    }

    /// Whether the label has no octets.
    pub fn is_empty(&self) -> bool
        ensures { IsTrue result ↔ (self.now ≡ []) }
    {
        self.count == 0
    }
}

/// A label is printed as its octets, which are ASCII.
impl fmt::Display for Label {
    ghost use Rattle.std.specs.Prelude.{Some};

    ghost output = { λ label. Some label };

    fn fmt<W: fmt::Write>(&self, f: &mut fmt::Formatter<W>) -> fmt::Result {
        f.write_str(self.as_str())
    }
}

// Whether each of these octets is allowed in a label.
fn may_all_stand(octets: &[u8]) -> bool
    ensures { result ≡ list_all is_label_octet octets.now }
{
    octets.iter().all(|octet| may_stand(*octet))
}

fn may_stand(octet: u8) -> bool
    ensures { result ≡ is_label_octet octet }
{
    (FIRST_PRINTED..=LAST_PRINTED).contains(&octet) && octet != QUOTATION_MARK
}
