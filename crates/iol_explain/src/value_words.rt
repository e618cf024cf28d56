//! The words for what was read of a device (IO-Link V1.1, Data Storage object).
ghost use Rattle.std.specs.Prelude.{◌≡◌};
ghost use Rattle.std.specs.Fmt.{WritesOnOk};
ghost use Rattle.iol_explain.specs.Values.{flag_text, property_value, size_value, checksum_value, state_text};

use crate::hexadecimal::EightDigits;
use crate::list_words::ListWords;
use crate::object::Object;
use crate::octets::{OctetWords, four_octets, one_octet};
use iol_transfer::{State, StateProperty};
use std::alloc::Global;
use std::fmt;

// The octets of an object, in words.
#[derive(Drop)]
pub(crate) struct ValueWords<'a> {
    pub(crate) alloc: Global,
    pub(crate) object: Object,
    pub(crate) octets: &'a [u8],
}

impl fmt::Display for ValueWords<'_> {
    ghost use Rattle.std.specs.Prelude.{Some};
    ghost use Rattle.iol_explain.specs.Values.{value_words};

    ghost output = { λ words. Some (value_words words.object words.octets.now) };

    fn fmt<W: fmt::Write>(&self, f: &mut fmt::Formatter<W>) -> fmt::Result {
        let octets = self.octets;
        match self.object {
            Object::StateProperty => write_property(f, octets),
            Object::Size => write_size(f, octets),
            Object::Checksum => write_checksum(f, octets),
            Object::IndexList => {
                let alloc = self.alloc;
                write!(f, "{}", ListWords { alloc, octets })
            }
            object => write!(f, "{object}:{}", OctetWords(octets)),
        }
    }
}

// Writes the words for State_Property.
fn write_property<W: fmt::Write>(f: &mut fmt::Formatter<W>, octets: &[u8]) -> fmt::Result
    ensures { WritesOnOk W.write_str_gives f.old result (property_value octets.now) f.new }
{
    match one_octet(octets) {
        Some(octet) => {
            let property = StateProperty::read(octet);
            let flag = flag_text(property.flag());
            let state = state_text(property.state());
            write!(f, "State_Property: DS_UPLOAD_FLAG {flag}, state {state}")
        }
        None => write!(f, "State_Property, not one octet:{}", OctetWords(octets)),
    }
}

// Returns DS_UPLOAD_FLAG in a word.
fn flag_text(flag: bool) -> &'static str
    ensures { result.now ≡ flag_text flag }
{
    if flag { "set" } else { "clear" }
}

// Returns the state of a device's Data Storage in words.
fn state_text(state: State) -> &'static str
    ensures { result.now ≡ state_text state }
{
    match state {
        State::Inactive => "inactive",
        State::Upload => "upload",
        State::Download => "download",
        State::Locked => "Data Storage locked",
    }
}

// Writes the words for Data_Storage_Size.
fn write_size<W: fmt::Write>(f: &mut fmt::Formatter<W>, octets: &[u8]) -> fmt::Result
    ensures { WritesOnOk W.write_str_gives f.old result (size_value octets.now) f.new }
{
    match four_octets(octets) {
        Some(size) => write!(f, "Data_Storage_Size: {size} octets"),
        None => write!(
            f,
            "Data_Storage_Size, not four octets:{}",
            OctetWords(octets)
        ),
    }
}

// Writes the words for Parameter_Checksum.
fn write_checksum<W: fmt::Write>(f: &mut fmt::Formatter<W>, octets: &[u8]) -> fmt::Result
    ensures { WritesOnOk W.write_str_gives f.old result (checksum_value octets.now) f.new }
{
    match four_octets(octets) {
        Some(checksum) => write!(f, "Parameter_Checksum: {}", EightDigits(checksum)),
        None => write!(
            f,
            "Parameter_Checksum, not four octets:{}",
            OctetWords(octets)
        ),
    }
}
