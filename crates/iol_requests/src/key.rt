//! The keys of requests, and which values are allowed at each.
ghost use Rattle.std.specs.Prelude.{◌≡◌, map};
ghost use Rattle.toml.specs.View.{table_view};
ghost use Rattle.iol_requests.specs.Key.{key_name, keys_of, use_of, is_right, is_wrong, wrong_key};

use crate::request::verb_at;
use crate::verb::Verb;
use iol_script::{device_in, label_in, mode_in, port_in, validation_in, value_at, vendor_in};
use std::fmt;
use toml::Table;

/// A key of a request.
#[derive(Clone, Copy, Debug, PartialEq, Eq)]
pub enum Key {
    /// The verb.
    Do,
    /// The number of a port.
    Port,
    /// The mode of a port.
    Mode,
    /// How a port checks its device.
    Validation,
    /// The VendorID of a device.
    Vendor,
    /// The DeviceID of a device.
    Device,
    /// The label of a port.
    Label,
    /// The id that an answer repeats.
    Id,
}

// All keys, in the order in which they are checked.
pub(crate) const KEYS: [Key; 8] = [
    Key::Do,
    Key::Port,
    Key::Mode,
    Key::Validation,
    Key::Vendor,
    Key::Device,
    Key::Label,
    Key::Id,
];

// How a verb uses a key.
#[derive(Clone, Copy, PartialEq, Eq)]
pub(crate) enum Use {
    Needed,
    Free,
    Never,
}

impl Key {
    /// Returns the word of the key.
    pub fn name(self) -> &'static str
        ensures { result.now ≡ key_name self }
    {
        match self {
            Key::Do => "do",
            Key::Port => "port",
            Key::Mode => "mode",
            Key::Validation => "validation",
            Key::Vendor => "vendor",
            Key::Device => "device",
            Key::Label => "label",
            Key::Id => "id",
        }
    }

    /// Returns a description of the values that the key allows.
    pub fn may(self) -> &'static str {
        match self {
            Key::Do => "a verb in quotes",
            Key::Port => "a whole number of 1 to 32",
            Key::Mode | Key::Validation => "a whole number of 0 to 4",
            Key::Vendor => "a whole number of 0 to 65,535",
            Key::Device => "a whole number of 0 to 16,777,215",
            Key::Label =>
                "a text of 0 to 32 printable characters of ASCII, without quotation marks",
            Key::Id =>
                "a whole number of 0 to 9,223,372,036,854,775,807 or a text of at most 64 octets",
        }
    }

    // Returns whether a verb needs the key, may have it, or never has it. An `id` belongs to the line, not to a verb.
    pub(crate) fn of(self, verb: Verb) -> Use
        ensures { result ≡ use_of verb self }
    {
        match (verb, self) {
            (_, Key::Do) => Use::Needed,
            (Verb::Configure, Key::Label) => Use::Free,
            (Verb::Configure, Key::Id) => Use::Never,
            (Verb::Configure, _) => Use::Needed,
            (Verb::Clear | Verb::Rollback | Verb::Read, Key::Port) => Use::Needed,
            (Verb::Status, Key::Port) => Use::Free,
            _ => Use::Never,
        }
    }

    // Returns whether the value at the key is allowed.
    fn is_right(self, table: &Table) -> bool
        ensures { result ≡ is_right self (table_view table.now) }
    {
        match self {
            Key::Do => verb_at(table).is_some(),
            Key::Port => port_in(table).is_some(),
            Key::Mode => mode_in(table).is_some(),
            Key::Validation => validation_in(table).is_some(),
            Key::Vendor => vendor_in(table).is_some(),
            Key::Device => device_in(table).is_some(),
            Key::Label => label_in(table).is_some(),
            Key::Id => true,
        }
    }

    // Returns whether the key is missing in a table with a verb, or its value is not allowed.
    fn is_wrong(self, verb: Verb, table: &Table) -> bool
        ensures { result ≡ is_wrong verb (table_view table.now) self }
    {
        match self.of(verb) {
            Use::Needed => !self.is_right(table),
            Use::Free => value_at(table, self.name()).is_some() && !self.is_right(table),
            Use::Never => false,
        }
    }
}

// Returns the first key of a table with a verb that is missing, or whose value is not allowed.
pub(crate) fn wrong_key(verb: Verb, table: &Table) -> Option<Key>
    ensures { result ≡ wrong_key verb (table_view table.now) }
{
    KEYS.iter().copied().find(|key| key.is_wrong(verb, table))
}

// Returns the keys of a verb, including `do`.
pub(crate) fn keys_of(verb: Verb) -> &'static [&'static str]
    ensures { map (λ key. key.now) result.now ≡ keys_of verb }
{
    match verb {
        Verb::Configure => &[
            "do",
            "port",
            "mode",
            "validation",
            "vendor",
            "device",
            "label",
        ],
        Verb::Clear | Verb::Rollback | Verb::Read | Verb::Status => &["do", "port"],
        Verb::Help | Verb::Quit => &["do"],
    }
}

/// It is printed as its word.
impl fmt::Display for Key {
    ghost use Rattle.std.specs.Prelude.{Some};
    ghost use Rattle.iol_requests.specs.Key.{key_name};

    ghost output = { λ key. Some (key_name key) };

    fn fmt<W: fmt::Write>(&self, f: &mut fmt::Formatter<W>) -> fmt::Result {
        f.write_str(self.name())
    }
}
