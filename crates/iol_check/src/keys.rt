//! The keys of scripts.

// A key of a script, of a device or of a step. One name is one key, whichever tables may have it.
#[derive(Clone, Copy, PartialEq, Eq)]
pub(crate) enum Key {
    Do,
    Ports,
    Slots,
    Fail,
    Device,
    Step,
    Port,
    Vendor,
    Revision,
    Isdu,
    Flag,
    Locked,
    Keys,
    Values,
    Answers,
    Event,
    Mode,
    Validation,
    Label,
    Times,
    Keep,
}

// All keys, in the order in which the keys of a table are listed.
pub(crate) const KEYS: [Key; 21] = [
    Key::Do,
    Key::Ports,
    Key::Slots,
    Key::Fail,
    Key::Port,
    Key::Mode,
    Key::Validation,
    Key::Vendor,
    Key::Device,
    Key::Label,
    Key::Step,
    Key::Revision,
    Key::Isdu,
    Key::Flag,
    Key::Locked,
    Key::Keys,
    Key::Values,
    Key::Answers,
    Key::Event,
    Key::Times,
    Key::Keep,
];

impl Key {
    // Returns the key with this name, if there is one.
    pub(crate) fn named(name: &str) -> Option<Key> {
        for key in KEYS {
            if key.name() == name {
                return Some(key);
            }
        }
        None
    }

    // Returns its name in a script.
    pub(crate) fn name(self) -> &'static str {
        match self {
            Key::Do => "do",
            Key::Ports => "ports",
            Key::Slots => "slots",
            Key::Fail => "fail",
            Key::Device => "device",
            Key::Step => "step",
            Key::Port => "port",
            Key::Vendor => "vendor",
            Key::Revision => "revision",
            Key::Isdu => "isdu",
            Key::Flag => "flag",
            Key::Locked => "locked",
            Key::Keys => "keys",
            Key::Values => "values",
            Key::Answers => "answers",
            Key::Event => "event",
            Key::Mode => "mode",
            Key::Validation => "validation",
            Key::Label => "label",
            Key::Times => "times",
            Key::Keep => "keep",
        }
    }
}
