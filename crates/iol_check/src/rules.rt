//! The keys that a table of a script may have, and what is allowed at each (docs/FORMATS.md, "Scripts").
//!
//! These words are only shown. Whether a value is right is decided by `trial`.

use crate::keys::Key;

// The kind of a table; for a step, which step it is.
#[derive(Clone, Copy, PartialEq, Eq)]
pub(crate) enum Kind {
    Script,
    Device,
    Configure,
    Clear,
    Rollback,
    Port,
    Flush,
    Drain,
    Stop,
}

// What is allowed at a key, in words.
#[derive(Clone, Copy)]
pub(crate) enum May {
    Words(&'static str),
    // The number of one of the script's ports.
    OfPorts,
    // A number of slots that is enough for the script's ports.
    ForPorts,
}

// The rule of a key of a table.
#[derive(Clone, Copy)]
pub(crate) struct Rule {
    // A value that is right, if the key is required.
    pub(crate) needed: Option<&'static str>,
    pub(crate) may: May,
}

impl Kind {
    // Returns the step that a word at `do` names, if it names one.
    pub(crate) fn of_step(word: &str) -> Option<Kind> {
        match word {
            "configure" => Some(Kind::Configure),
            "clear" => Some(Kind::Clear),
            "rollback" => Some(Kind::Rollback),
            "port" => Some(Kind::Port),
            "flush" => Some(Kind::Flush),
            "drain" => Some(Kind::Drain),
            "stop" => Some(Kind::Stop),
            _ => None,
        }
    }

    // Returns the rule of a key in a table of this kind, if the table may have that key.
    pub(crate) fn rule(self, key: Key) -> Option<Rule> {
        match self {
            Kind::Script => of_script(key),
            Kind::Device => of_device(key),
            Kind::Configure => of_configure(key),
            Kind::Clear => of_port_command(key, "\"clear\""),
            Kind::Rollback => of_port_command(key, "\"rollback\""),
            Kind::Port => of_port_step(key),
            Kind::Flush => of_flush(key),
            Kind::Drain => of_drain(key),
            Kind::Stop => of_stop(key),
        }
    }

    // Returns a value that is right at a key, if a table of this kind must have that key.
    pub(crate) fn right_value(self, key: Key) -> Option<&'static str> {
        self.rule(key)?.needed
    }

    // Returns whether a table of this kind may have a key; if the table is an unknown step, whether any step may.
    pub(crate) fn has(kind: Option<Kind>, key: Key) -> bool {
        match kind {
            Some(kind) => kind.rule(key).is_some(),
            None => {
                of_configure(key).is_some() || of_port_step(key).is_some() || of_stop(key).is_some()
            }
        }
    }
}

// What is allowed at `do`.
pub(crate) const STEPS: &str =
    "\"configure\", \"clear\", \"rollback\", \"port\", \"flush\", \"drain\" or \"stop\"";

const VENDOR: &str = "0 to 65,535";

const DEVICE: &str = "0 to 16,777,215";

const LABEL: &str = "0 to 32 printable characters of ASCII, and no quotation mark";

const TIMES: &str = "1 to 10,000";

const TRUTH: &str = "true or false";

const CALLS: &str = "0 to 9,223,372,036,854,775,807";

fn of_script(key: Key) -> Option<Rule> {
    match key {
        Key::Ports => needed("1", "1 to 32"),
        Key::Slots => needed_slots(),
        Key::Fail => free("\"read n\", \"write n\" or \"sync n\", n from 1 to 1,000,000"),
        Key::Device => free("tables [[device]]"),
        Key::Step => free("tables [[step]]"),
        _ => None,
    }
}

fn of_device(key: Key) -> Option<Rule> {
    match key {
        Key::Port => needed_port(),
        Key::Vendor => needed("0", VENDOR),
        Key::Device => needed("0", DEVICE),
        Key::Revision => free("0 to 255"),
        Key::Isdu | Key::Flag | Key::Locked => free(TRUTH),
        Key::Keys => free("pairs [Index, Subindex]"),
        Key::Values => free("texts of hexadecimal digits"),
        Key::Answers | Key::Event => free(CALLS),
        _ => None,
    }
}

fn of_configure(key: Key) -> Option<Rule> {
    match key {
        Key::Do => needed("\"configure\"", STEPS),
        Key::Port => needed("1", "1 to 32"),
        Key::Mode | Key::Validation => needed("0", "0 to 4"),
        Key::Vendor => needed("0", VENDOR),
        Key::Device => needed("0", DEVICE),
        Key::Label => free(LABEL),
        _ => None,
    }
}

// Returns the rule of a key of a command that names only a port, with its word at `do`.
fn of_port_command(key: Key, word: &'static str) -> Option<Rule> {
    match key {
        Key::Do => needed(word, STEPS),
        Key::Port => needed("1", "1 to 32"),
        _ => None,
    }
}

fn of_port_step(key: Key) -> Option<Rule> {
    match key {
        Key::Do => needed("\"port\"", STEPS),
        Key::Port => needed_port(),
        Key::Times => free(TIMES),
        _ => None,
    }
}

fn of_flush(key: Key) -> Option<Rule> {
    match key {
        Key::Do => needed("\"flush\"", STEPS),
        Key::Times => free(TIMES),
        _ => None,
    }
}

fn of_drain(key: Key) -> Option<Rule> {
    match key {
        Key::Do => needed("\"drain\"", STEPS),
        _ => None,
    }
}

fn of_stop(key: Key) -> Option<Rule> {
    match key {
        Key::Do => needed("\"stop\"", STEPS),
        Key::Keep => needed("\"old\"", "\"old\", \"new\", \"zero\" or \"pattern\""),
        _ => None,
    }
}

// Returns the rule of a required key: a value that is right, and what is allowed there.
fn needed(right: &'static str, words: &'static str) -> Option<Rule> {
    Some(Rule {
        needed: Some(right),
        may: May::Words(words),
    })
}

fn needed_port() -> Option<Rule> {
    Some(Rule {
        needed: Some("1"),
        may: May::OfPorts,
    })
}

fn needed_slots() -> Option<Rule> {
    Some(Rule {
        needed: Some("256"),
        may: May::ForPorts,
    })
}

// Returns the rule of an optional key: what is allowed there.
fn free(words: &'static str) -> Option<Rule> {
    Some(Rule {
        needed: None,
        may: May::Words(words),
    })
}
