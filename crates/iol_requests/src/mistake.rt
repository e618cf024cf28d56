//! What is wrong in a line, in words (docs/FORMATS.md, "Requests").

use crate::key::{KEYS, Key, Use};
use crate::line::LINE_OCTETS;
use crate::verb::{VERBS, Verb};
use crate::word::Word;
use std::fmt;

/// Why a line is no request, and where. It is printed in at most 200 octets.
#[derive(Clone, Copy, Debug, PartialEq, Eq)]
pub struct Mistake {
    /// The column at which it is, counted in characters from 1, if it is known.
    pub column: Option<usize>,
    /// What is wrong.
    pub fault: Fault,
}

/// What is wrong in a line.
#[derive(Clone, Copy, Debug, PartialEq, Eq)]
pub enum Fault {
    /// The line has more than [`LINE_OCTETS`] octets.
    TooLong,
    /// The line is not UTF-8.
    NotUtf8,
    /// The line begins with a brace, but is not JSON.
    NotJson,
    /// A part of a request in words has no equals sign.
    NotPair,
    /// A value is not one of TOML.
    NotToml,
    /// A word is not a verb; `meant` is the verb that may be meant.
    UnknownVerb {
        word: Word,
        meant: Option<Verb>,
    },
    /// A key does not belong to this verb; `meant` is the key that may be meant.
    UnknownKey {
        verb: Verb,
        word: Word,
        meant: Option<Key>,
    },
    /// A key is there twice.
    Twice {
        word: Word,
    },
    /// A key is missing.
    Missing {
        key: Key,
    },
    /// The value at a key is not allowed.
    WrongValue {
        key: Key,
    },
}

/// It is printed as its column, if that is known, and what is wrong.
impl fmt::Display for Mistake {
    fn fmt<W: fmt::Write>(&self, f: &mut fmt::Formatter<W>) -> fmt::Result {
        if let Some(column) = self.column {
            write!(f, "column {column}: ")?;
        }
        write!(f, "{}", self.fault)
    }
}

impl fmt::Display for Fault {
    fn fmt<W: fmt::Write>(&self, f: &mut fmt::Formatter<W>) -> fmt::Result {
        match self {
            Fault::TooLong => write!(f, "longer than {LINE_OCTETS} octets"),
            Fault::NotUtf8 => f.write_str("not UTF-8"),
            Fault::NotJson => f.write_str("not JSON"),
            Fault::NotPair => f.write_str("no key=value"),
            Fault::NotToml => f.write_str("neither a whole number nor a text in quotes"),
            Fault::UnknownVerb { word, meant } => write_verb(f, word, *meant),
            Fault::UnknownKey { verb, word, meant } => write_key(f, *verb, word, *meant),
            Fault::Twice { word } => write!(f, "twice: {word}"),
            Fault::Missing { key } => write!(f, "missing: {key}"),
            Fault::WrongValue { key } => write!(f, "{key} is {}", key.may()),
        }
    }
}

// Writes that a word is no verb, and the verb that may be meant, or all verbs.
fn write_verb<W: fmt::Write>(
    f: &mut fmt::Formatter<W>,
    word: &Word,
    meant: Option<Verb>,
) -> fmt::Result {
    write!(f, "no verb \"{word}\"; ")?;
    if let Some(verb) = meant {
        return write!(f, "is \"{verb}\" meant?");
    }
    let mut before = "";
    for verb in VERBS {
        write!(f, "{before}{verb}")?;
        before = ", ";
    }
    Ok(())
}

// Writes that a verb does not have a key, and the key that may be meant, or all keys of the verb.
fn write_key<W: fmt::Write>(
    f: &mut fmt::Formatter<W>,
    verb: Verb,
    word: &Word,
    meant: Option<Key>,
) -> fmt::Result {
    write!(f, "no key \"{word}\" of {verb}")?;
    if let Some(key) = meant {
        return write!(f, "; is \"{key}\" meant?");
    }
    let mut before = "; ";
    for key in KEYS {
        if key != Key::Do && key.of(verb) != Use::Never {
            write!(f, "{before}{key}")?;
            before = ", ";
        }
    }
    Ok(())
}
