//! Finds the place of a mistake in a request in words.

use crate::mistake::{Fault, Mistake};
use crate::part::{Part, column_of, parts_of};
use crate::word::shown;
use std::alloc::{AllocError, Global};
use toml::de::Error;

// The number of octets by which the document of a request is longer before its first pair: `do = "` and `"`.
const HEAD_OCTETS: usize = 7;

// Returns the mistake in a request in words whose document is valid TOML. Its column is that of the key, if there is one.
pub(crate) fn place_of(alloc: Global, text: &str, fault: Fault) -> Result<Mistake, AllocError> {
    let parts = parts_of(alloc, text)?;
    Ok(Mistake {
        column: column_in(text, &parts, &fault),
        fault,
    })
}

fn column_in(text: &str, parts: &[Part], fault: &Fault) -> Option<usize> {
    for part in parts {
        match part.key(text) {
            Some(key) if has_fault(key, fault) => {
                return Some(column_of(text.as_bytes(), part.start));
            }
            _ => {}
        }
    }
    None
}

// Returns whether a fault is about this key, which is written without quotes.
fn has_fault(key: &str, fault: &Fault) -> bool {
    match fault {
        Fault::WrongValue { key: wrong } => key == wrong.name(),
        Fault::UnknownKey { word, .. } => shown(key) == *word,
        _ => false,
    }
}

// Returns the mistake in a request in words whose document is not TOML: a part without an equals sign, a repeated key, or what
// the parser of TOML found.
pub(crate) fn mistake_of(alloc: Global, text: &str, error: &Error) -> Result<Mistake, AllocError> {
    let parts = parts_of(alloc, text)?;
    for (number, part) in parts.iter().enumerate() {
        if let Some(fault) = fault_at(text, &parts, number, *part) {
            return Ok(Mistake {
                column: Some(column_of(text.as_bytes(), part.start)),
                fault,
            });
        }
    }
    let place = match error.span() {
        Some(span) => span.start.saturating_sub(HEAD_OCTETS),
        None => 0,
    };
    Ok(Mistake {
        column: Some(column_of(text.as_bytes(), place)),
        fault: Fault::NotToml,
    })
}

// Returns what is wrong in the part of this number after the verb, if it is no pair, or if a part before it has its key.
fn fault_at(text: &str, parts: &[Part], number: usize, part: Part) -> Option<Fault> {
    if number == 0 {
        return None;
    }
    let Some(key) = part.key(text) else {
        return Some(Fault::NotPair);
    };
    if key == "do" || is_among(text, parts.get(..number).unwrap_or(&[]), key) {
        Some(Fault::Twice { word: shown(key) })
    } else {
        None
    }
}

// Returns whether one of these parts has a key.
fn is_among(text: &str, parts: &[Part], key: &str) -> bool {
    parts.iter().any(|part| part.key(text) == Some(key))
}
