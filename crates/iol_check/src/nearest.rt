//! Finds the key that was meant by an unknown one.

use crate::keys::{KEYS, Key};
use crate::rules::Kind;
use std::alloc::{AllocError, Global};
use strsim::jaro;

// Two words must be more alike than this, if one may be meant by the other. The words of the command line follow the same rule.
const LEAST_ALIKE: f64 = 0.7;

// Writes that a key is unknown to a table of this kind, and which of its keys was meant, or which keys it has.
pub(crate) fn write_unknown(
    alloc: Global,
    lines: &mut String,
    kind: Option<Kind>,
    word: &str,
) -> Result<(), AllocError> {
    lines.push_str(": unknown key")?;
    match nearest_to(alloc, kind, word)? {
        Some(key) => {
            let name = key.name();
            writeln!(lines, "; {name}?")
        }
        None => write_keys(lines, kind),
    }
}

// Returns the key of a table of this kind that is most like a word, if one is like it.
fn nearest_to(alloc: Global, kind: Option<Kind>, word: &str) -> Result<Option<Key>, AllocError> {
    let mut nearest = None;
    let mut most = LEAST_ALIKE;
    for key in KEYS {
        let alike = if Kind::has(kind, key) {
            jaro(alloc, word, key.name())?
        } else {
            0.0
        };
        if alike > most {
            most = alike;
            nearest = Some(key);
        }
    }
    Ok(nearest)
}

// Writes all keys of a table of this kind, and the end of the line.
fn write_keys(lines: &mut String, kind: Option<Kind>) -> Result<(), AllocError> {
    let mut before = ": ";
    for key in KEYS {
        if Kind::has(kind, key) {
            lines.push_str(before)?;
            lines.push_str(key.name())?;
            before = ", ";
        }
    }
    lines.push('\n')
}
