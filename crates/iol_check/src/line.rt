//! The parts that all lines of mistakes have: the place, the key, and what was found.

use crate::entry::Entry;
use crate::part::Part;
use crate::place::TextPosition;
use std::alloc::AllocError;

// The largest number of characters of a text that are shown.
const MOST_SHOWN: usize = 40;

// Writes the place of an octet of a text, and the name of what is there.
pub(crate) fn write_at(
    lines: &mut String,
    text: &str,
    at: usize,
    name: &str,
) -> Result<(), AllocError> {
    let place = TextPosition::at(text.as_bytes(), at);
    write!(lines, "{place}: ")?;
    write_cut(lines, name)
}

// Writes the line of an entry: its key as it is in the text, and a message.
pub(crate) fn write_said(
    lines: &mut String,
    text: &str,
    entry: Entry,
    said: &str,
) -> Result<(), AllocError> {
    write_at(lines, text, entry.name.start, entry.name.of(text))?;
    writeln!(lines, ": {said}")
}

// Writes the place of a value that is not allowed at a key, that key, and the value as it is in the text.
pub(crate) fn write_found(
    lines: &mut String,
    text: &str,
    at: usize,
    name: &str,
    value: Part,
) -> Result<(), AllocError> {
    write_at(lines, text, at, name)?;
    let found = value.of(text);
    if !found.is_empty() {
        lines.push_str(" = ")?;
        write_cut(lines, found)?;
    }
    lines.push_str(": ")
}

// Writes a text on one line, cut after `MOST_SHOWN` characters.
pub(crate) fn write_cut(lines: &mut String, text: &str) -> Result<(), AllocError> {
    let mut left = MOST_SHOWN;
    for character in text.chars() {
        if left == 0 {
            return lines.push_str("..");
        }
        left = left.saturating_sub(1);
        let shown = if character.is_control() {
            ' '
        } else {
            character
        };
        lines.push(shown)?;
    }
    Ok(())
}
