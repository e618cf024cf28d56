//! The mistakes of a text.

use crate::judge::Judge;
use crate::line::write_at;
use crate::place::TextPosition;
use iol_script::SCRIPT_OCTETS;
use std::alloc::{AllocError, Global};
use std::str;
use toml::de::Error;
use toml_parser::ErrorKind;

/// Appends a line for each mistake of a text to `lines` (docs/FORMATS.md, "Check").
///
/// If the text is too long or not UTF-8, no other mistake is looked for.
pub(crate) fn write_mistakes(
    alloc: Global,
    text: &[u8],
    lines: &mut String,
) -> Result<(), AllocError> {
    let octets = text.len();
    if SCRIPT_OCTETS < octets {
        return writeln!(
            lines,
            "line 1, column 1: script: {octets} octets: {SCRIPT_OCTETS} at most"
        );
    }
    match str::from_utf8(text) {
        Ok(text) => write_of_text(alloc, text, lines),
        Err(error) => {
            let place = TextPosition::at(text, error.valid_up_to());
            writeln!(lines, "{place}: script: not UTF-8")
        }
    }
}

// Writes the mistakes of a text. If it is not TOML, the parser's fault is its only mistake, unless that is a key that is there
// twice, which is one mistake among others.
fn write_of_text(alloc: Global, text: &str, lines: &mut String) -> Result<(), AllocError> {
    match toml::table_from_str(alloc, text) {
        Ok(_) => write_judged(alloc, text, lines),
        Err(error) if error.is_memory() => Err(AllocError),
        Err(error) if is_double(&error) => {
            write_judged(alloc, text, lines)?;
            if lines.is_empty() {
                write_fault(text, &error, lines)?;
            }
            Ok(())
        }
        Err(error) => write_fault(text, &error, lines),
    }
}

fn write_judged(alloc: Global, text: &str, lines: &mut String) -> Result<(), AllocError> {
    let judge = Judge::new(alloc, text)?;
    judge.write_mistakes(lines)
}

fn is_double(error: &Error) -> bool {
    error.message() == ErrorKind::DuplicateKey.description()
}

// Writes the fault of a text that is not TOML.
fn write_fault(text: &str, error: &Error, lines: &mut String) -> Result<(), AllocError> {
    let at = match error.span() {
        Some(span) => span.start,
        None => 0,
    };
    write_at(lines, text, at, "script")?;
    let message = error.message();
    writeln!(lines, ": no TOML: {message}")
}
