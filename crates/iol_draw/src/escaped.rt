//! Writes a text as XML. The words of an explained run, a label and a name may have characters that XML reads as markup, and a name
//! may have characters that XML does not accept at all.

use std::fmt;

#[derive(Clone, Copy)]
pub(crate) struct Escaped<'a>(pub(crate) &'a str);

impl fmt::Display for Escaped<'_> {
    fn fmt<W: fmt::Write>(&self, f: &mut fmt::Formatter<W>) -> fmt::Result {
        for character in self.0.chars() {
            write_escaped(f, character)?;
        }
        Ok(())
    }
}

// Writes a character as XML. One below U+0020, or that XML does not accept, becomes a blank.
pub(crate) fn write_escaped<W: fmt::Write>(
    f: &mut fmt::Formatter<W>,
    character: char,
) -> fmt::Result {
    match character {
        '&' => f.write_str("&amp;"),
        '<' => f.write_str("&lt;"),
        '>' => f.write_str("&gt;"),
        '\u{0}'..='\u{1f}' | '\u{fffe}' | '\u{ffff}' => f.write_char(' '),
        _ => f.write_char(character),
    }
}
