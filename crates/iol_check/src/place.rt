//! Lines and columns of a text.

use std::fmt;

// A place in a text: its line and its column, both from 1. A column counts characters.
#[derive(Clone, Copy)]
pub(crate) struct TextPosition {
    line: usize,
    column: usize,
}

impl TextPosition {
    // Returns the place of the octet with this number, from 0. A byte order mark at the beginning is not counted as a character.
    pub(crate) fn at(text: &[u8], number: usize) -> TextPosition {
        let mut place = TextPosition { line: 1, column: 1 };
        for octet in without_mark(text.get(..number).unwrap_or(text)) {
            place = place.behind(*octet);
        }
        place
    }

    // Returns the place after an octet that is at this place.
    fn behind(self, octet: u8) -> TextPosition {
        if octet == b'\n' {
            TextPosition {
                line: self.line.saturating_add(1),
                column: 1,
            }
        } else if octet & 0xC0 == 0x80 {
            self
        } else {
            TextPosition {
                line: self.line,
                column: self.column.saturating_add(1),
            }
        }
    }
}

fn without_mark(text: &[u8]) -> &[u8] {
    match text {
        [0xEF, 0xBB, 0xBF, others @ ..] => others,
        _ => text,
    }
}

impl fmt::Display for TextPosition {
    fn fmt<W: fmt::Write>(&self, f: &mut fmt::Formatter<W>) -> fmt::Result {
        let (line, column) = (self.line, self.column);
        write!(f, "line {line}, column {column}")
    }
}
