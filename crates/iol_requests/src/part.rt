//! The parts of a request in words, and the columns of a line.

use crate::quote::{is_blank, within_after};
use std::alloc::{AllocError, Global};

// A part of a text: the places of its first octet and of the one after its last.
#[derive(Clone, Copy)]
pub(crate) struct Part {
    pub(crate) start: usize,
    end: usize,
}

impl Part {
    // Returns the octets of the part.
    pub(crate) fn of(self, text: &str) -> &str {
        text.get(self.start..self.end).unwrap_or("")
    }

    // Returns its key: what is before its first equals sign.
    pub(crate) fn key(self, text: &str) -> Option<&str> {
        let (key, _) = self.of(text).split_once('=')?;
        Some(key)
    }
}

// Divides a text at blanks outside of quotes. The first part is the verb.
pub(crate) fn parts_of(alloc: Global, text: &str) -> Result<Vec<Part>, AllocError> {
    let mut parts = Vec::new(alloc);
    let mut start = 0;
    let mut within = None;
    for (place, octet) in text.as_bytes().iter().enumerate() {
        if within.is_none() && is_blank(*octet) {
            push_part(&mut parts, start, place)?;
            start = place + 1;
        }
        within = within_after(within, *octet);
    }
    push_part(&mut parts, start, text.len())?;
    Ok(parts)
}

// Adds a part, unless it is empty.
fn push_part(parts: &mut Vec<Part>, start: usize, end: usize) -> Result<(), AllocError> {
    if start < end {
        parts.push(Part { start, end })?;
    }
    Ok(())
}

// Returns the column of the octet at a place of a text, counted in characters from 1.
pub(crate) fn column_of(text: &[u8], place: usize) -> usize {
    let mut column = 1usize;
    for octet in text.get(..place).unwrap_or(text) {
        if *octet & 0xC0 != 0x80 {
            column = column.saturating_add(1);
        }
    }
    column
}
