//! Notes are short texts beside the bars and signs of a port, each at a pole in its column.

use crate::look::look_of;
use crate::mark::{Arrival, Device};
use crate::scale::LETTER;
use iol_port::PortStatus;
use iol_texts::StatusText;
use std::fmt;

// The distance from a text to its pole, or to the edges of its bar.
pub(crate) const INSET: usize = 3;
// The distance between rows of notes.
pub(crate) const ROW_STEP: usize = 12;
// The most letters of the words before the numbers of a device, and of those numbers.
const ANEW_LETTERS: usize = 16;

const NUMBERS_LETTERS: usize = 30;

#[derive(Clone, Copy)]
pub(crate) enum Said<'a> {
    Status(PortStatus),
    Device(Device<'a>),
}

impl Said<'_> {
    // Returns the largest width of its text.
    fn width(self) -> usize {
        let letters = match self {
            Said::Status(status) => look_of(status).letters,
            Said::Device(device) => match device.arrival {
                Arrival::First => NUMBERS_LETTERS,
                Arrival::Anew => ANEW_LETTERS + NUMBERS_LETTERS,
            },
        };
        LETTER.saturating_mul(letters).saturating_add(2 * INSET)
    }
}

impl fmt::Display for Said<'_> {
    fn fmt<W: fmt::Write>(&self, f: &mut fmt::Formatter<W>) -> fmt::Result {
        match *self {
            Said::Status(status) => write!(f, "{}", StatusText(status)),
            Said::Device(device) => match device.arrival {
                Arrival::First => f.write_str(device.numbers),
                Arrival::Anew => {
                    f.write_str("connected anew: ")?;
                    f.write_str(device.numbers)
                }
            },
        }
    }
}

// A text, the place of its pole, and its row, counted from 0, which is the nearest to the bars or signs.
#[derive(Clone, Copy)]
pub(crate) struct Note<'a> {
    pub left: usize,
    pub row: usize,
    pub said: Said<'a>,
}

impl Note<'_> {
    fn right(self) -> usize {
        self.left.saturating_add(self.said.width())
    }
}

// Notes in their order from left to right, and the number of their rows.
#[derive(Drop)]
pub(crate) struct Notes<'a> {
    pub notes: Vec<Note<'a>>,
    pub rows: usize,
}

impl<'a> Notes<'a> {
    // Puts notes into rows. A note is in a farther row than those after it whose poles it would cover, so that no pole strikes
    // through a text.
    pub(crate) fn of(mut notes: Vec<Note<'a>>) -> Notes<'a> {
        let mut rows = 0;
        for at in (0..notes.len()).rev() {
            let row = row_at(&notes, at);
            if let Some(note) = notes.get_mut(at) {
                note.row = row;
            }
            rows = row.saturating_add(1).max(rows);
        }
        Notes { notes, rows }
    }

    // Returns the height of the rows.
    pub(crate) fn height(&self) -> usize {
        ROW_STEP.saturating_mul(self.rows)
    }

    // Returns where the notes end, counted from the left.
    pub(crate) fn right(&self) -> usize {
        let mut right = 0;
        for note in &self.notes {
            right = note.right().max(right);
        }
        right
    }
}

// Returns the row of a note, once those after it have theirs.
fn row_at(notes: &[Note], at: usize) -> usize {
    match notes.get(at..) {
        Some([note, later @ ..]) => row_before(note.right(), later),
        _ => 0,
    }
}

// Returns the row of a note that ends at `right`, before these notes.
fn row_before(right: usize, later: &[Note]) -> usize {
    let mut row = 0;
    for note in later {
        if right <= note.left {
            return row;
        }
        row = note.row.saturating_add(1).max(row);
    }
    row
}
