//! The legend, which says what each sign of a picture means.

use crate::marks::Marks;
use crate::scale::{EDGE, LETTER, LINE_STEP};
use crate::sign::{SIGNS, Sign, write_small_sign};
use std::alloc::{AllocError, Global};
use std::fmt;

// The place of the first sign of a line, and the distance from a sign to its words.
const LEFT: usize = EDGE + 6;

const WORDS: usize = 11;
// The distance between the words of a sign and the next sign.
const APART: usize = 16;
// The distance from the lower edge of the words up to their sign.
const ABOVE: usize = 4;

// The signs that a picture has, in lines.
#[derive(Drop)]
pub(crate) struct Legend {
    entries: Vec<Entry>,
    lines: usize,
}

// A sign in a line of the legend. Lines are counted from 1.
#[derive(Clone, Copy)]
struct Entry {
    sign: Sign,
    left: usize,
    line: usize,
}

impl Legend {
    // Makes the legend of these marks, in lines of this width.
    pub(crate) fn of(alloc: Global, marks: &Marks, width: usize) -> Result<Legend, AllocError> {
        let mut entries = Vec::new(alloc);
        let (mut left, mut lines) = (LEFT, 1usize);
        for sign in SIGNS {
            if !occurs(marks, sign) {
                continue;
            }
            if width < after(left, sign) {
                left = LEFT;
                lines = lines.saturating_add(1);
            }
            entries.push(Entry {
                sign,
                left,
                line: lines,
            })?;
            left = after(left, sign).saturating_add(APART);
        }
        Ok(Legend { entries, lines })
    }

    // Returns its height.
    pub(crate) fn height(&self) -> usize {
        LINE_STEP.saturating_mul(self.lines)
    }
}

// Returns whether a picture of these marks has this sign.
fn occurs(marks: &Marks, sign: Sign) -> bool {
    match sign {
        Sign::Waits => !marks.waits.is_empty(),
        _ => marks.signs.iter().any(|mark| mark.what.sign() == sign),
    }
}

// Returns where the words of a sign at this place end.
fn after(left: usize, sign: Sign) -> usize {
    let (_, meaning) = sign.name();
    left.saturating_add(WORDS)
        .saturating_add(LETTER.saturating_mul(meaning.len()))
}

// Writes the legend, below this height.
pub(crate) fn write_legend<W: fmt::Write>(
    f: &mut fmt::Formatter<W>,
    top: usize,
    legend: &Legend,
) -> fmt::Result {
    for entry in &legend.entries {
        let line = LINE_STEP.saturating_mul(entry.line);
        write_entry(f, *entry, top.saturating_add(line))?;
    }
    Ok(())
}

// Writes a sign and its meaning, on the line at this height.
fn write_entry<W: fmt::Write>(f: &mut fmt::Formatter<W>, entry: Entry, top: usize) -> fmt::Result {
    let (_, meaning) = entry.sign.name();
    f.write_str("<g class='legend'>")?;
    write_small_sign(f, entry.sign, entry.left, top.saturating_sub(ABOVE))?;
    let left = entry.left.saturating_add(WORDS);
    writeln!(
        f,
        "</path><text x='{left}' y='{top}' font-size='10'>{meaning}</text></g>"
    )
}
