//! The legend of a map: the meanings of the signs that the map has, in one line.

use crate::map_cells::{write_cells, write_frame};
use crate::map_lines::{Cells, Gate, Line};
use std::fmt;

// The place of the legend, in units of the picture.
const TOP: usize = 66;

const LEFT: usize = 10;
// The distance from the left edge of a sign to its meaning.
const MEANING_LEFT: usize = 30;
// The largest width of a letter.
const LETTER: usize = 8;
// The distance from the end of a meaning to the next sign.
const GAP: usize = 16;

// A sign of a map.
#[derive(Clone, Copy)]
enum Sign {
    Open,
    Closed,
    Used,
    Unused,
    Damaged,
}

impl Sign {
    // Returns whether a line has this sign.
    fn is_in(self, line: &Line) -> bool {
        match self {
            Sign::Open => line.cells.gate == Some(Gate::Open),
            Sign::Closed => line.cells.gate == Some(Gate::Closed),
            Sign::Used => 0 < line.cells.used,
            Sign::Unused => 0 < line.cells.unused,
            Sign::Damaged => line.damaged,
        }
    }

    fn meaning(self) -> &'static str {
        match self {
            Sign::Open => "gate, open",
            Sign::Closed => "gate, closed",
            Sign::Used => "sector, used",
            Sign::Unused => "sector, not used",
            Sign::Damaged => "a recovery ends here",
        }
    }

    // Returns the cells that draw the sign.
    fn cells(self) -> Cells {
        let (gate, used, unused) = match self {
            Sign::Open => (Some(Gate::Open), 0, 0),
            Sign::Closed => (Some(Gate::Closed), 0, 0),
            Sign::Used => (None, 1, 0),
            Sign::Unused => (None, 0, 1),
            Sign::Damaged => (None, 0, 0),
        };
        Cells { gate, used, unused }
    }
}

// Writes the signs that these lines have, side by side.
pub(crate) fn write_legend<W: fmt::Write>(
    f: &mut fmt::Formatter<W>,
    lines: &[Line],
) -> fmt::Result {
    let mut left = LEFT;
    for sign in [
        Sign::Open,
        Sign::Closed,
        Sign::Used,
        Sign::Unused,
        Sign::Damaged,
    ] {
        if lines.iter().any(|line| sign.is_in(line)) {
            write_sign(f, left, sign)?;
            let letters = LETTER.saturating_mul(sign.meaning().len());
            left = left.saturating_add(letters.saturating_add(MEANING_LEFT + GAP));
        }
    }
    Ok(())
}

// Writes a sign and its meaning, at this distance from the left.
fn write_sign<W: fmt::Write>(f: &mut fmt::Formatter<W>, left: usize, sign: Sign) -> fmt::Result {
    write!(f, "<g transform='translate({left} {TOP})'>")?;
    write_cells(f, sign.cells())?;
    if matches!(sign, Sign::Damaged) {
        write_frame(f, 0)?;
    }
    let meaning = sign.meaning();
    writeln!(f, "<text x='{MEANING_LEFT}' y='10'>{meaning}</text></g>")
}
