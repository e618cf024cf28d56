//! The lines of a map: the part of a disk that each shows, the sectors of that part, and what the line says of them.
ghost use Rattle.std.specs.Prelude.{◌≡◌, ◌==◌, ◌+◌, ◌-◌, ◌^◌, min};

use std::alloc::{AllocError, Global};

// The part of a disk that a line shows.
#[derive(Clone, Copy, PartialEq, Eq)]
pub(crate) enum Part {
    // Sectors that belong to no area.
    Alone,
    AreaA,
    AreaB,
    Port,
    Slot,
    // Sectors of an area that are in no slot.
    Unused,
}

// A number, or the first and the last of several.
#[derive(Clone, Copy)]
pub(crate) struct Span {
    pub first: usize,
    pub last: usize,
}

impl Span {
    // Returns the span of one number.
    pub(crate) fn one(number: usize) -> Span
        ensures { result ≡ record { first = number; last = number } }
    {
        Span {
            first: number,
            last: number,
        }
    }

    // Returns the span of `count` numbers from the first on, at least one.
    pub(crate) fn counted(first: usize, count: usize) -> Span
        ensures { result ≡ record { first = first; last = min (first + (count - 1)) (2 ^ 64 - 1) } }
    {
        Span {
            first,
            last: first.saturating_add(count.saturating_sub(1)),
        }
    }

    // Returns whether the span is one number.
    pub(crate) fn is_one(self) -> bool
        ensures { result ≡ (self.first == self.last) }
    {
        self.first == self.last
    }

    // Returns whether this number is in the span.
    fn has(self, number: usize) -> bool {
        self.first <= number && number <= self.last
    }
}

// A gate, as it is drawn.
#[derive(Clone, Copy, PartialEq, Eq)]
pub(crate) enum Gate {
    Open,
    Closed,
}

// The sectors of a line as they are drawn: a gate, if it has one, then those that are used, then those that are not.
#[derive(Clone, Copy)]
pub(crate) struct Cells {
    pub gate: Option<Gate>,
    pub used: usize,
    pub unused: usize,
}

impl Cells {
    // Returns whether the other cells are drawn the same.
    fn are_like(self, other: Cells) -> bool {
        self.gate == other.gate && self.used == other.used && self.unused == other.unused
    }
}

// A line of a map, for one part of a disk or for several that are alike.
#[derive(Drop)]
pub(crate) struct Line {
    pub part: Part,
    // The numbers of its ports or slots, from 1 on.
    pub numbers: Span,
    pub sectors: Span,
    pub cells: Cells,
    pub text: String,
    // Whether a recovery ends here, since one of these sectors is damaged.
    pub damaged: bool,
}

impl Line {
    // Returns whether the next line says the same of the next part.
    fn is_like(&self, next: &Line) -> bool {
        self.part == next.part
            && self.cells.are_like(next.cells)
            && !self.damaged
            && !next.damaged
            && self.text.as_str() == next.text.as_str()
    }

    // Extends this line to the parts of the next line.
    fn take_in(&mut self, next: &Line) {
        self.numbers.last = next.numbers.last;
        self.sectors.last = next.sectors.last;
    }
}

// The lines so far.
#[derive(Drop)]
pub(crate) struct Lines {
    pub lines: Vec<Line>,
    // The sector that a recovery finds damaged, if it finds one.
    damaged: Option<usize>,
}

impl Lines {
    pub(crate) fn new(alloc: Global, damaged: Option<usize>) -> Lines {
        Lines {
            lines: Vec::new(alloc),
            damaged,
        }
    }

    // Adds a line, or joins it to the line before if that says the same.
    pub(crate) fn add(&mut self, line: Line) -> Result<(), AllocError> {
        let mut line = line;
        line.damaged = self.has_damage(line.sectors);
        let count = self.lines.len();
        if 0 < count && self.lines[count - 1].is_like(&line) {
            self.lines[count - 1].take_in(&line);
            return Ok(());
        }
        self.lines.push(line)?;
        Ok(())
    }

    // Returns whether a recovery finds one of these sectors damaged.
    fn has_damage(&self, sectors: Span) -> bool {
        match self.damaged {
            Some(sector) => sectors.has(sector),
            None => false,
        }
    }
}
