//! The scale, which says where columns are in a picture, in its units, from left to right.

// The least start of the columns, after the names of the lanes.
const LEAST_START: usize = 92;
// The least distance from the last column to the stop, so that the words of each status fit there.
const REST: usize = 136;
// The distance between few columns, and the least distance between columns with words at each.
const WIDEST_STEP: usize = 16;

const WORDS_STEP: usize = 8;
// The least distance between columns with a number at each.
const NUMBERS_STEP: usize = 12;
// The largest width of a letter of a small text.
pub(crate) const LETTER: usize = 6;
// The distance between lines of text.
pub(crate) const LINE_STEP: usize = 16;
// The distance from the left edge to the texts beside and below the lanes.
pub(crate) const EDGE: usize = 8;

// The start of the columns, the distance between them, their number, and the place of the stop.
#[derive(Clone, Copy)]
pub(crate) struct Scale {
    start: usize,
    step: usize,
    columns: usize,
    end: usize,
}

impl Scale {
    // Makes the scale of a run of `columns` columns, beside labels of at most `letters` letters.
    pub(crate) fn of(columns: usize, letters: usize) -> Scale {
        let names = LETTER.saturating_mul(letters).saturating_add(4 * EDGE);
        let start = names.max(LEAST_START);
        let step = step_of(columns);
        Scale {
            start,
            step,
            columns,
            end: start
                .saturating_add(step.saturating_mul(columns))
                .saturating_add(REST),
        }
    }

    // Returns the same scale with a stop at this place or after it.
    pub(crate) fn reaching(self, right: usize) -> Scale {
        Scale {
            start: self.start,
            step: self.step,
            columns: self.columns,
            end: self.end.max(right),
        }
    }

    // Returns where the columns begin.
    pub(crate) fn start(self) -> usize {
        self.start
    }

    // Returns where a column is.
    pub(crate) fn left(self, column: usize) -> usize {
        self.start.saturating_add(self.step.saturating_mul(column))
    }

    // Returns where the bar of a status ends that is left in a column. The last bars reach to the stop, so that their words
    // fit.
    pub(crate) fn right(self, column: usize) -> usize {
        if column < self.columns {
            self.left(column)
        } else {
            self.end
        }
    }

    // Returns where the stop is.
    pub(crate) fn end(self) -> usize {
        self.end
    }

    // Returns whether columns are far enough apart for words beside the bars of statuses.
    pub(crate) fn has_words(self) -> bool {
        WORDS_STEP <= self.step
    }

    // Returns whether columns are far enough apart for a number at each.
    pub(crate) fn has_numbers(self) -> bool {
        NUMBERS_STEP <= self.step
    }
}

// Returns the distance between this number of columns: the more there are, the nearer they are.
fn step_of(columns: usize) -> usize {
    match columns {
        0..=50 => WIDEST_STEP,
        51..=75 => NUMBERS_STEP,
        76..=150 => WORDS_STEP,
        151..=400 => 6,
        401..=1200 => 3,
        1201..=20000 => 2,
        _ => 1,
    }
}
