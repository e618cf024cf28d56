//! The lines below the lanes: what is recovered after a stop, by what the stop keeps, and which sectors are not synced.

use crate::recovered::{Answered, RecoveredWords};
use crate::scale::{EDGE, LINE_STEP};
use crate::unsynced::Span;
use iol_disk::Pick;
use std::fmt;

// The number of the last command that is recovered after a stop, by what the stop keeps of each sector that no sync has
// settled.
#[derive(Clone, Copy)]
pub(crate) struct Numbers {
    // The stop keeps what was durable before.
    pub old: u64,
    // The stop keeps what was written.
    pub new: u64,
    // The stop leaves zeros.
    pub zero: u64,
    // The stop leaves a pattern.
    pub pattern: u64,
}

impl Numbers {
    // Returns whether the number is the same whatever the stop keeps.
    fn agree(self) -> bool {
        self.old == self.new && self.old == self.zero && self.old == self.pattern
    }
}

// The facts about a stop that its lines give.
#[derive(Drop)]
pub(crate) struct StopText {
    // what the stop of the script keeps
    pub keep: Pick,
    pub numbers: Numbers,
    pub answered: Answered,
    pub unsynced: Vec<Span>,
}

impl StopText {
    // Returns the height of its lines.
    pub(crate) fn height(&self) -> usize {
        let stops = if self.numbers.agree() { 1 } else { 4 };
        let lines = self.unsynced.len().saturating_add(2 + stops);
        LINE_STEP.saturating_mul(lines)
    }
}

// Writes the lines, below this height.
pub(crate) fn write_stop<W: fmt::Write>(
    f: &mut fmt::Formatter<W>,
    top: usize,
    stop: &StopText,
) -> fmt::Result {
    let first = top.saturating_add(LINE_STEP);
    let kept = word_of(stop.keep);
    writeln!(
        f,
        "<text x='{EDGE}' y='{first}'>the stop of the script keeps what is {kept}</text>"
    )?;
    let (numbers, answered) = (stop.numbers, stop.answered);
    let second = first.saturating_add(LINE_STEP);
    if numbers.agree() {
        let number = numbers.old;
        write_after(
            f,
            second,
            ", whatever it keeps",
            RecoveredWords { number, answered },
        )?;
        write_unsynced(f, second, &stop.unsynced)
    } else {
        write_each(f, second, numbers, answered)?;
        write_unsynced(f, second.saturating_add(3 * LINE_STEP), &stop.unsynced)
    }
}

// Returns the word of scripts for what a stop keeps.
fn word_of(keep: Pick) -> &'static str {
    match keep {
        Pick::Old => "old",
        Pick::New => "new",
        Pick::Zero => "zero",
        Pick::Pattern => "pattern",
    }
}

// Writes what is recovered after each kind of stop, in lines from this height on.
fn write_each<W: fmt::Write>(
    f: &mut fmt::Formatter<W>,
    top: usize,
    numbers: Numbers,
    answered: Answered,
) -> fmt::Result {
    let stops = [
        (" (unsynced sectors keep their old octets)", numbers.old),
        (" (unsynced sectors have their new octets)", numbers.new),
        (" (unsynced sectors have zeros)", numbers.zero),
        (" (unsynced sectors have a pattern)", numbers.pattern),
    ];
    let mut at = top;
    for (kind, number) in stops {
        write_after(f, at, kind, RecoveredWords { number, answered })?;
        at = at.saturating_add(LINE_STEP);
    }
    Ok(())
}

// Writes what is recovered after a stop of this kind.
fn write_after<W: fmt::Write>(
    f: &mut fmt::Formatter<W>,
    top: usize,
    kind: &str,
    recovered: RecoveredWords,
) -> fmt::Result {
    writeln!(
        f,
        "<text class='after' x='{EDGE}' y='{top}'>after a power stop here{kind}: {recovered}</text>"
    )
}

// Writes the sectors that are not synced, below the line at this height.
fn write_unsynced<W: fmt::Write>(
    f: &mut fmt::Formatter<W>,
    line: usize,
    unsynced: &[Span],
) -> fmt::Result {
    let mut top = line.saturating_add(LINE_STEP);
    let which = if unsynced.is_empty() { ": none" } else { ":" };
    writeln!(
        f,
        "<text x='{EDGE}' y='{top}'>sectors that are not synced{which}</text>"
    )?;
    for span in unsynced {
        top = top.saturating_add(LINE_STEP);
        write_span(f, top, span)?;
    }
    Ok(())
}

fn write_span<W: fmt::Write>(f: &mut fmt::Formatter<W>, top: usize, span: &Span) -> fmt::Result {
    let (first, last, place) = (span.first, span.last, span.place);
    write!(f, "<text class='unsynced' x='{EDGE}' y='{top}'>")?;
    if first == last {
        writeln!(f, "sector {first}, {place}</text>")
    } else {
        writeln!(f, "sectors {first} to {last}, {place}</text>")
    }
}
