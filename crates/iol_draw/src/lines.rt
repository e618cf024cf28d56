//! The lines of an explained run, which are the titles of a picture's marks.

use crate::escaped::Escaped;
use iol_commands::{is_said_loss, lost_port};
use iol_engine::Event;
use iol_types::PortId;
use std::fmt;

// The lines for a mark: `count` of them, from `first` on, counted from 0.
#[derive(Clone, Copy)]
pub(crate) struct Lines {
    first: usize,
    count: usize,
}

// The lines of an explained run, and the number of them that are taken.
#[derive(Drop)]
pub(crate) struct ExplainedLines<'a> {
    lines: &'a [&'a str],
    taken: usize,
    // the port whose device the last event has lost
    lost: Option<PortId>,
}

impl<'a> ExplainedLines<'a> {
    // Makes the lines of which none is taken yet.
    pub(crate) fn new(lines: &'a [&'a str]) -> ExplainedLines<'a> {
        ExplainedLines {
            lines,
            taken: 0,
            lost: None,
        }
    }

    // Takes the line of the next disk call.
    pub(crate) fn call(&mut self) -> Lines {
        self.take(1)
    }

    // Takes the lines of the next event. A status that has none shows the line of the loss right before it.
    pub(crate) fn event(&mut self, event: &Event) -> Lines {
        let count = line_count(event, self.lost);
        self.lost = lost_port(event);
        self.take(count)
    }

    fn take(&mut self, count: usize) -> Lines {
        let first = self.taken;
        self.taken = first.saturating_add(count);
        if count == 0 {
            Lines {
                first: first.saturating_sub(1),
                count: 1,
            }
        } else {
            Lines { first, count }
        }
    }

    // Returns the numbers of a device, with which the words for its page begin.
    pub(crate) fn numbers(&self, page: Lines) -> &'a str {
        match self.lines.get(page.first) {
            Some(line) => numbers_in(line),
            None => "",
        }
    }
}

// Returns the number of lines that an explained run has for an event, if the event before it has lost the device of
// port `lost`.
fn line_count(event: &Event, lost: Option<PortId>) -> usize {
    match event {
        Event::Attended { .. } => 0,
        Event::Exchange { .. } => 2,
        Event::Lost {
            octets: Some(_),
            ..
        } => 2,
        _ if is_said_loss(event, lost) => 0,
        _ => 1,
    }
}

// Returns the part of the words for a page before the revision.
fn numbers_in(line: &str) -> &str {
    let words = match line.split_once("  # ") {
        Some((_, words)) => words,
        None => line,
    };
    match words.split_once(", RevisionID") {
        Some((numbers, _)) => numbers,
        None => words,
    }
}

// Writes the title of a mark: the lines of the explained run for it.
pub(crate) fn write_title<W: fmt::Write>(
    f: &mut fmt::Formatter<W>,
    lines: &[&str],
    said: Lines,
) -> fmt::Result {
    let end = said.first.saturating_add(said.count);
    match lines.get(said.first..end) {
        Some([line]) => write!(f, "<title>{}</title>", Escaped(line)),
        Some([first, second]) => {
            let (first, second) = (Escaped(first), Escaped(second));
            write!(f, "<title>{first}\n{second}</title>")
        }
        _ => Ok(()),
    }
}
