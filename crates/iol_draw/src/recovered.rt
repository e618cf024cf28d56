//! The words for what is recovered after a power stop.

use iol_engine::Event;
use iol_run::Stamped;
use std::fmt;

// The number of the last command that was accepted, and of the last one that was acknowledged; 0 if
// there is none.
#[derive(Clone, Copy)]
pub(crate) struct Answered {
    accepted: u64,
    acknowledged: u64,
}

impl Answered {
    // Returns the numbers of the last commands that were accepted and acknowledged in these events.
    pub(crate) fn of(events: &[Stamped]) -> Answered {
        let (mut accepted, mut acknowledged) = (0, 0);
        for stamped in events {
            match &stamped.event {
                Event::Accepted { number, .. } => accepted = *number,
                Event::Acknowledged { number } => acknowledged = *number,
                _ => {}
            }
        }
        Answered {
            accepted,
            acknowledged,
        }
    }
}

// The words for a run with these answers, of which the commands up to this number are recovered.
#[derive(Clone, Copy)]
pub(crate) struct RecoveredWords {
    pub number: u64,
    pub answered: Answered,
}

impl fmt::Display for RecoveredWords {
    fn fmt<W: fmt::Write>(&self, f: &mut fmt::Formatter<W>) -> fmt::Result {
        let (number, accepted) = (self.number, self.answered.accepted);
        write!(f, "recovered {number}: ")?;
        if number < accepted {
            write_lost(f, number.saturating_add(1), accepted)?;
            write_whether(f, *self)
        } else {
            write_kept(f, accepted)
        }
    }
}

// Writes that all accepted commands are there.
fn write_kept<W: fmt::Write>(f: &mut fmt::Formatter<W>, accepted: u64) -> fmt::Result {
    match accepted {
        0 => f.write_str("no command was accepted"),
        1 => f.write_str("the command is there"),
        2 => f.write_str("both commands are there"),
        _ => write!(f, "all {accepted} commands are there"),
    }
}

// Writes that the commands with these numbers are lost.
fn write_lost<W: fmt::Write>(f: &mut fmt::Formatter<W>, first: u64, last: u64) -> fmt::Result {
    if first == last {
        write!(f, "command {first} is lost, ")
    } else {
        write!(f, "commands {first} to {last} are lost, ")
    }
}

// Writes whether the lost commands were acknowledged, which must not happen.
fn write_whether<W: fmt::Write>(
    f: &mut fmt::Formatter<W>,
    recovered: RecoveredWords,
) -> fmt::Result {
    let (number, answered) = (recovered.number, recovered.answered);
    if number < answered.acknowledged {
        let acknowledged = answered.acknowledged;
        write!(f, "although all up to {acknowledged} were acknowledged")
    } else if number.saturating_add(1) == answered.accepted {
        f.write_str("it was not acknowledged")
    } else {
        f.write_str("they were not acknowledged")
    }
}
