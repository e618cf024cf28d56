//! The line of an event in words (docs/FORMATS.md, "Lines of a serving master").
ghost use Rattle.std.specs.Prelude.{◌≡◌, ◌==◌, if◌then◌else◌, IfOk, [], codes, string_bytes};
ghost use Rattle.iol_answers.specs.EventLines.{event_line};

use crate::event::Event;
use crate::report::PortReport;
use std::alloc::{AllocError, Global};
use std::fmt;

/// The line of an event, with its line feed.
///
/// # Errors
/// `AllocError` if it is out of memory.
pub fn event_words(alloc: Global, event: &Event) -> Result<String, AllocError>
    ensures { IfOk result (λ text. string_bytes text ≡ event_line event.now) }
{
    event.to_string(alloc)
}

impl fmt::Display for Event {
    ghost use Rattle.std.specs.Prelude.{Some};
    ghost use Rattle.iol_answers.specs.EventLines.{event_line};

    ghost output = { λ event. Some (event_line event) };

    fn fmt<W: fmt::Write>(&self, f: &mut fmt::Formatter<W>) -> fmt::Result {
        match *self {
            Event::Serving { ports, commands } => {
                let ports = Counted {
                    number: u64::from(ports),
                    noun: "port",
                };
                let commands = Counted {
                    number: commands,
                    noun: "command",
                };
                writeln!(f, "serving {ports} after {commands}")
            }
            Event::Status { port, status } => write!(f, "{}", PortReport { port, status }),
            Event::Durable { number } => writeln!(f, "durable {number}"),
            Event::Ended { number } => writeln!(f, "ended {number}"),
        }
    }
}

// A number of things, with their name.
#[derive(Clone, Copy)]
struct Counted {
    number: u64,
    noun: &'static str,
}

impl fmt::Display for Counted {
    ghost use Rattle.std.specs.Prelude.{Some};
    ghost use Rattle.iol_answers.specs.EventLines.{counted};

    ghost output = { λ things. Some (counted things.number things.noun.now) };

    fn fmt<W: fmt::Write>(&self, f: &mut fmt::Formatter<W>) -> fmt::Result {
        write!(f, "{} {}{}", self.number, self.noun, ending(self.number))
    }
}

// The ending of a noun after a number.
fn ending(number: u64) -> &'static str
    ensures { result.now ≡ (if number == 1 then [] else codes "s") }
{
    if number == 1 { "" } else { "s" }
}
