//! The line of a script that can be run (docs/FORMATS.md, "Check").
ghost use Rattle.std.specs.Prelude.{◌≡◌, IfOk, string_bytes};
ghost use Rattle.iol_script.specs.Script.{said_of};
ghost use Rattle.iol_check.specs.Fine.{count_of, fine_line};

use iol_script::Script;
use std::alloc::{AllocError, Global};
use std::fmt;

// Returns the line with the counts of a script.
pub(crate) fn fine_line(alloc: Global, script: &Script) -> Result<String, AllocError>
    ensures { IfOk result (λ line. string_bytes line ≡ fine_line (said_of script.now)) }
{
    let counts = Counts {
        ports: count_of(script.ports),
        slots: count_of(script.slots),
        devices: script.devices.len(),
        steps: script.steps.len(),
    };
    counts.to_string(alloc)
}

// Returns a whole number as a count, which is 0 if the number is negative.
fn count_of(number: i64) -> usize
    ensures { result ≡ count_of number }
{
    usize::try_from(number).unwrap_or(0)
}

// The counts of a script.
#[derive(Drop)]
struct Counts {
    ports: usize,
    slots: usize,
    devices: usize,
    steps: usize,
}

impl fmt::Display for Counts {
    ghost use Rattle.std.specs.Prelude.{Some};
    ghost use Rattle.iol_check.specs.Fine.{counts_line};

    ghost output = { λ counts. Some (counts_line counts.ports counts.slots counts.devices counts.steps) };

    fn fmt<W: fmt::Write>(&self, f: &mut fmt::Formatter<W>) -> fmt::Result {
        let ports = Counted("port", self.ports);
        let slots = Counted("slot", self.slots);
        write!(f, "fine: {ports}, {slots}, ")?;
        let devices = Counted("device", self.devices);
        let steps = Counted("step", self.steps);
        writeln!(f, "{devices}, {steps}")
    }
}

// A word and its count, which is written first. The word has an s unless the count is 1.
#[derive(Drop)]
struct Counted(&'static str, usize);

impl fmt::Display for Counted {
    ghost use Rattle.std.specs.Prelude.{Some};
    ghost use Rattle.iol_check.specs.Fine.{counted};

    ghost output = { λ said. Some (counted said.0.now said.1) };

    fn fmt<W: fmt::Write>(&self, f: &mut fmt::Formatter<W>) -> fmt::Result {
        let (word, count) = (self.0, self.1);
        if count == 1 {
            write!(f, "1 {word}")
        } else {
            write!(f, "{count} {word}s")
        }
    }
}
