//! The lines of disk calls (docs/FORMATS.md, "Explained runs").
ghost use Rattle.std.specs.Prelude.{◌≡◌};
ghost use Rattle.std.specs.Fmt.{WritesOnOk};
ghost use Rattle.iol_explain.specs.DiskLines.{between, call_lines, calls_before, of_run, standing};

use crate::place::{SectorUse, is_gate, place_of};
use crate::told_disk::ToldCall;
use iol_journal::Geometry;
use std::fmt;

/// Returns the calls after those of the recovery, which makes one sync besides its reads.
pub fn calls_of_run(calls: &[ToldCall]) -> &[ToldCall]
    ensures { result.now ≡ of_run calls.now }
{
    match calls {
        [_, behind @ ..] => behind,
        [] => calls,
    }
}

/// Returns the calls from index `from` up to before index `to`, or none if these indexes are not in order or not within the calls.
pub fn calls_between(calls: &[ToldCall], from: usize, to: usize) -> &[ToldCall]
    ensures { result.now ≡ between calls.now from to }
{
    if from <= to && to <= calls.len() {
        &calls[from..to]
    } else {
        &[]
    }
}

/// Returns the number of calls before the event at index `place`, of which `told` are already reported. For each call,
/// `events_before` has the number of events before the step that made it. A call comes before the event of its own step.
pub fn calls_before(events_before: &[usize], told: usize, place: usize) -> usize
    ensures { result ≡ calls_before events_before.now told place }
{
    let mut calls = told;
    while calls < events_before.len() && events_before[calls] <= place {
        calls += 1;
    }
    calls
}

// Writes the lines of disk calls, in order.
pub(crate) fn write_calls<W: fmt::Write>(
    f: &mut fmt::Formatter<W>,
    geometry: Geometry,
    calls: &[ToldCall],
) -> fmt::Result
    ensures { WritesOnOk W.write_str_gives f.old result (call_lines geometry calls.now) f.new }
{
    for call in calls {
        write!(
            f,
            "{}",
            CallLine {
                geometry,
                call: *call
            }
        )?;
    }
    Ok(())
}

// The line of a disk call.
#[derive(Clone, Copy)]
struct CallLine {
    geometry: Geometry,
    call: ToldCall,
}

impl fmt::Display for CallLine {
    ghost use Rattle.std.specs.Prelude.{Some};
    ghost use Rattle.iol_explain.specs.DiskLines.{call_line};

    ghost output = { λ line. Some (call_line line.geometry line.call) };

    fn fmt<W: fmt::Write>(&self, f: &mut fmt::Formatter<W>) -> fmt::Result {
        match self.call {
            ToldCall::Sync => f.write_str("disk sync\n"),
            ToldCall::Write {
                sector,
                is_gate_open,
            } => {
                let place = place_of(self.geometry.layout(), sector);
                let standing = standing(place, is_gate_open);
                writeln!(f, "disk write sector {sector}, {place}{standing}")
            }
        }
    }
}

// Returns the words for whether a gate is written open or closed, or no words if the sector is no gate.
fn standing(place: SectorUse, is_gate_open: bool) -> &'static str
    ensures { result.now ≡ standing place is_gate_open }
{
    if !is_gate(place) {
        ""
    } else if is_gate_open {
        ", open"
    } else {
        ", closed"
    }
}
