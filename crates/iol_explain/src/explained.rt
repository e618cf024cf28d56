//! An explained run: the lines of its events, with their words, and those of its disk calls between them.
ghost use Rattle.std.specs.Fmt.{WritesOnOk};
ghost use Rattle.iol_engine.specs.Events.{event_of};
ghost use Rattle.iol_explain.specs.Explained.{run_lines, told_text, unsaid_lines};

use crate::disk_lines::{calls_before, calls_between, calls_of_run, write_calls};
use crate::event_lines::write_event;
use crate::telling::Telling;
use crate::told_disk::ToldCall;
use iol_commands::is_said_loss;
use iol_journal::Geometry;
use iol_run::Stamped;
use iol_texts::Recovered;
use std::alloc::Global;
use std::fmt;

/// An explained run: the calls of its disk, from its recovery on; its events; for each call of the flusher, the number of
/// events before the step that made it; and what was recovered after the stop.
#[derive(Drop)]
pub struct Explained {
    pub alloc: Global,
    pub geometry: Geometry,
    pub calls: Vec<ToldCall>,
    pub events: Vec<Stamped>,
    pub events_before: Vec<usize>,
    pub recovered: Recovered,
}

impl fmt::Display for Explained {
    ghost use Rattle.std.specs.Prelude.{Some};
    ghost use Rattle.iol_explain.specs.Explained.{explained_text};

    ghost output = { λ run. Some (explained_text run.geometry run.calls.items run.events_before.items run.events.items
        run.recovered.number run.recovered.state) };

    fn fmt<W: fmt::Write>(&self, f: &mut fmt::Formatter<W>) -> fmt::Result {
        let calls = calls_of_run(&self.calls);
        let before = &self.events_before;
        write_lines(f, self.alloc, self.geometry, calls, before, &self.events)?;
        write!(
            f,
            "stopped  # the power stops, and what it leaves of the disk is recovered\n{}",
            self.recovered
        )
    }
}

// Writes the lines of events and of disk calls. The line of a call comes before those of the event of its step.
fn write_lines<W: fmt::Write>(
    f: &mut fmt::Formatter<W>,
    alloc: Global,
    geometry: Geometry,
    calls: &[ToldCall],
    events_before: &[usize],
    events: &[Stamped],
) -> fmt::Result
    ensures { WritesOnOk W.write_str_gives f.old result (run_lines geometry calls.now events_before.now events.now) f.new }
{
    let mut telling = Telling::first();
    for (place, stamped) in events.iter().enumerate() {
        let told = calls_before(events_before, telling.calls, place);
        let since = calls_between(calls, telling.calls, told);
        write_told(f, alloc, geometry, since, &telling, stamped)?;
        telling.tell(told, stamped);
    }
    let behind = calls_between(calls, telling.calls, calls.len());
    write_calls(f, geometry, behind)
}

// Writes the lines of the disk calls since the last event, and then those of an event, given what was reported before it.
fn write_told<W: fmt::Write>(
    f: &mut fmt::Formatter<W>,
    alloc: Global,
    geometry: Geometry,
    since: &[ToldCall],
    telling: &Telling,
    stamped: &Stamped,
) -> fmt::Result
    ensures { WritesOnOk W.write_str_gives f.old result (told_text geometry since.now telling.now stamped.now) f.new }
{
    write_calls(f, geometry, since)?;
    write_unsaid(f, alloc, telling, stamped)
}

// Writes the lines of an event, or none if it is a loss that was just reported.
fn write_unsaid<W: fmt::Write>(
    f: &mut fmt::Formatter<W>,
    alloc: Global,
    telling: &Telling,
    stamped: &Stamped,
) -> fmt::Result
    ensures { WritesOnOk W.write_str_gives f.old result (unsaid_lines telling.now (event_of stamped.now.event)) f.new }
{
    if is_said_loss(&stamped.event, telling.lost) {
        Ok(())
    } else {
        let known = telling.known_for(&stamped.event);
        write_event(f, alloc, &stamped.event, known)
    }
}
