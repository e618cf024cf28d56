//! The text of a run: its trace, and the state that was recovered (docs/FORMATS.md, "Texts").
ghost use Rattle.std.specs.Prelude.{◌≡◌};
ghost use Rattle.std.specs.Fmt.{WritesOnOk};
ghost use Rattle.iol_engine.specs.Events.{event_of};
ghost use Rattle.iol_commands.specs.Lines.{lost_in, is_said, lines_after, lines_of, events_of};

use crate::event_text::write_event;
use crate::run::Report;
use iol_engine::Event;
use iol_port::PortStatus;
use iol_run::Stamped;
use iol_types::PortId;
use std::fmt;

impl fmt::Display for Report {
    ghost use Rattle.std.specs.Prelude.{Some};
    ghost use Rattle.iol_commands.specs.Lines.{events_of, report_text};

    ghost output = { λ report. Some (report_text (events_of report.events.items) report.recovered.number report.recovered.state) };

    fn fmt<W: fmt::Write>(&self, f: &mut fmt::Formatter<W>) -> fmt::Result {
        write_events(f, &self.events)?;
        write!(f, "stopped\n{}", self.recovered)
    }
}

// Writes the lines of events. A lost call has a line of its own, so the status `lost` of its port right after it has none.
fn write_events<W: fmt::Write>(f: &mut fmt::Formatter<W>, events: &[Stamped]) -> fmt::Result
    ensures { WritesOnOk W.write_str_gives f.old result (lines_of (events_of events.now)) f.new }
{
    let mut lost = None;
    for stamped in events {
        write_lines(f, &stamped.event, lost)?;
        lost = lost_port(&stamped.event);
    }
    Ok(())
}

// Writes the lines of an event. `lost` is the port whose loss the event before it reported, if it did.
fn write_lines<W: fmt::Write>(
    f: &mut fmt::Formatter<W>,
    event: &Event,
    lost: Option<PortId>,
) -> fmt::Result
    ensures { WritesOnOk W.write_str_gives f.old result (lines_after lost (event_of event.now)) f.new }
{
    if is_said_loss(event, lost) {
        Ok(())
    } else {
        write_event(f, event)
    }
}

/// Returns the port whose device this event reports as lost, if it does.
pub fn lost_port(event: &Event) -> Option<PortId>
    ensures { result ≡ lost_in (event_of event.now) }
{
    match event {
        Event::Lost { port, .. } => Some(*port),
        _ => None,
    }
}

/// Returns whether this is the status of a port whose loss was reported right before.
pub fn is_said_loss(event: &Event, lost: Option<PortId>) -> bool
    ensures { result ≡ is_said (event_of event.now) lost }
{
    match event {
        Event::Status {
            port,
            status: PortStatus::Lost,
        } => lost == Some(*port),
        _ => false,
    }
}
