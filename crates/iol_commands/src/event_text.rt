//! The lines of an event (docs/FORMATS.md, "Texts").
ghost use Rattle.std.specs.Prelude.{◌≡◌};
ghost use Rattle.std.specs.Fmt.{WritesOnOk};
ghost use Rattle.iol_engine.specs.Events.{event_of};
ghost use Rattle.iol_commands.specs.Lines.{octets_line, event_text};

use iol_engine::Event;
use iol_texts::{Spaced, StatusText, refusal_name};
use iol_types::PortId;
use std::fmt;

// Writes the lines of an event: one, or two for an exchange and for a request that was lost. What the core reports to a
// port has none.
pub(crate) fn write_event<W: fmt::Write>(f: &mut fmt::Formatter<W>, event: &Event) -> fmt::Result
    ensures { WritesOnOk W.write_str_gives f.old result (event_text (event_of event.now)) f.new }
{
    match event {
        Event::Accepted { number, .. } => writeln!(f, "accepted {number}"),
        Event::Refused(fault) => writeln!(f, "refused {}", refusal_name(*fault)),
        Event::Page { port, octets, .. } => write_octets(f, *port, "page", octets),
        Event::Exchange { port, octets, .. } => {
            write_octets(f, *port, ">", octets.request.as_slice())?;
            write_octets(f, *port, "<", octets.answer.as_slice())
        }
        Event::Lost { port, octets, .. } => {
            if let Some(octets) = octets {
                write_octets(f, *port, ">", octets.request.as_slice())?;
            }
            writeln!(f, "port {} lost", port.number())
        }
        Event::Attended { .. } => Ok(()),
        Event::Status { port, status } => {
            writeln!(f, "port {} {}", port.number(), StatusText(*status))
        }
        Event::Acknowledged { number } => writeln!(f, "acknowledged {number}"),
        Event::DiskFailed => f.write_str("disk failed\n"),
    }
}

// Writes the line of a port: a word or a sign, and the octets, each after a space.
fn write_octets<W: fmt::Write>(
    f: &mut fmt::Formatter<W>,
    port: PortId,
    sign: &str,
    octets: &[u8],
) -> fmt::Result
    ensures { WritesOnOk W.write_str_gives f.old result (octets_line port sign.now octets.now) f.new }
{
    writeln!(f, "port {} {sign}{}", port.number(), Spaced(octets))
}
