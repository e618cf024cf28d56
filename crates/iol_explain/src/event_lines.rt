//! The lines of an event, with its words (docs/FORMATS.md, "Explained runs").
ghost use Rattle.std.specs.Prelude.{◌++◌, codes};
ghost use Rattle.std.specs.Fmt.{WritesOnOk};
ghost use Rattle.iol_core.specs.Telling.{refusal_of};
ghost use Rattle.iol_texts.specs.Texts.{refusal_name};
ghost use Rattle.iol_port.specs.Telling.{status_told};
ghost use Rattle.iol_engine.specs.Events.{event_of};
ghost use Rattle.iol_explain.specs.EventLines.{acknowledged_line, event_lines, exchange_lines, loss_line};
ghost use Rattle.iol_explain.specs.EventLines.{page_line, request_line, status_line, with_words};
ghost use Rattle.iol_texts.specs.Refusals.{refusal_words};

use crate::answer_words::AnswerWords;
use crate::known::Known;
use crate::page_words::PageWords;
use crate::request_words::RequestWords;
use iol_core::SubmitFault;
use iol_engine::Event;
use iol_link::PAGE_OCTETS;
use iol_port::PortStatus;
use iol_texts::{Spaced, StatusText, StatusWords, refusal_name, refusal_words};
use iol_types::PortId;
use std::alloc::Global;
use std::fmt;

// Writes the lines of an event, given what is known of its port.
pub(crate) fn write_event<W: fmt::Write>(
    f: &mut fmt::Formatter<W>,
    alloc: Global,
    event: &Event,
    known: Known,
) -> fmt::Result
    ensures { WritesOnOk W.write_str_gives f.old result (event_lines known (event_of event.now)) f.new }
{
    match event {
        Event::Accepted { number, .. } => writeln!(f, "accepted {number}  # waits for the disk"),
        Event::Refused(fault) => write_refused(f, *fault),
        Event::Page { port, octets, .. } => write_page(f, *port, octets),
        Event::Exchange { port, octets, .. } => write_exchange(
            f,
            alloc,
            *port,
            octets.request.as_slice(),
            octets.answer.as_slice(),
        ),
        Event::Lost {
            port,
            octets: Some(octets),
            ..
        } => write_lost_request(f, *port, octets.request.as_slice()),
        Event::Lost {
            port,
            octets: None,
            ..
        } => write_loss(f, *port),
        Event::Attended { .. } => Ok(()),
        Event::Status { port, status } => write_status(f, *port, *status, known),
        Event::Acknowledged { number } => write_acknowledged(f, *number),
        Event::DiskFailed => f.write_str(
            "disk failed  # the disk call before this line failed: nothing more is written\n",
        ),
    }
}

// Writes the line of a refusal.
fn write_refused<W: fmt::Write>(f: &mut fmt::Formatter<W>, fault: SubmitFault) -> fmt::Result
    ensures { WritesOnOk W.write_str_gives f.old result (codes "refused "
        ++ (refusal_name (refusal_of fault) ++ with_words (refusal_words (refusal_of fault)))) f.new }
{
    let (name, words) = (refusal_name(fault), refusal_words(fault));
    writeln!(f, "refused {name}  # {words}")
}

// Writes the lines of a request that was lost, and of the loss.
fn write_lost_request<W: fmt::Write>(
    f: &mut fmt::Formatter<W>,
    port: PortId,
    request: &[u8],
) -> fmt::Result
    ensures { WritesOnOk W.write_str_gives f.old result (request_line port request.now ++ loss_line port) f.new }
{
    write_request(f, port, request)?;
    write_loss(f, port)
}

// Writes the line of an acknowledgement.
fn write_acknowledged<W: fmt::Write>(f: &mut fmt::Formatter<W>, number: u64) -> fmt::Result
    ensures { WritesOnOk W.write_str_gives f.old result (acknowledged_line number) f.new }
{
    writeln!(f, "acknowledged {number}  # {}", Durable(number))
}

// The words that all commands up to this number are durable.
#[derive(Clone, Copy)]
struct Durable(u64);

impl fmt::Display for Durable {
    ghost use Rattle.std.specs.Prelude.{Some};
    ghost use Rattle.iol_explain.specs.EventLines.{durable_words};

    ghost output = { λ words. Some (durable_words words.0) };

    fn fmt<W: fmt::Write>(&self, f: &mut fmt::Formatter<W>) -> fmt::Result {
        let number = self.0;
        write!(f, "all commands up to {number} are durable")
    }
}

// Writes the line of a status.
fn write_status<W: fmt::Write>(
    f: &mut fmt::Formatter<W>,
    port: PortId,
    status: PortStatus,
    known: Known,
) -> fmt::Result
    ensures { WritesOnOk W.write_str_gives f.old result (status_line known port (status_told status)) f.new }
{
    let row = known.row();
    let words = StatusWords { status, row };
    writeln!(
        f,
        "port {} {}  # {words}",
        port.number(),
        StatusText(status)
    )
}

// Writes the line of a page.
fn write_page<W: fmt::Write>(
    f: &mut fmt::Formatter<W>,
    port: PortId,
    octets: &[u8; PAGE_OCTETS],
) -> fmt::Result
    ensures { WritesOnOk W.write_str_gives f.old result (page_line port octets.now) f.new }
{
    let words = PageWords(octets);
    writeln!(
        f,
        "port {} page{}  # {words}",
        port.number(),
        Spaced(octets)
    )
}

// Writes the line of a loss.
fn write_loss<W: fmt::Write>(f: &mut fmt::Formatter<W>, port: PortId) -> fmt::Result
    ensures { WritesOnOk W.write_str_gives f.old result (loss_line port) f.new }
{
    writeln!(
        f,
        "port {} lost  # no device answers: check the cable, and connect a device",
        port.number()
    )
}

// Writes the lines of an exchange.
fn write_exchange<W: fmt::Write>(
    f: &mut fmt::Formatter<W>,
    alloc: Global,
    port: PortId,
    request: &[u8],
    answer: &[u8],
) -> fmt::Result
    ensures { WritesOnOk W.write_str_gives f.old result (exchange_lines port request.now answer.now) f.new }
{
    let words = AnswerWords {
        alloc,
        request,
        answer,
    };
    write_request(f, port, request)?;
    writeln!(f, "port {} <{}  # {words}", port.number(), Spaced(answer))
}

// Writes the line of a request.
fn write_request<W: fmt::Write>(
    f: &mut fmt::Formatter<W>,
    port: PortId,
    request: &[u8],
) -> fmt::Result
    ensures { WritesOnOk W.write_str_gives f.old result (request_line port request.now) f.new }
{
    let words = RequestWords(request);
    writeln!(f, "port {} >{}  # {words}", port.number(), Spaced(request))
}
