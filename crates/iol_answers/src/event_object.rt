//! An event as a JSON object (docs/FORMATS.md, "Lines of a serving master").
ghost use Rattle.std.specs.Prelude.{◌≡◌, IfOk, codes, string_bytes};
ghost use Rattle.serde_json.specs.Data.{member, object, string};
ghost use Rattle.serde_json.specs.View.{view};
ghost use Rattle.iol_port.specs.Telling.{status_told};
ghost use Rattle.iol_answers.specs.JsonLines.{IsJsonLine};
ghost use Rattle.iol_answers.specs.Objects.{event_data, status_members};

use crate::event::Event;
use crate::json_line::json_line;
use crate::report::PortReport;
use crate::report_object::status_members;
use iol_json::members::with;
use serde_json::{Value, json};
use std::alloc::{AllocError, Global};

/// The line of an event: a JSON object, and a line feed.
///
/// # Errors
/// `AllocError` if it is out of memory.
pub fn event_json(alloc: Global, event: &Event) -> Result<String, AllocError>
    ensures { IfOk result (λ text. IsJsonLine (event_data event.now) (string_bytes text)) }
{
    json_line(alloc, &object_of(alloc, event)?)
}

// The object of an event.
fn object_of(alloc: Global, event: &Event) -> Result<Value, AllocError>
    ensures { IfOk result (λ value. view value ≡ event_data event.now) }
{
    match *event {
        Event::Serving { ports, commands } => {
            json!(in alloc; {"event": "serving", "ports": ports, "commands": commands})
        }
        Event::Status { port, status } => status_of(alloc, PortReport { port, status }),
        Event::Durable { number } => json!(in alloc; {"event": "durable", "number": number}),
        Event::Ended { number } => json!(in alloc; {"event": "ended", "number": number}),
    }
}

// The object of a port's new status.
fn status_of(alloc: Global, report: PortReport) -> Result<Value, AllocError>
    ensures { IfOk result (λ value. view value
        ≡ object (member (codes "event") (string (codes "status")) (status_members report.port (status_told report.status)))) }
{
    let members = status_members(alloc, report)?;
    let name = Value::try_from_str(alloc, "status")?;
    Ok(Value::Object(with(alloc, members, "event", name)?))
}
