//! The status of a port as JSON.
ghost use Rattle.std.specs.Prelude.{◌≡◌, IfOk};
ghost use Rattle.serde_json.specs.View.{members_view};
ghost use Rattle.iol_port.specs.Telling.{status_told};
ghost use Rattle.iol_answers.specs.Objects.{status_members};

use crate::report::PortReport;
use iol_json::members::with;
use iol_texts::{StatusText, StatusWords};
use serde_json::{Map, Value};
use std::alloc::{AllocError, Global};

// The members of a port and its status.
pub(crate) fn status_members(
    alloc: Global,
    report: PortReport,
) -> Result<Map<String, Value>, AllocError>
    ensures { IfOk result (λ members. members_view members.entries ≡ status_members report.port (status_told report.status)) }
{
    let status = Value::String(StatusText(report.status).to_string(alloc)?);
    let words = StatusWords {
        status: report.status,
        row: None,
    };
    let words = Value::String(words.to_string(alloc)?);
    let members = with(
        alloc,
        Map::new(alloc),
        "port",
        Value::from(report.port.number()),
    )?;
    let members = with(alloc, members, "status", status)?;
    with(alloc, members, "words", words)
}
