//! An answer as a JSON object (docs/FORMATS.md, "Lines of a serving master").
ghost use Rattle.std.specs.Prelude.{◌≡◌, IfOk, map, string_bytes};
ghost use Rattle.serde_json.specs.Data.{array, string};
ghost use Rattle.serde_json.specs.View.{items_of, members_view, view};
ghost use Rattle.iol_answers.specs.Help.{help_texts};
ghost use Rattle.iol_answers.specs.JsonLines.{IsJsonLine};
ghost use Rattle.iol_answers.specs.Objects.{answer_data, answer_members, id_data, refused_members, report_data, with_id};

use crate::answer::RequestAnswer;
use crate::help::help_texts;
use crate::json_line::json_line;
use crate::refusal::Refusal;
use crate::report::PortReport;
use crate::report_object::status_members;
use crate::request_id::RequestId;
use iol_json::json_of_port;
use iol_json::members::with;
use serde_json::{Map, Value};
use std::alloc::{AllocError, Global};

/// The line of an answer to the request with this id, if it had one: a JSON object, and a line feed.
///
/// # Errors
/// `AllocError` if it is out of memory.
pub fn answer_json(
    alloc: Global,
    id: Option<RequestId<'_>>,
    answer: &RequestAnswer,
) -> Result<String, AllocError>
    ensures { IfOk result (λ text. IsJsonLine (answer_data id.entry answer.now) (string_bytes text)) }
{
    json_line(alloc, &object_of(alloc, id, answer)?)
}

// The object of an answer to the request with this id, if it had one.
fn object_of(
    alloc: Global,
    id: Option<RequestId<'_>>,
    answer: &RequestAnswer,
) -> Result<Value, AllocError>
    ensures { IfOk result (λ value. view value ≡ answer_data id.entry answer.now) }
{
    let members = members_of(alloc, answer)?;
    Ok(Value::Object(with_id(alloc, members, id)?))
}

// Adds the id of the request, if it had one, to the members.
fn with_id(
    alloc: Global,
    members: Map<String, Value>,
    id: Option<RequestId<'_>>,
) -> Result<Map<String, Value>, AllocError>
    ensures { IfOk result (λ with. members_view with.entries ≡ with_id id.entry (members_view members.entries)) }
{
    match id {
        Some(id) => with(alloc, members, "id", id_of(alloc, id)?),
        None => Ok(members),
    }
}

// The id of a request.
fn id_of(alloc: Global, id: RequestId<'_>) -> Result<Value, AllocError>
    ensures { IfOk result (λ value. view value ≡ id_data id.entry) }
{
    match id {
        RequestId::Number(number) => Ok(Value::from(number)),
        RequestId::Text(text) => Value::try_from_str(alloc, text),
    }
}

// The members of an answer, without the id.
fn members_of(alloc: Global, answer: &RequestAnswer) -> Result<Map<String, Value>, AllocError>
    ensures { IfOk result (λ members. members_view members.entries ≡ answer_members answer.now) }
{
    let none = Map::new(alloc);
    match answer {
        RequestAnswer::Receipt(number) => with(alloc, none, "receipt", Value::from(*number)),
        RequestAnswer::Refused(refusal) => refused_members(alloc, *refusal),
        RequestAnswer::Port { port, state } => {
            with(alloc, none, "port", json_of_port(alloc, *port, state)?)
        }
        RequestAnswer::Statuses(reports) => with(
            alloc,
            none,
            "statuses",
            reports_of(alloc, reports)?,
        ),
        RequestAnswer::Wrong(mistake) => {
            with(alloc, none, "wrong", Value::try_from_str(alloc, mistake)?)
        }
        RequestAnswer::Help => with(alloc, none, "help", help_of(alloc)?),
    }
}

// The members of a refusal.
fn refused_members(alloc: Global, refusal: Refusal) -> Result<Map<String, Value>, AllocError>
    ensures { IfOk result (λ members. members_view members.entries ≡ refused_members refusal) }
{
    let name = Value::try_from_str(alloc, refusal.name())?;
    let words = Value::try_from_str(alloc, refusal.words())?;
    let members = with(alloc, Map::new(alloc), "refused", name)?;
    with(alloc, members, "words", words)
}

// Ports with their statuses, in order.
fn reports_of(alloc: Global, reports: &[PortReport]) -> Result<Value, AllocError>
    ensures { IfOk result (λ value. view value ≡ array (items_of (map report_data reports.now))) }
{
    let mut objects = Vec::new(alloc);
    for report in reports {
        objects.push(report_of(alloc, *report)?)?;
    }
    Ok(Value::from(objects))
}

// A port with its status.
fn report_of(alloc: Global, report: PortReport) -> Result<Value, AllocError>
    ensures { IfOk result (λ value. view value ≡ report_data report) }
{
    Ok(Value::Object(status_members(alloc, report)?))
}

// The list of all requests.
fn help_of(alloc: Global) -> Result<Value, AllocError>
    ensures { IfOk result (λ value. view value ≡ array (items_of (map string help_texts))) }
{
    let mut texts = Vec::new(alloc);
    for text in help_texts() {
        texts.push(Value::try_from_str(alloc, text)?)?;
    }
    Ok(Value::from(texts))
}
