//! Requests in JSON (docs/FORMATS.md, "Requests").
ghost use Rattle.std.specs.Prelude.{◌≡◌, ◌<◌, ◌^◌, Some, None, option_map, unwrap_or, string_bytes, IfOk, IfSome, OnOk, OnErr};
ghost use Rattle.iol_script.specs.Table.{is_among};
ghost use Rattle.json.specs.Value.{value_view, members_view};
ghost use Rattle.json.specs.Strict.{keys};
ghost use Rattle.toml.specs.Data.{no_members};
ghost use Rattle.toml.specs.View.{table_view, view};
ghost use Rattle.iol_requests.specs.Id.{id_value};
ghost use Rattle.iol_requests.specs.Json.{asked_in_json, id_in_json, asking_of, request_of, request_with, id_at, id_of};
ghost use Rattle.iol_requests.specs.Json.{table_with, with_member, put, value_of};
ghost use Rattle.iol_requests.specs.Json.{are_distinct, number_in};

use crate::id::{Id, MOST_ID_OCTETS};
use crate::judge::judged;
use crate::key::Key;
use crate::line::begins_with;
use crate::mistake::{Fault, Mistake};
use crate::object_place::{not_json, place_of, twice_in};
use crate::request::Request;
use json::{Error, Scratch, Value as Json};
use std::alloc::{AllocError, Global};
use toml::{Table, Value};

// What was read from a text in JSON: its id, if it has a valid one, and its request, or what is wrong in it.
#[derive(Drop)]
pub(crate) struct Reading {
    pub(crate) id: Option<Id>,
    pub(crate) said: Result<Request, Mistake>,
}

// Reads the request of a text in JSON, or finds what is wrong in it.
//
// # Errors
// `AllocError` if it is out of memory.
pub(crate) fn read_json(alloc: Global, text: &str) -> Result<Reading, AllocError>
    ensures request { IfOk result (λ reading. IfOk reading.said (λ request.
        asked_in_json text.now ≡ Some (record { id = option_map id_value reading.id; request = request }))) }
    ensures none { IfOk result (λ reading. OnErr reading.said (asked_in_json text.now ≡ None)) }
    ensures id { IfOk result (λ reading. option_map id_value reading.id ≡ id_in_json text.now) }
{
    let mut scratch = Scratch::new(alloc);
    match Json::parse(alloc, text, &mut scratch) {
        Ok(value) => read_value(alloc, text, &value),
        Err(Error::OutOfMemory) => Err(AllocError),
        Err(Error::Invalid) => Ok(Reading {
            id: None,
            said: Err(not_json(alloc, text)?),
        }),
        // Only other calls return these.
        Err(Error::TooLong | Error::DuplicateKey) => unreachable!(),
    }
}

// Reads the request of a value, or finds what is wrong in it.
fn read_value(alloc: Global, text: &str, value: &Json) -> Result<Reading, AllocError>
    ensures request { IfOk result (λ reading. IfOk reading.said (λ request.
        asking_of (value_view value.now) ≡ Some (record { id = option_map id_value reading.id; request = request }))) }
    ensures none { IfOk result (λ reading. OnErr reading.said (asking_of (value_view value.now) ≡ None)) }
    ensures id { IfOk result (λ reading. option_map id_value reading.id ≡ unwrap_or (id_at (value_view value.now)) None) }
{
    match id_at(alloc, value)? {
        Some(id) => {
            let said = read_request(alloc, text, value)?;
            Ok(Reading { id, said })
        }
        None => Ok(Reading {
            id: None,
            said: Err(place_of(text, Fault::WrongValue { key: Key::Id })),
        }),
    }
}

// Returns the id of a value: `Some(None)` if it is missing, `None` if it is not valid.
fn id_at(alloc: Global, value: &Json) -> Result<Option<Option<Id>>, AllocError>
    ensures { IfOk result (λ id. option_map (option_map id_value) id ≡ id_at (value_view value.now)) }
{
    match value.get("id") {
        Some(value) => match id_of(alloc, value)? {
            Some(id) => Ok(Some(Some(id))),
            None => Ok(None),
        },
        None => Ok(Some(None)),
    }
}

// Returns the id in a value, if it is one.
fn id_of(alloc: Global, value: &Json) -> Result<Option<Id>, AllocError>
    ensures { IfOk result (λ id. option_map id_value id ≡ id_of (value_view value.now)) }
{
    match value {
        Json::Number(digits) => match number_in(digits) {
            Some(number) => Ok(Some(Id::Number(number))),
            None => Ok(None),
        },
        Json::String(text) if text.len() <= MOST_ID_OCTETS => {
            Ok(Some(Id::Text(String::from_str(alloc, text)?)))
        }
        _ => Ok(None),
    }
}

// Reads the request of a value, without its id.
fn read_request(
    alloc: Global,
    text: &str,
    value: &Json,
) -> Result<Result<Request, Mistake>, AllocError>
    ensures request { IfOk result (λ read. IfOk read (λ request. request_of (value_view value.now) ≡ Some request)) }
    ensures none { IfOk result (λ read. OnErr read (request_of (value_view value.now) ≡ None)) }
{
    match value {
        Json::Object(members) => read_members(alloc, text, members.as_slice()),
        _ => Ok(Err(Mistake {
            column: Some(1),
            fault: Fault::NotJson,
        })),
    }
}

// Reads the request of members.
fn read_members(
    alloc: Global,
    text: &str,
    members: &[(&str, Json)],
) -> Result<Result<Request, Mistake>, AllocError>
    ensures request { IfOk result (λ read. IfOk read (λ request. request_with (members_view members.now) ≡ Some request)) }
    ensures none { IfOk result (λ read. OnErr read (request_with (members_view members.now) ≡ None)) }
{
    if !are_distinct(members) {
        return Ok(Err(twice_in(text, members)));
    }
    let table = table_of(alloc, members)?;
    match judged(alloc, &table)? {
        Ok(request) => Ok(Ok(request)),
        Err(fault) => Ok(Err(place_of(text, fault))),
    }
}

// Returns whether all keys are distinct.
fn are_distinct(members: &[(&str, Json)]) -> bool
    ensures { result ≡ are_distinct (keys (members_view members.now)) }
{
    match members {
        [first, others @ ..] => !has_key(others, first.0) && are_distinct(others),
        [] => true,
    }
}

// Returns whether one of these members has a key.
pub(crate) fn has_key(members: &[(&str, Json)], key: &str) -> bool
    ensures { result ≡ is_among (keys (members_view members.now)) key.now }
{
    members.iter().any(|member| member.0 == key)
}

// Makes the table with these members, without the id.
fn table_of(alloc: Global, members: &[(&str, Json)]) -> Result<Table, AllocError>
    ensures { IfOk result (λ table. table_view table ≡ table_with (members_view members.now) no_members) }
{
    let mut table = Table::new(alloc);
    for (key, value) in members {
        add_member(alloc, &mut table, key, value)?;
    }
    Ok(table)
}

// Adds a member to a table, unless it is the id.
fn add_member(alloc: Global, table: &mut Table, key: &str, value: &Json) -> Result<(), AllocError>
    ensures { OnOk result (table_view table.new ≡ with_member key.now (value_view value.now) (table_view table.old)) }
{
    if key == "id" {
        return Ok(());
    }
    put(
        table,
        String::from_str(alloc, key)?,
        value_of(alloc, value)?,
    )
}

// Puts a value at a key of a table.
fn put(table: &mut Table, key: String, value: Value) -> Result<(), AllocError>
    ensures { OnOk result (table_view table.new ≡ put (string_bytes key) (view value) (table_view table.old)) }
{
    table.insert(key, value)?;
    Ok(())
}

// Translates a value to TOML: a text or a whole number from 0 on, or otherwise an empty array, which no key allows.
fn value_of(alloc: Global, value: &Json) -> Result<Value, AllocError>
    ensures { IfOk result (λ found. view found ≡ value_of (value_view value.now)) }
{
    match value {
        Json::Number(digits) => match number_in(digits) {
            Some(number) => Ok(Value::Integer(number as i64)),
            None => Ok(Value::Array(Vec::new(alloc))),
        },
        Json::String(text) => Ok(Value::String(String::from_str(alloc, text)?)),
        _ => Ok(Value::Array(Vec::new(alloc))),
    }
}

// Returns the whole number that digits write, of 0 to 2^63 - 1.
fn number_in(digits: &str) -> Option<u64>
    ensures number { result ≡ number_in digits.now }
    ensures bound { IfSome result (λ number. number < 2 ^ 63) }
{
    // The parser of numbers would accept a plus.
    if begins_with(digits.as_bytes(), b'+') {
        return None;
    }
    let number: u64 = digits.parse().ok()?;
    if number < 1 << 63 { Some(number) } else { None }
}
