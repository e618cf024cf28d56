//! Finds what is wrong in a table that is no request.
ghost use Rattle.std.specs.Prelude.{◌≡◌, Some, None, false, IfOk, IfErr, OnErr};
ghost use Rattle.toml.specs.View.{table_view};
ghost use Rattle.iol_script.specs.Table.{has_only_keys};
ghost use Rattle.iol_requests.specs.Key.{IsOfVerb, IsFaultOf, IsFaultIn, keys_of};
ghost use Rattle.iol_requests.specs.Request.{request_by, request_in, verb_at};

use crate::key::{Key, keys_of, wrong_key};
use crate::mistake::Fault;
use crate::nearest::{nearest_key, nearest_verb};
use crate::request::{Request, request_in, verb_at};
use crate::verb::Verb;
use crate::word::shown;
use iol_script::{has_only_keys, value_at};
use std::alloc::{AllocError, Global};
use std::str;
use toml::Table;

// Reads the request of a table, or finds what is wrong in it.
//
// # Errors
// `AllocError` if it is out of memory.
pub(crate) fn judged(alloc: Global, table: &Table) -> Result<Result<Request, Fault>, AllocError>
    ensures request { IfOk result (λ read. IfOk read (λ request. request_in (table_view table.now) ≡ Some request)) }
    ensures none { IfOk result (λ read. OnErr read (request_in (table_view table.now) ≡ None)) }
    ensures fault { IfOk result (λ read. IfErr read (IsFaultIn (table_view table.now))) }
{
    match request_in(table) {
        Some(request) => Ok(Ok(request)),
        None => Ok(Err(fault_in(alloc, table)?)),
    }
}

// Returns what is wrong in a table that is no request.
fn fault_in(alloc: Global, table: &Table) -> Result<Fault, AllocError>
    requires { request_in (table_view table.now) ≡ None }
    ensures { IfOk result (IsFaultIn (table_view table.now)) }
{
    match verb_at(table) {
        Some(verb) => fault_of(alloc, verb, table),
        None => fault_of_verb(alloc, table),
    }
}

// Returns what is wrong in a table that has no verb.
fn fault_of_verb(alloc: Global, table: &Table) -> Result<Fault, AllocError>
    requires { verb_at (table_view table.now) ≡ None }
    ensures { IfOk result (IsFaultIn (table_view table.now)) }
{
    match value_at(table, "do") {
        Some(value) => match value.as_str() {
            Some(word) => unknown_verb(alloc, word.as_bytes()),
            None => Ok(Fault::WrongValue { key: Key::Do }),
        },
        None => Ok(Fault::Missing { key: Key::Do }),
    }
}

// Returns the fault of a word that is no verb, with the verb that is most like it.
pub(crate) fn unknown_verb(alloc: Global, word: &[u8]) -> Result<Fault, AllocError>
    ensures { IfOk result IsOfVerb }
{
    let word = str::from_utf8(word).unwrap_or("");
    Ok(Fault::UnknownVerb {
        word: shown(word),
        meant: nearest_verb(alloc, word)?,
    })
}

// Returns what is wrong in a table that has a verb and is no request. A key that the verb does not have is reported first,
// since it may explain a missing key.
pub(crate) fn fault_of(alloc: Global, verb: Verb, table: &Table) -> Result<Fault, AllocError>
    requires verb { verb_at (table_view table.now) ≡ Some verb }
    requires none { request_by verb (table_view table.now) ≡ None }
    ensures { IfOk result (λ fault. IsFaultOf verb (table_view table.now) fault) }
{
    if !has_only_keys(table, keys_of(verb)) {
        return unknown_key(alloc, verb, table);
    }
    match wrong_key(verb, table) {
        Some(key) if value_at(table, key.name()).is_some() => Ok(Fault::WrongValue { key }),
        Some(key) => Ok(Fault::Missing { key }),
        // A table whose keys are all right is a request.
        None => unreachable!(),
    }
}

// Returns the fault of the first key of a table that its verb does not have.
fn unknown_key(alloc: Global, verb: Verb, table: &Table) -> Result<Fault, AllocError>
    requires { has_only_keys (keys_of verb) (table_view table.now) ≡ false }
    ensures { IfOk result (λ fault. IsFaultOf verb (table_view table.now) fault) }
{
    let word = first_unknown(verb, table);
    Ok(Fault::UnknownKey {
        verb,
        word: shown(word),
        meant: nearest_key(alloc, verb, word)?,
    })
}

// Returns the first key of a table that its verb does not have, or an empty text.
fn first_unknown(verb: Verb, table: &Table) -> &str {
    for key in table.keys() {
        if !is_key_of(verb, key.as_str()) {
            return key.as_str();
        }
    }
    ""
}

// Returns whether a word is a key of a verb.
fn is_key_of(verb: Verb, word: &str) -> bool {
    keys_of(verb).contains(&word)
}
