//! Reads requests in words, as documents of TOML (docs/FORMATS.md, "Requests").
ghost use Rattle.std.specs.Prelude.{◌≡◌, ◌<◌, length, position, Some, None, IfOk, IfSome, OnErr};
ghost use Rattle.std.specs.List.{before_first, after_first};
ghost use Rattle.iol_requests.specs.Words.{is_blank, document_of, asked_in_words};

use crate::judge::{judged, unknown_verb};
use crate::mistake::Mistake;
use crate::place::{mistake_of, place_of};
use crate::quote::{as_toml, is_blank, within_after};
use crate::request::Request;
use crate::verb::Verb;
use std::alloc::{AllocError, Global};

// Reads the request of a text in words, or finds what is wrong in it.
//
// # Errors
// `AllocError` if it is out of memory.
pub(crate) fn read_words(alloc: Global, text: &str) -> Result<Result<Request, Mistake>, AllocError>
    ensures request { IfOk result (λ read. IfOk read (λ request. asked_in_words text.now ≡ Some request)) }
    ensures mistake { IfOk result (λ read. OnErr read (asked_in_words text.now ≡ None)) }
{
    let (word, pairs) = verb_and_pairs(text.as_bytes());
    let Some(verb) = Verb::named(word) else {
        let fault = unknown_verb(alloc, word)?;
        return Ok(Err(Mistake {
            column: Some(1),
            fault,
        }));
    };
    let document = document_of(alloc, verb, pairs)?;
    match toml::table_from_slice(alloc, document.as_slice()) {
        Ok(table) => match judged(alloc, &table)? {
            Ok(request) => Ok(Ok(request)),
            Err(fault) => Ok(Err(place_of(alloc, text, fault)?)),
        },
        Err(error) if error.is_memory() => Err(AllocError),
        Err(error) => Ok(Err(mistake_of(alloc, text, &error)?)),
    }
}

// Returns the verb of a text and its pairs: what is before and after the first blank.
fn verb_and_pairs(text: &[u8]) -> (&[u8], &[u8])
    ensures verb { result.0.now ≡ before_first is_blank text.now }
    ensures pairs { result.1.now ≡ after_first is_blank text.now }
{
    match first_blank(text) {
        Some(place) => (&text[..place], &text[place + 1..]),
        None => (text, &[]),
    }
}

// Returns the place of the first blank.
fn first_blank(text: &[u8]) -> Option<usize>
    ensures place { result ≡ position is_blank text.now }
    ensures bound { IfSome result (λ place. place < length text.now) }
{
    text.iter().position(|octet| is_blank(*octet))
}

// Returns the TOML document of a verb and its pairs.
fn document_of(alloc: Global, verb: Verb, pairs: &[u8]) -> Result<Vec<u8>, AllocError>
    ensures { IfOk result (λ document. document.items ≡ document_of verb pairs.now) }
{
    let mut document = Vec::new(alloc);
    document.extend_from_slice(b"do = \"")?;
    document.extend_from_slice(verb.name().as_bytes())?;
    document.extend_from_slice(b"\"\n")?;
    let mut within = None;
    for octet in pairs {
        document.push(as_toml(within, *octet))?;
        within = within_after(within, *octet);
    }
    Ok(document)
}
