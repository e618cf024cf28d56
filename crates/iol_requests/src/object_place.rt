//! Finds the place of a mistake in a request in JSON.

use crate::mistake::{Fault, Mistake};
use crate::object::has_key;
use crate::part::column_of;
use crate::word::shown;
use json::{MAX_DEPTH, Reader, Scratch, Value as Json};
use std::alloc::{AllocError, Global};

// Returns the mistake in a text that is not JSON, at the place where its reader stopped.
pub(crate) fn not_json(alloc: Global, text: &str) -> Result<Mistake, AllocError> {
    let mut scratch = Scratch::new(alloc);
    let column = match Reader::new(text, &mut scratch) {
        Ok(mut reader) => {
            let _ = Json::read(alloc, &mut reader, MAX_DEPTH);
            Some(column_of(text.as_bytes(), reader.offset()))
        }
        Err(_) => None,
    };
    Ok(Mistake {
        column,
        fault: Fault::NotJson,
    })
}

// Returns the mistake in a request in JSON. Its column is that of the key, if the key is found.
pub(crate) fn place_of(text: &str, fault: Fault) -> Mistake {
    let place = match &fault {
        Fault::WrongValue { key } => find_key(text, key.name(), 0),
        Fault::UnknownKey { word, .. } => find_key(text, word.as_str(), 0),
        Fault::UnknownVerb { .. } => find_key(text, "do", 0),
        _ => None,
    };
    Mistake {
        column: column_at(text, place),
        fault,
    }
}

// Returns the mistake in members that have a key twice. Its column is that of the second one.
pub(crate) fn twice_in(text: &str, members: &[(&str, Json)]) -> Mistake {
    for (number, member) in members.iter().enumerate() {
        if has_key(&members[..number], member.0) {
            return Mistake {
                column: column_at(text, second_place(text, member.0)),
                fault: Fault::Twice {
                    word: shown(member.0),
                },
            };
        }
    }
    place_of(text, Fault::NotJson)
}

fn column_at(text: &str, place: Option<usize>) -> Option<usize> {
    Some(column_of(text.as_bytes(), place?))
}

fn second_place(text: &str, key: &str) -> Option<usize> {
    let first = find_key(text, key, 0)?;
    find_key(text, key, first.saturating_add(1))
}

// Returns the first place from this one on where a key begins, if it is written without escapes.
fn find_key(text: &str, key: &str, from: usize) -> Option<usize> {
    for place in from..text.len() {
        if begins_with_key(text.get(place..).unwrap_or(""), key) {
            return Some(place);
        }
    }
    None
}

// Returns whether a text begins with a key in quotes and a colon.
fn begins_with_key(text: &str, key: &str) -> bool {
    match after_quoted(text, key) {
        Some(after) => after.trim_start().starts_with(':'),
        None => false,
    }
}

// Returns the text after a word in quotes, if the text begins with it.
fn after_quoted<'t>(text: &'t str, word: &str) -> Option<&'t str> {
    text.strip_prefix('"')?
        .strip_prefix(word)?
        .strip_prefix('"')
}
