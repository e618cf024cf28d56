//! Keys of a text, and their values.

use crate::keys::Key;
use crate::part::Part;
use crate::value::value_octets;
use std::alloc::{AllocError, Global};
use toml_parser::text::skip_ws;
use toml_parser::{Key as DottedKey, ParseError, dotted_key};

// A key, or several with dots between them: the first one or two, each `None` if it is unknown.
#[derive(Clone, Copy)]
pub(crate) enum Path {
    One(Option<Key>),
    More(Option<Key>, Option<Key>),
}

// A key and its value.
#[derive(Clone, Copy)]
pub(crate) struct Pair {
    pub(crate) path: Path,
    pub(crate) name: Part,
    pub(crate) value: Part,
}

// Reads the key and the value at `start`, a suffix of `text`, and returns them and the text after them, or `None` if they cannot
// be read.
pub(crate) fn pair_at<'t>(
    alloc: Global,
    text: &str,
    start: &'t str,
) -> Result<Option<(Pair, &'t str)>, AllocError> {
    match path_at(alloc, start)? {
        Some((path, equals)) => Ok(pair_with(path, text, start, equals)),
        None => Ok(None),
    }
}

// Returns the pair of a path that was read and of the value after `=`, and the text after that value.
fn pair_with<'t>(path: Path, text: &str, start: &str, equals: &'t str) -> Option<(Pair, &'t str)> {
    let value = skip_ws(equals.strip_prefix('=')?);
    let (_, behind) = value.split_at_checked(value_octets(value))?;
    let pair = Pair {
        path,
        name: Part::between(text, start, equals),
        value: Part::between(text, value, behind),
    };
    Some((pair, behind))
}

// Reads the keys at the beginning of a text, and returns them and the text after them and their white space, or `None` if there
// is no key.
pub(crate) fn path_at(alloc: Global, text: &str) -> Result<Option<(Path, &str)>, AllocError> {
    match dotted_key(alloc, text) {
        Ok((keys, behind)) => Ok(Some((path_of(&keys), behind))),
        Err(ParseError::OutOfMemory) => Err(AllocError),
        Err(ParseError::At(_, _, _)) => Ok(None),
    }
}

fn path_of(keys: &DottedKey) -> Path {
    let last = Key::named(keys.last.as_str());
    match keys.path.as_slice() {
        [] => Path::One(last),
        [first] => Path::More(Key::named(first.as_str()), last),
        [first, second, ..] => Path::More(Key::named(first.as_str()), Key::named(second.as_str())),
    }
}
