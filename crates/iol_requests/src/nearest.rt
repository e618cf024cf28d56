//! Finds the verb or the key that is meant by an unknown word.

use crate::key::{KEYS, Key, Use};
use crate::verb::{VERBS, Verb};
use std::alloc::{AllocError, Global};
use strsim::jaro;

// A word may be meant for another if their likeness is above this number. Keys of scripts are compared the same way.
const LEAST_ALIKE: f64 = 0.7;

// Returns the verb that is most like a word, if one is like it.
pub(crate) fn nearest_verb(alloc: Global, word: &str) -> Result<Option<Verb>, AllocError> {
    let mut nearest = None;
    let mut most = LEAST_ALIKE;
    for verb in VERBS {
        let alike = jaro(alloc, word, verb.name())?;
        if alike > most {
            most = alike;
            nearest = Some(verb);
        }
    }
    Ok(nearest)
}

// Returns the key of a verb that is most like a word, if one is like it. `do` is never meant, since it is there if a verb is known.
pub(crate) fn nearest_key(
    alloc: Global,
    verb: Verb,
    word: &str,
) -> Result<Option<Key>, AllocError> {
    let mut nearest = None;
    let mut most = LEAST_ALIKE;
    for key in KEYS {
        let alike = if key != Key::Do && key.of(verb) != Use::Never {
            jaro(alloc, word, key.name())?
        } else {
            0.0
        };
        if alike > most {
            most = alike;
            nearest = Some(key);
        }
    }
    Ok(nearest)
}
