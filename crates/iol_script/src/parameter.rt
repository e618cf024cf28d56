//! A parameter of a device: its key and its octets.
ghost use Rattle.std.specs.Prelude.{◌≡◌, None, Some, IfOk};
ghost use Rattle.toml.specs.View.{view};
ghost use Rattle.iol_script.specs.Parameter.{key_of, key_of_pair, octets_in, octets_of};

use crate::number::{octet_of, word_of};
use crate::script::ScriptFault;
use hex::FromHexError;
use iol_types::{Key, MOST_ENTRY_OCTETS};
use std::alloc::Global;
use toml::Value;

/// A parameter of a device.
#[derive(Drop)]
pub struct Parameter {
    /// Its Index and Subindex, which are not reserved.
    pub key: Key,
    /// Its octets, at most [`MOST_ENTRY_OCTETS`].
    pub octets: Vec<u8>,
}

impl Parameter {
    ghost use Rattle.std.specs.Prelude.{◌≡◌, None, Some, IfOk};
    ghost use Rattle.toml.specs.View.{view};
    ghost use Rattle.iol_script.specs.Parameter.{parameter_of, entry_of};

    // Reads a parameter from two values, such as `[64, 0]`, its Index and Subindex, and `"0A64"`, its octets.
    //
    // # Errors
    // `NotValid` if the values are not a parameter; `Memory` if it is out of memory.
    pub(crate) fn read(alloc: Global, key: &Value, octets: &Value) -> Result<Parameter, ScriptFault>
        ensures parameter { IfOk result (λ parameter. parameter_of (view key.now) (view octets.now) ≡ Some (entry_of parameter)) }
        ensures not_valid { result ≡ Err ScriptFault.NotValid → parameter_of (view key.now) (view octets.now) ≡ None }
    {
        let key = key_of(key).ok_or(ScriptFault::NotValid)?;
        let octets = octets_of(alloc, octets)?;
        Ok(Parameter { key, octets })
    }
}

// Returns the key in a value: an array of an Index and a Subindex.
fn key_of(value: &Value) -> Option<Key>
    ensures { result ≡ key_of (view value.now) }
{
    match value.as_array()?.as_slice() {
        [index, subindex] => key_of_pair(index, subindex),
        _ => None,
    }
}

// Returns the key of an Index and a Subindex, if it is not reserved.
fn key_of_pair(index: &Value, subindex: &Value) -> Option<Key>
    ensures { result ≡ key_of_pair (view index.now) (view subindex.now) }
{
    let key = Key {
        index: word_of(index)?,
        subindex: octet_of(subindex)?,
    };
    if key.is_reserved() { None } else { Some(key) }
}

// Returns the octets in a value, which must be a text.
fn octets_of(alloc: Global, value: &Value) -> Result<Vec<u8>, ScriptFault>
    ensures octets { IfOk result (λ octets. octets_of (view value.now) ≡ Some octets.items) }
    ensures not_valid { result ≡ Err ScriptFault.NotValid → octets_of (view value.now) ≡ None }
{
    let text = value.as_str().ok_or(ScriptFault::NotValid)?;
    octets_in(alloc, text)
}

// Returns the octets that a text writes: two hexadecimal digits of either case for each, and nothing else.
fn octets_in(alloc: Global, text: &str) -> Result<Vec<u8>, ScriptFault>
    ensures octets { IfOk result (λ octets. octets_in text.now ≡ Some octets.items) }
    ensures not_valid { result ≡ Err ScriptFault.NotValid → octets_in text.now ≡ None }
{
    match hex::decode(alloc, text) {
        Ok(octets) if octets.len() <= MOST_ENTRY_OCTETS => Ok(octets),
        Ok(_) => Err(ScriptFault::NotValid),
        Err(FromHexError::OutOfMemory) => Err(ScriptFault::Memory),
        Err(_) => Err(ScriptFault::NotValid),
    }
}
