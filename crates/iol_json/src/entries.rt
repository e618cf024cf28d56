//! The parameters of a set as JSON.
ghost use Rattle.std.specs.Prelude.{◌≡◌, IfOk, OnOk, map, ◌++◌, [], slice_get};
ghost use Rattle.std.specs.Option.{option_map_or};
ghost use Rattle.serde_json.specs.Data.{array};
ghost use Rattle.serde_json.specs.View.{view, items_of};
ghost use Rattle.iol_json.specs.Json.{entry_data, entry_at};

use iol_types::{DataSet, Key};
use serde_json::{Value, json};
use std::alloc::{AllocError, Global};

// Returns the parameters of a set, in order.
pub(crate) fn entries_of(alloc: Global, set: &DataSet) -> Result<Value, AllocError>
    ensures { IfOk result (λ value. view value ≡ array (items_of (map entry_data set.now.entries))) }
{
    let mut entries = Vec::new(alloc);
    for place in 0..set.len() {
        push_entry(alloc, &mut entries, set, place)?;
    }
    Ok(Value::from(entries))
}

// Adds the parameter at a place, if it is there.
fn push_entry(
    alloc: Global,
    entries: &mut Vec<Value>,
    set: &DataSet,
    place: usize,
) -> Result<(), AllocError>
    ensures { OnOk result (map view entries.new.items ≡ map view entries.old.items ++ entry_at set.now.entries place) }
{
    if let Some((key, octets)) = set.entry(place) {
        entries.push(entry_of(alloc, key, octets)?)?;
    }
    Ok(())
}

// Returns a parameter: its Index and Subindex, and its octets in hexadecimal.
fn entry_of(alloc: Global, key: Key, octets: &[u8]) -> Result<Value, AllocError>
    ensures { IfOk result (λ value. view value ≡ entry_data (key, octets.now)) }
{
    let data = hex::encode_upper(alloc, octets)?;
    json!(in alloc; {"index": key.index, "subindex": key.subindex, "data": data})
}
