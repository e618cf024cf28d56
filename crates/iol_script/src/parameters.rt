//! The parameters of a device.
ghost use Rattle.std.specs.Prelude.{◌≡◌, None, Some, length, map, IfOk};
ghost use Rattle.std.specs.List.{list_any};
ghost use Rattle.std.specs.Map.{keys_of};
ghost use Rattle.toml.specs.View.{items_view, table_view};
ghost use Rattle.iol_types.specs.Key.{same_key};
ghost use Rattle.iol_script.specs.Parameters.{parameters_in, parameters_of, are_distinct, entries_of};

use crate::parameter::Parameter;
use crate::script::ScriptFault;
use crate::table::values_at;
use iol_types::Key;
use std::alloc::Global;
use toml::{Table, Value};

/// The greatest number of parameters of a device.
pub const MOST_PARAMETERS: usize = 70;

// Reads the parameters in the table of a device, at the keys `keys` and `values`.
//
// # Errors
// `NotValid` if they are not parameters that a device may have; `Memory` if it is out of memory.
pub(crate) fn parameters_in(alloc: Global, table: &Table) -> Result<Vec<Parameter>, ScriptFault>
    ensures parameters { IfOk result (λ parameters. parameters_in (table_view table.now) ≡ Some (entries_of parameters.items)) }
    ensures not_valid { result ≡ Err ScriptFault.NotValid → parameters_in (table_view table.now) ≡ None }
{
    let keys = values_at(table, "keys").ok_or(ScriptFault::NotValid)?;
    let values = values_at(table, "values").ok_or(ScriptFault::NotValid)?;
    if keys.len() != values.len() {
        return Err(ScriptFault::NotValid);
    }
    let parameters = read_parameters(alloc, keys, values)?;
    if parameters.len() <= MOST_PARAMETERS && are_distinct(&parameters) {
        Ok(parameters)
    } else {
        Err(ScriptFault::NotValid)
    }
}

// Reads parameters from values: each key with the octets at the same place.
//
// # Errors
// `NotValid` if a key and its octets are not a parameter; `Memory` if it is out of memory.
fn read_parameters(
    alloc: Global,
    keys: &[Value],
    values: &[Value],
) -> Result<Vec<Parameter>, ScriptFault>
    requires { length keys.now ≡ length values.now }
    ensures parameters { IfOk result (λ parameters.
        parameters_of (items_view keys.now) (items_view values.now) ≡ Some (entries_of parameters.items)) }
    ensures not_valid { result ≡ Err ScriptFault.NotValid → parameters_of (items_view keys.now) (items_view values.now) ≡ None }
{
    let mut parameters = Vec::with_capacity(alloc, keys.len())?;
    for (place, key) in keys.iter().enumerate() {
        let parameter = Parameter::read(alloc, key, &values[place])?;
        parameters.push(parameter)?;
    }
    Ok(parameters)
}

// Returns whether all keys are distinct.
fn are_distinct(parameters: &[Parameter]) -> bool
    ensures { result ≡ are_distinct (keys_of (entries_of parameters.now)) }
{
    let mut left = parameters;
    while let Some((first, others)) = left.split_first() {
        if has_key(others, first.key) {
            return false;
        }
        left = others;
    }
    true
}

fn has_key(parameters: &[Parameter], key: Key) -> bool
    ensures { result ≡ list_any (same_key key) (keys_of (entries_of parameters.now)) }
{
    parameters.iter().any(|parameter| key == parameter.key)
}
