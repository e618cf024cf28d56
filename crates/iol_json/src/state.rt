//! A state as JSON, and its text.
ghost use Rattle.std.specs.Prelude.{◌≡◌, IfOk, Some, string_bytes};
ghost use Rattle.serde_json.specs.Read.{read};
ghost use Rattle.serde_json.specs.View.{view};
ghost use Rattle.iol_json.specs.Json.{port_data, state_data};

use crate::ports::{port_of, ports_of};
use iol_types::{MasterState, PortId, PortState};
use serde_json::{Value, json};
use std::alloc::{AllocError, Global};

/// Returns a state after `number` commands, with each of its ports (docs/FORMATS.md, "JSON").
pub fn json_of(alloc: Global, number: u64, state: &MasterState) -> Result<Value, AllocError>
    ensures { IfOk result (λ value. view value ≡ state_data number state.now) }
{
    let ports = ports_of(alloc, state)?;
    json!(in alloc; {"ports": ports, "recovered": number})
}

/// Returns one port of a state, with its number (docs/FORMATS.md, "JSON").
pub fn json_of_port(alloc: Global, port: PortId, state: &PortState) -> Result<Value, AllocError>
    ensures { IfOk result (λ value. view value ≡ port_data port state.now) }
{
    port_of(alloc, port.number(), state)
}

/// Returns the text of a state after `number` commands: one object, laid out in lines, without a line feed at the end.
pub fn json_text(alloc: Global, number: u64, state: &MasterState) -> Result<String, AllocError>
    ensures { IfOk result (λ text. read (string_bytes text) ≡ Some (state_data number state.now)) }
{
    json_of(alloc, number, state)?.to_string_pretty(alloc)
}
