//! The ports of a state as JSON.
ghost use Rattle.std.specs.Prelude.{◌≡◌, IfOk, OnOk, map, ◌++◌};
ghost use Rattle.std.specs.Option.{option_map};
ghost use Rattle.serde_json.specs.Data.{array, put as with_member};
ghost use Rattle.serde_json.specs.View.{view, items_of, members_view};
ghost use Rattle.iol_types.specs.Numbers.{IsPortNumber};
ghost use Rattle.iol_types.specs.Port.{stored_of};
ghost use Rattle.iol_json.specs.Json.{config_data, stored_data, set_data, port_data, ports_data, port_at};

use crate::entries::entries_of;
use crate::members::with;
use iol_types::{MasterState, PortConfig, PortId, PortState, StoredSet};
use serde_json::{Map, Value};
use std::alloc::{AllocError, Global};

// Returns the ports of a state, port 1 first.
pub(crate) fn ports_of(alloc: Global, state: &MasterState) -> Result<Value, AllocError>
    ensures { IfOk result (λ value. view value ≡ array (items_of (ports_data 1 state.now))) }
{
    let mut ports = Vec::new(alloc);
    for number in 1..=state.ports() {
        push_port(alloc, &mut ports, state, number)?;
    }
    Ok(Value::from(ports))
}

// Adds the port with this number, 1 to 32, if it is there.
fn push_port(
    alloc: Global,
    ports: &mut Vec<Value>,
    state: &MasterState,
    number: u8,
) -> Result<(), AllocError>
    requires { IsPortNumber number }
    ensures { OnOk result (map view ports.new.items ≡ map view ports.old.items ++ port_at state.now number) }
{
    match PortId::new(number) {
        Some(port) => push_found(alloc, ports, state, port),
        None => Ok(()),
    }
}

fn push_found(
    alloc: Global,
    ports: &mut Vec<Value>,
    state: &MasterState,
    port: PortId,
) -> Result<(), AllocError>
    ensures { OnOk result (map view ports.new.items ≡ map view ports.old.items ++ port_at state.now port) }
{
    if let Some(found) = state.port(port) {
        ports.push(port_of(alloc, port.number(), found)?)?;
    }
    Ok(())
}

// Returns a port: its number, its revision, its configuration, its stored set, and its previous set.
pub(crate) fn port_of(alloc: Global, number: u8, port: &PortState) -> Result<Value, AllocError>
    ensures { IfOk result (λ value. view value ≡ port_data number port.now) }
{
    let members = with(alloc, Map::new(alloc), "port", Value::from(number))?;
    let members = with(alloc, members, "revision", Value::from(port.revision()))?;
    let members = with_config(alloc, members, "configuration", port.config())?;
    let members = with_set(alloc, members, "set", port.stored())?;
    let members = with_set(alloc, members, "previous", port.previous())?;
    Ok(Value::Object(members))
}

// Adds a configuration with this name to the members.
fn with_config(
    alloc: Global,
    members: Map<String, Value>,
    name: &str,
    config: PortConfig,
) -> Result<Map<String, Value>, AllocError>
    ensures { IfOk result (λ with. members_view with.entries ≡ with_member name.now (config_data config) (members_view members.entries)) }
{
    let config = config_of(alloc, config)?;
    with(alloc, members, name, config)
}

// Adds a set of a port, or null, with this name to the members.
fn with_set(
    alloc: Global,
    members: Map<String, Value>,
    name: &str,
    stored: Option<&StoredSet>,
) -> Result<Map<String, Value>, AllocError>
    ensures { IfOk result (λ with. members_view with.entries
        ≡ with_member name.now (set_data (option_map (λ set. stored_of set.now) stored.entry)) (members_view members.entries)) }
{
    let set = set_or_null(alloc, stored)?;
    with(alloc, members, name, set)
}

// Returns a set of a port, or null if there is none.
fn set_or_null(alloc: Global, stored: Option<&StoredSet>) -> Result<Value, AllocError>
    ensures { IfOk result (λ value. view value ≡ set_data (option_map (λ set. stored_of set.now) stored.entry)) }
{
    match stored {
        Some(stored) => set_of(alloc, stored),
        None => Ok(Value::Null),
    }
}

// Returns a stored set: its parameters, the octets that they count, its checksum, and the configuration under which it was taken.
fn set_of(alloc: Global, stored: &StoredSet) -> Result<Value, AllocError>
    ensures { IfOk result (λ value. view value ≡ stored_data (stored_of stored.now)) }
{
    let octets = stored.set.octets();
    let checksum = stored.set.checksum();
    let entries = entries_of(alloc, &stored.set)?;
    let members = with(alloc, Map::new(alloc), "entries", entries)?;
    let members = with(alloc, members, "octets", Value::from(octets))?;
    let members = with(alloc, members, "checksum", Value::from(checksum))?;
    let members = with_config(alloc, members, "under", stored.recorded)?;
    Ok(Value::Object(members))
}

// Returns a configuration: its label and its numbers, each under its name.
fn config_of(alloc: Global, config: PortConfig) -> Result<Value, AllocError>
    ensures { IfOk result (λ value. view value ≡ config_data config) }
{
    let mode = config.mode.to_octet();
    let validation = config.validation.to_octet();
    let device = config.device.number();
    let label = Value::try_from_str(alloc, config.label.as_str())?;
    let members = with(alloc, Map::new(alloc), "label", label)?;
    let members = with(alloc, members, "mode", Value::from(mode))?;
    let members = with(alloc, members, "validation", Value::from(validation))?;
    let members = with(alloc, members, "vendor", Value::from(config.vendor))?;
    let members = with(alloc, members, "device", Value::from(device))?;
    Ok(Value::Object(members))
}
