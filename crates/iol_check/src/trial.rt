//! Decides whether a value is allowed at a key: by whether a script that is right but for that value can be run.
ghost use Rattle.std.specs.Prelude.{◌≡◌, Ok, true, false};
ghost use Rattle.iol_commands.specs.Runs.{CanRun};

use crate::keys::{KEYS, Key};
use crate::rules::Kind;
use iol_commands::{Fault, read_playable};
use std::alloc::{AllocError, Global};

// The largest number of slots that a script may have, which is enough for any number of ports.
pub(crate) const MOST_SLOTS: u16 = 256;

// Returns whether a value, as it is in a script with `ports` ports, is allowed at a key of a table of this kind.
pub(crate) fn is_right(
    alloc: Global,
    ports: i64,
    kind: Kind,
    key: Key,
    value: &str,
) -> Result<bool, AllocError> {
    let script = script_with(alloc, ports, kind, key, value)?;
    can_be_run(alloc, script.as_str())
}

// Returns the number of ports of a script with this value at `ports`, or `None` if the value is not allowed there.
pub(crate) fn ports_by(alloc: Global, value: &str) -> Result<Option<i64>, AllocError> {
    let script = script_with(alloc, 1, Kind::Script, Key::Ports, value)?;
    match read_playable(alloc, script.as_bytes()) {
        Ok(playable) => Ok(Some(playable.script.ports)),
        Err(Fault::Script | Fault::Geometry) => Ok(None),
        // No other fault is a fault of the text.
        Err(_) => Err(AllocError),
    }
}

// Returns the smallest number of slots that a script with `ports` ports may have.
pub(crate) fn least_slots(alloc: Global, ports: i64) -> Result<u16, AllocError> {
    for slots in 1..MOST_SLOTS {
        let script = format!(in alloc; "ports = {ports}\nslots = {slots}\n")?;
        if can_be_run(alloc, script.as_str())? {
            return Ok(slots);
        }
    }
    Ok(MOST_SLOTS)
}

// Returns whether a device may have these keys and values, as they are between the brackets of their arrays.
pub(crate) fn are_parameters(alloc: Global, keys: &str, values: &str) -> Result<bool, AllocError> {
    let mut script = String::new(alloc);
    write!(script, "ports = 1\nslots = {MOST_SLOTS}\n")?;
    script.push_str("device = [{ port = 1, vendor = 0, device = 0, keys = [")?;
    script.push_str(keys)?;
    script.push_str("], values = [")?;
    script.push_str(values)?;
    script.push_str("] }]\n")?;
    can_be_run(alloc, script.as_str())
}

// Returns whether a script can be run.
fn can_be_run(alloc: Global, script: &str) -> Result<bool, AllocError>
    ensures may { result ≡ Ok true → CanRun script.now }
    ensures may_not { result ≡ Ok false → CanRun script.now → ⊥ }
{
    match read_playable(alloc, script.as_bytes()) {
        Ok(_) => Ok(true),
        Err(Fault::Script | Fault::Geometry) => Ok(false),
        // No other fault is a fault of the text.
        Err(_) => Err(AllocError),
    }
}

// Returns a script with `ports` ports and all else that it needs, which has a value at a key of a table of this kind.
fn script_with(
    alloc: Global,
    ports: i64,
    kind: Kind,
    key: Key,
    value: &str,
) -> Result<String, AllocError> {
    let mut script = String::new(alloc);
    if kind != Kind::Script || key != Key::Ports {
        writeln!(script, "ports = {ports}")?;
    }
    if kind != Kind::Script || key != Key::Slots {
        writeln!(script, "slots = {MOST_SLOTS}")?;
    }
    match kind {
        Kind::Script => write_pair(&mut script, key, value, "\n")?,
        Kind::Device => write_table(&mut script, Key::Device, kind, key, value)?,
        _ => write_table(&mut script, Key::Step, kind, key, value)?,
    }
    Ok(script)
}

// Writes an array of one table, with the keys that the table needs, and a value at one of its keys.
fn write_table(
    script: &mut String,
    array: Key,
    kind: Kind,
    key: Key,
    value: &str,
) -> Result<(), AllocError> {
    script.push_str(array.name())?;
    script.push_str(" = [{ ")?;
    for other in KEYS {
        if other == key {
            write_pair(script, other, value, ", ")?;
        } else if let Some(right) = kind.right_value(other) {
            write_pair(script, other, right, ", ")?;
        }
    }
    script.push_str("}]\n")
}

fn write_pair(script: &mut String, key: Key, value: &str, behind: &str) -> Result<(), AllocError> {
    script.push_str(key.name())?;
    script.push_str(" = ")?;
    script.push_str(value)?;
    script.push_str(behind)
}
