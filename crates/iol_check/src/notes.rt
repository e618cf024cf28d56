//! The notes on a script that can be run.

use crate::entry::{Entry, Form, Role};
use crate::line::write_at;
use crate::reading::entries_of;
use iol_script::{Device, Script, Step};
use std::alloc::{AllocError, Global};
use std::str;

/// Returns the notes on the script of a text: one for each device at a port that makes no step, since nothing is ever sent to it.
pub(crate) fn notes_of(alloc: Global, text: &[u8], script: &Script) -> Result<String, AllocError> {
    let mut notes = String::new(alloc);
    if let Ok(text) = str::from_utf8(text) {
        let tables = device_tables(alloc, text)?;
        write_notes(text, script, &tables, &mut notes)?;
    }
    Ok(notes)
}

// Returns the tables of devices, in the order of the text.
fn device_tables(alloc: Global, text: &str) -> Result<Vec<Entry>, AllocError> {
    let mut tables = Vec::new(alloc);
    for entry in entries_of(alloc, text)? {
        if entry.form == Form::Table && entry.role == Role::Device {
            tables.push(entry)?;
        }
    }
    Ok(tables)
}

// Writes a note on each device that no step reaches.
fn write_notes(
    text: &str,
    script: &Script,
    tables: &[Entry],
    notes: &mut String,
) -> Result<(), AllocError> {
    for (number, table) in tables.iter().enumerate() {
        match script.devices.as_slice().get(number) {
            Some(device) if !is_reached(script, device) => {
                notes.push_str("note: ")?;
                write_at(notes, text, table.name.start, "device")?;
                notes.push_str(": no step reaches it\n")?;
            }
            _ => {}
        }
    }
    Ok(())
}

// Returns whether the port of a device makes steps.
fn is_reached(script: &Script, device: &Device) -> bool {
    for step in &script.steps {
        if let Step::Port { port, .. } = *step {
            if port == device.port {
                return true;
            }
        }
    }
    false
}
