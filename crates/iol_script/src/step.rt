//! One step of a script.
ghost use Rattle.std.specs.Prelude.{◌≡◌};
ghost use Rattle.toml.specs.View.{table_view};
ghost use Rattle.iol_script.specs.Step.{change_of_kind, configure_in, clear_in, rollback_in, port_step_in, flush_in, drain_in};
ghost use Rattle.iol_script.specs.Step.{config_in, label_in, mode_in, validation_in};

use crate::number::{device_in, octet_at, port_in, times_in, vendor_in};
use crate::table::{has_only_keys, text_at, value_at};
use iol_types::{Change, Label, PortConfig, PortId, PortMode, Validation};
use toml::{Table, Value};

/// A step of a script, other than the stop that ends it.
#[derive(Clone, Copy)]
pub enum Step {
    /// A client requests a change.
    Ask(Change),
    /// A port makes this many steps, 1 to [`MOST_TIMES`](crate::MOST_TIMES).
    Port { port: PortId, times: u16 },
    /// The flusher makes this many steps, 1 to [`MOST_TIMES`](crate::MOST_TIMES).
    Flush { times: u16 },
    /// The flusher writes all that is queued to the disk.
    Drain,
}

impl Step {
    ghost use Rattle.std.specs.Prelude.{◌≡◌};
    ghost use Rattle.toml.specs.View.{view, table_view};
    ghost use Rattle.iol_script.specs.Step.{step_of, step_in};

    // Reads a step from a value. These have only their port: `{ do = "clear", .. }` and `{ do = "rollback", .. }`.
    // `{ do = "configure", .. }` has five whole numbers, and may have a label. `{ do = "port", .. }`, with its port, and
    // `{ do = "flush" }` may say how often they are made. `{ do = "drain" }` has no other key.
    pub(crate) fn read(value: &Value) -> Option<Step>
        ensures { result ≡ step_of (view value.now) }
    {
        Step::in_table(value.as_table()?)
    }

    // Reads the step in a table, whose kind is at the key `do`.
    pub(crate) fn in_table(table: &Table) -> Option<Step>
        ensures { result ≡ step_in (table_view table.now) }
    {
        let kind = text_at(table, "do")?;
        match kind {
            "port" => port_step_in(table),
            "flush" => flush_in(table),
            "drain" => drain_in(table),
            _ => Some(Step::Ask(change_of_kind(kind, table)?)),
        }
    }
}

// Reads the change in a table of this kind.
fn change_of_kind(kind: &str, table: &Table) -> Option<Change>
    ensures { result ≡ change_of_kind kind.now (table_view table.now) }
{
    match kind {
        "configure" => configure_in(table),
        "clear" => clear_in(table),
        "rollback" => rollback_in(table),
        _ => None,
    }
}

fn configure_in(table: &Table) -> Option<Change>
    ensures { result ≡ configure_in (table_view table.now) }
{
    let keys = [
        "do",
        "port",
        "mode",
        "validation",
        "vendor",
        "device",
        "label",
    ];
    if !has_only_keys(table, &keys) {
        return None;
    }
    Some(Change::Configure {
        port: port_in(table)?,
        config: config_in(table)?,
    })
}

fn clear_in(table: &Table) -> Option<Change>
    ensures { result ≡ clear_in (table_view table.now) }
{
    if !has_only_keys(table, &["do", "port"]) {
        return None;
    }
    Some(Change::Clear {
        port: port_in(table)?,
    })
}

fn rollback_in(table: &Table) -> Option<Change>
    ensures { result ≡ rollback_in (table_view table.now) }
{
    if !has_only_keys(table, &["do", "port"]) {
        return None;
    }
    Some(Change::Rollback {
        port: port_in(table)?,
    })
}

fn port_step_in(table: &Table) -> Option<Step>
    ensures { result ≡ port_step_in (table_view table.now) }
{
    if !has_only_keys(table, &["do", "port", "times"]) {
        return None;
    }
    Some(Step::Port {
        port: port_in(table)?,
        times: times_in(table)?,
    })
}

fn flush_in(table: &Table) -> Option<Step>
    ensures { result ≡ flush_in (table_view table.now) }
{
    if !has_only_keys(table, &["do", "times"]) {
        return None;
    }
    Some(Step::Flush {
        times: times_in(table)?,
    })
}

fn drain_in(table: &Table) -> Option<Step>
    ensures { result ≡ drain_in (table_view table.now) }
{
    if has_only_keys(table, &["do"]) {
        Some(Step::Drain)
    } else {
        None
    }
}

fn config_in(table: &Table) -> Option<PortConfig>
    ensures { result ≡ config_in (table_view table.now) }
{
    Some(PortConfig {
        mode: mode_in(table)?,
        validation: validation_in(table)?,
        vendor: vendor_in(table)?,
        device: device_in(table)?,
        label: label_in(table)?,
    })
}

/// Returns the label of a port at the key `label`: a text of 0 to 32 octets from 20 to 7E other than 22. It is empty if the key
/// is missing.
pub fn label_in(table: &Table) -> Option<Label>
    ensures { result ≡ label_in (table_view table.now) }
{
    match value_at(table, "label") {
        Some(value) => Label::new(value.as_str()?.as_bytes()),
        None => Some(Label::empty()),
    }
}

/// Returns the mode of a port at the key `mode`: a whole number of 0 to 4.
pub fn mode_in(table: &Table) -> Option<PortMode>
    ensures { result ≡ mode_in (table_view table.now) }
{
    PortMode::from_octet(octet_at(table, "mode")?)
}

/// Returns the validation of a port at the key `validation`: a whole number of 0 to 4.
pub fn validation_in(table: &Table) -> Option<Validation>
    ensures { result ≡ validation_in (table_view table.now) }
{
    Validation::from_octet(octet_at(table, "validation")?)
}
