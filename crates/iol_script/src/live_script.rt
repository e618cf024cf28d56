//! A script for a master that runs in threads.
ghost use Rattle.std.specs.Prelude.{◌≡◌, None, Some, IfOk};
ghost use Rattle.toml.specs.View.{view, items_view, table_view};
ghost use Rattle.iol_script.specs.LiveScript.{change_of, changes_of};

use crate::device::Device;
use crate::devices::read_devices;
use crate::script::{ScriptFault, TOP_KEYS};
use crate::step::Step;
use crate::steps::change_by;
use crate::table::{has_only_keys, values_at};
use crate::text::read_table;
use iol_types::Change;
use std::alloc::Global;
use toml::{Table, Value};

/// A script for a master that runs in threads: the devices at its ports, and the changes that its clients request.
///
/// The image has the number of ports, and each port and the flusher make their steps by themselves. So all steps of the
/// script are those of clients, and `ports`, `slots` and `fail` are not read.
#[derive(Drop)]
pub struct LiveScript {
    /// The simulated devices, in order.
    pub devices: Vec<Device>,
    /// The requested changes, in order.
    pub changes: Vec<Change>,
}

impl LiveScript {
    ghost use Rattle.std.specs.Prelude.{None, Some, IfOk, OnOk};
    ghost use Rattle.toml.specs.View.{table_view};
    ghost use Rattle.iol_script.specs.LiveScript.{live_by, live_in, live_of};
    ghost use Rattle.iol_script.specs.Script.{IsText};

    /// Reads a script from a text of at most 65,536 octets: TOML with the keys of a script, each of whose steps is a client's.
    ///
    /// # Errors
    /// `NotValid` if the text is no such script; `Memory` if reading the text runs out of memory.
    pub fn read(alloc: Global, text: &[u8]) -> Result<LiveScript, ScriptFault>
        ensures text { OnOk result (IsText text.now) }
        ensures script { IfOk result (λ script. live_in text.now ≡ Some (live_of script)) }
        ensures not_valid { result ≡ Err ScriptFault.NotValid → IsText text.now → live_in text.now ≡ None }
        ensures memory { result ≡ Err ScriptFault.Memory → IsText text.now }
    {
        let table = read_table(alloc, text)?;
        LiveScript::from_table(alloc, &table)
    }

    fn from_table(alloc: Global, table: &Table) -> Result<LiveScript, ScriptFault>
        ensures script { IfOk result (λ script. live_by (table_view table.now) ≡ Some (live_of script)) }
        ensures not_valid { result ≡ Err ScriptFault.NotValid → live_by (table_view table.now) ≡ None }
    {
        if !has_only_keys(table, &TOP_KEYS) {
            return Err(ScriptFault::NotValid);
        }
        let devices = values_at(table, "device").ok_or(ScriptFault::NotValid)?;
        let devices = read_devices(alloc, devices)?;
        let values = values_at(table, "step").ok_or(ScriptFault::NotValid)?;
        let changes = read_changes(alloc, values)?;
        Ok(LiveScript { devices, changes })
    }
}

// Returns the changes that the values of steps request, in order.
//
// # Errors
// `NotValid` if a value is not a step of a client; `Memory` if it is out of memory.
fn read_changes(alloc: Global, values: &[Value]) -> Result<Vec<Change>, ScriptFault>
    ensures changes { IfOk result (λ changes. changes_of (items_view values.now) ≡ Some changes.items) }
    ensures not_valid { result ≡ Err ScriptFault.NotValid → changes_of (items_view values.now) ≡ None }
{
    let mut changes = Vec::with_capacity(alloc, values.len())?;
    for value in values {
        let change = read_change(value).ok_or(ScriptFault::NotValid)?;
        changes.push(change)?;
    }
    Ok(changes)
}

// Returns the change that the value of a step requests, if the step is a client's.
fn read_change(value: &Value) -> Option<Change>
    ensures { result ≡ change_of (view value.now) }
{
    change_by(Step::read(value)?)
}
