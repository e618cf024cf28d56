//! A simulated device of a script.
ghost use Rattle.std.specs.Prelude.{◌≡◌, None, Some, IfOk, option_map};

use crate::number::{calls_at, device_in, octet_or, port_in, vendor_in};
use crate::parameter::Parameter;
use crate::parameters::parameters_in;
use crate::script::ScriptFault;
use crate::table::{has_only_keys, truth_or};
use iol_types::{DeviceId, PortId};
use std::alloc::Global;
use toml::{Table, Value};

/// The RevisionID of a device whose script gives none: V1.1.
pub const USUAL_REVISION: u8 = 17;

/// A simulated device. The devices of one port are connected one after another, in the order of the script.
#[derive(Drop)]
pub struct Device {
    /// The port of the device.
    pub port: PortId,
    /// Its VendorID.
    pub vendor: u16,
    /// Its DeviceID.
    pub device: DeviceId,
    /// Its RevisionID.
    pub revision: u8,
    /// Whether it supports ISDUs.
    pub isdu: bool,
    /// Whether its DS_UPLOAD_FLAG is set.
    pub flag: bool,
    /// Whether its Data Storage is locked.
    pub locked: bool,
    /// Its parameters, at most [`MOST_PARAMETERS`](crate::MOST_PARAMETERS), with distinct keys.
    pub parameters: Vec<Parameter>,
    /// The number of link calls that it answers. The next call is lost, and then the port's next device is connected.
    /// `None` means that it answers all calls.
    pub answers: Option<u64>,
    /// The number of answered calls after which it sets its flag and raises its event, if it does.
    pub event: Option<u64>,
}

impl Device {
    ghost use Rattle.std.specs.Prelude.{◌≡◌, List, None, Some, IfOk, option_map};
    ghost use Rattle.toml.specs.View.{view, table_view};
    ghost use Rattle.iol_types.specs.DataSet.{Entry};
    ghost use Rattle.iol_script.specs.Device.{device_of, device_by, device_with, said_device};

    // Reads a device from a value, a table with `port`, `vendor` and `device`; the other keys may be missing.
    //
    // # Errors
    // `NotValid` if the value is not a device; `Memory` if it is out of memory.
    pub(crate) fn read(alloc: Global, value: &Value) -> Result<Device, ScriptFault>
        ensures device { IfOk result (λ device. device_of (view value.now) ≡ Some (said_device device)) }
        ensures not_valid { result ≡ Err ScriptFault.NotValid → device_of (view value.now) ≡ None }
    {
        let table = value.as_table().ok_or(ScriptFault::NotValid)?;
        Device::from_table(alloc, table)
    }

    fn from_table(alloc: Global, table: &Table) -> Result<Device, ScriptFault>
        ensures device { IfOk result (λ device. device_by (table_view table.now) ≡ Some (said_device device)) }
        ensures not_valid { result ≡ Err ScriptFault.NotValid → device_by (table_view table.now) ≡ None }
    {
        let keys = [
            "port", "vendor", "device", "revision", "isdu", "flag", "locked", "keys", "values",
            "answers", "event",
        ];
        if !has_only_keys(table, &keys) {
            return Err(ScriptFault::NotValid);
        }
        let parameters = parameters_in(alloc, table)?;
        match Device::without_parameters(alloc, table) {
            Some(device) => Ok(Device {
                parameters,
                ..device
            }),
            None => Err(ScriptFault::NotValid),
        }
    }

    // Reads all of a device but its parameters, which each `?` here would have to drop.
    fn without_parameters(alloc: Global, table: &Table) -> Option<Device>
        ensures { (parameters : List Entry)
            → option_map (λ device. record (said_device device) { parameters = parameters }) result
            ≡ device_with parameters (table_view table.now) }
    {
        Some(Device {
            port: port_in(table)?,
            vendor: vendor_in(table)?,
            device: device_in(table)?,
            revision: octet_or(table, "revision", USUAL_REVISION)?,
            isdu: truth_or(table, "isdu", true)?,
            flag: truth_or(table, "flag", false)?,
            locked: truth_or(table, "locked", false)?,
            answers: calls_at(table, "answers")?,
            event: calls_at(table, "event")?,
            parameters: Vec::new(alloc),
        })
    }
}
