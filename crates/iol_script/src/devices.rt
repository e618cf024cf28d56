//! The devices of a script.
ghost use Rattle.std.specs.Prelude.{◌≡◌, None, Some, IfOk};
ghost use Rattle.toml.specs.View.{items_view};
ghost use Rattle.iol_script.specs.Devices.{devices_of, said_devices};

use crate::device::Device;
use crate::script::ScriptFault;
use std::alloc::Global;
use toml::Value;

// Reads devices from values, in order.
//
// # Errors
// `NotValid` if a value is not a device; `Memory` if it is out of memory.
pub(crate) fn read_devices(alloc: Global, values: &[Value]) -> Result<Vec<Device>, ScriptFault>
    ensures devices { IfOk result (λ devices. devices_of (items_view values.now) ≡ Some (said_devices devices.items)) }
    ensures not_valid { result ≡ Err ScriptFault.NotValid → devices_of (items_view values.now) ≡ None }
{
    let mut devices = Vec::with_capacity(alloc, values.len())?;
    for value in values {
        let device = Device::read(alloc, value)?;
        devices.push(device)?;
    }
    Ok(devices)
}
