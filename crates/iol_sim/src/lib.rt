//! Simulated links to devices. `SimLink` has simulated devices with Data Storage, one after another; a
//! call to it is answered by the present device, or is `Lost`. `ScriptLink` has given answers, which
//! need not be those of a device. The trait of every link, simulated or real, belongs to `iol_link`,
//! and is exported here again.
//!
//! Modules in reading order: `parameters` (those of a device), `refusal`, `answers`, `device`
//! (`SimDevice`), `visit` (a device at a port for a time), `sim_link`, `script`, `laws` (of devices,
//! and of runs of both links), `examples` (values worked out). `specs/Device.antt` says what a device
//! answers, `specs/SimLink.antt` and `specs/Script.antt` say what a link does.
#![tactic(auto)]

mod answers;
mod device;
pub mod examples;
mod laws;
mod parameters;
mod refusal;
mod script;
mod sim_link;
mod visit;

pub use device::{DS_UPLOAD_REQUEST, SimDevice};
pub use iol_link::{DeviceLink, Lost, PAGE_OCTETS};
pub use laws::{
    a_call_steps_one_device, a_device_lists_its_keys, a_script_answers_in_order,
    one_device_answers_on_a_connection,
};
pub use parameters::{DeviceFault, MOST_PARAMETERS, Parameters};
pub use refusal::{DEVICE_APPLICATION_ERROR, Refusal};
pub use script::ScriptLink;
pub use sim_link::SimLink;
pub use visit::Visit;
