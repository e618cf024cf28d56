//! Scripts: what an operator writes in TOML for a run, read as numbers, a failing disk call, devices, steps and a stop.
//!
//! [`Script::read`] takes the octets of a text and returns a [`Script`], or why there is none. For a master that runs in
//! threads, [`LiveScript::read`] returns a [`LiveScript`]. A [`Script`] holds the numbers of ports and slots as the text
//! has them. After the text, the caller checks whether they are a geometry, and with [`Script::fits_ports`] whether the
//! devices are at those ports.
//!
//! Modules in reading order:
//! - `table` looks up the keys of a table, and `number` reads the numbers there.
//! - `fail`, `parameter`, `device`, `step` and `stop` read one value, `parameters`, `devices` and `steps` all of them.
//! - `text`, `script` and `live_script` read the whole text, and `change` a single table.
//! - `examples` has worked examples.
//!
//! What a text says is defined in `specs/Script.antt` and `specs/LiveScript.antt`.
#![tactic(auto)]

mod change;
mod device;
mod devices;
pub mod examples;
mod fail;
mod live_script;
mod number;
mod parameter;
mod parameters;
mod script;
mod step;
mod steps;
mod stop;
mod table;
mod text;

pub use change::change_in;
pub use device::{Device, USUAL_REVISION};
pub use fail::{FailingCall, LAST_FAILING_CALL};
pub use live_script::LiveScript;
pub use number::{MOST_TIMES, device_in, port_in, vendor_in};
pub use parameter::Parameter;
pub use parameters::MOST_PARAMETERS;
pub use script::{SCRIPT_OCTETS, Script, ScriptFault};
pub use step::{Step, label_in, mode_in, validation_in};
pub use table::{has_only_keys, text_at, value_at};
