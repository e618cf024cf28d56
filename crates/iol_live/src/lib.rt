//! `iolmaster live`: a master that runs in threads on an image file, with the simulated devices of a script.
//!
//! It takes the path of an image, and a script that says which devices are at the ports and what clients request. Each port
//! that has changes has a client in a thread of its own. Once all clients have their receipts, the master ends, the image is
//! recovered again, and what it holds is printed.
//!
//! Modules in reading order: `telling`, the reports of receipts as they come; `asking`, the clients; `running`, the master on
//! any disk; `command`, the command over writers; `examples`, worked examples of what is printed. `specs/Lived.antt` defines
//! what is printed, and `specs/Asked.antt` which changes each port has.
#![tactic(auto)]

mod asking;
mod command;
pub mod examples;
mod running;
mod telling;

pub use command::live_image;
pub use running::live_on_disk;
pub use telling::Telling;
