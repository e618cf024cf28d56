//! Finds the journal on a disk, and the state after its commands.
//!
//! [`find`] makes one sync and reads in the order of the layout: the geometry, the area in use, the records of its ports, and the
//! batches in its slots. It returns where the journal continues ([`Found`]), or the first cause of failure ([`RecoverCause`]). The
//! readers of single parts ([`read_open_headers`], [`greatest_of`], [`read_header`], [`read_port`], [`read_slot`]) serve a map of
//! a disk.
#![tactic(auto)]

mod cause;
mod finding;
mod opening;
mod replay;
mod snapshot;
mod survey;

pub use cause::RecoverCause;
pub use finding::{Found, find};
pub use opening::{greatest_of, read_header, read_open_headers};
pub use snapshot::read_port;
pub use survey::{SlotFront, read_slot};
