//! The engine of a master: what is decided, without disk, links and threads.
//!
//! An [`Engine`] is the core of a master with the machines of all its ports. It has no disk and no links. A caller passes a port's link
//! to a step, or asks what the port wants, makes that call itself and passes the answer ([`Handed`]). The caller also takes the next
//! batch, writes it, and returns it once it is durable. `iol_run` drives an engine on one thread, and `iol_master` under a lock.
//!
//! At each moment the engine's reports are a run of each port's machine, and what it reported as acknowledged is durable. Its type's
//! invariant says so (`specs/Engine.antt`), and `iol_headline` derives the laws of a trace from it.
//!
//! Modules in reading order:
//! - `said`, `told_work` and `event` are what is reported, and `trail` is the list of it.
//! - `port_machines` are the machines of the ports, and `port_step` is a step of one.
//! - `handed` is what a link answered to a call that was made outside the engine.
//! - `engine` is all of them as one value, and `examples` check the definitions with values.
#![tactic(auto)]

mod engine;
mod event;
pub mod examples;
mod handed;
mod port_machines;
mod port_step;
mod said;
mod told_work;
mod trail;

pub use engine::Engine;
pub use event::{Event, Exchanged};
pub use handed::{Answered, Handed};
pub use port_step::PortTold;
pub use said::Said;
pub use told_work::ToldWork;
pub use trail::Trail;
