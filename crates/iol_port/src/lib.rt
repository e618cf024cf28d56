//! The machine of a port: what is done with its device, one step at a time.
//!
//! A [`PortMachine`] takes the answers of the link and the core, and returns the next [`Action`]: read the page, send a request,
//! or ask the core. It makes no call itself, so it runs the same on one thread and on many; [`CoreCall::make`] makes the call
//! that it asks of the core. The machine checks whether the device fits the port's configuration, [`decide`]s what to do with
//! its parameters, uploads or downloads them under a permit, and reports the status of the port ([`PortStatus`]).
//!
//! Modules in reading order:
//! - `fault`, `status` and `same_status` are the faults and statuses of a port, and `decision` is what to do with its device.
//! - `call` and `action` are the inputs and outputs of a machine, `stage` is its state, and `acting` is what it does next.
//! - `attending`, `paging`, `exchanging`, `uploading`, `downloading`, `losing` and `hearing` handle its inputs.
//! - `machine` puts them together, `laws` are for proofs of other crates, and `examples` check the definitions with values.
//!
//! `specs/Wanted.antt` says what a machine wants, and `specs/Heard.antt` and `specs/Answers.antt` say how it continues after each
//! input. What its history says about transfers, about how it settles and about permits is in `specs/Laws.antt` and
//! `specs/Permits.antt`.
#![tactic(auto)]

mod acting;
mod action;
mod attending;
mod call;
mod decision;
mod downloading;
pub mod examples;
mod exchanging;
mod fault;
mod hearing;
pub mod laws;
mod losing;
mod machine;
mod paging;
mod same_status;
mod stage;
mod status;
mod uploading;

pub use action::{Action, Input, UPLOAD_REQUEST, Want};
pub use call::{CoreCall, Reply};
pub use decision::{Decision, decide};
pub use fault::{PortFault, StoringFault};
pub use machine::PortMachine;
pub use status::PortStatus;
