//! A store of commands on any disk, for one writer: how a journal is used, from format to recovery.
//!
//! [`create`] formats a disk, [`open`] finds what a disk holds, and [`write`] makes a command durable: a checkpoint if
//! no slot is free, then a batch of that one command. The journal is passed by value and returned, so that no caller
//! can continue with a journal whose disk has failed.
//!
//! The contracts together say: whenever the power stops, the disk holds the commands of each `write` that returned Ok,
//! and in addition at most the command of a `write` that had begun. Only the public contracts of the journal are used
//! here.
#![tactic(auto)]

mod store;

pub use store::{CreateFault, WriteFault, create, open, write};
