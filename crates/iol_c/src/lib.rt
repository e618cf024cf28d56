//! The master for C: a static library that makes no call of a disk or a device itself (include/iolmaster.h).
//!
//! C keeps a handle. Each call makes a request to the handle's session, writes the answer to structs of C, and returns its
//! code.
//!
//! Modules in reading order:
//! - `apart` is a box that is taken apart, `kept` a session in one, `hosting` makes such sessions and has them serve
//!   requests, and `handle` is what C keeps.
//! - `codes`, `structs`, `arguments`, `configs` and `shown` are what crosses to C and back.
//! - `format_exports`, `disk_exports`, `command_exports`, `port_exports` and `state_exports` are the calls.
#![tactic(auto)]

mod apart;
mod arguments;
mod codes;
mod command_exports;
mod configs;
mod disk_exports;
mod format_exports;
mod handle;
mod hosting;
mod kept;
mod port_exports;
mod shown;
mod state_exports;
mod structs;
