//! A master's state as JSON (RFC 8259), for scripts of plant staff.
//!
//! Takes a state and the number of commands that led to it, and returns one object, or its text, with the members of
//! docs/FORMATS.md, "JSON". Read as JSON, the text is the state (`specs/Json.antt`). One port alone has an object too.
//!
//! Modules in reading order: `members` adds a member to an object, `entries` has the parameters of a set, `ports` the ports of a
//! state, `state` the state and its text, and `examples` has examples of states.
#![tactic(auto)]

mod entries;
pub mod examples;
pub mod members;
mod ports;
mod state;

pub use state::{json_of, json_of_port, json_text};
