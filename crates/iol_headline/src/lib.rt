//! The laws of the whole trace of a run.
//!
//! Other crates say what each step does. This crate says what follows for each event of a trace, in terms of the events before
//! it. It says which exchanges with a device come before an accepted set (`specs/WholeSets.antt`), the end of an upload
//! (`specs/DurableEnds.antt`), a written parameter (`specs/Downloads.antt`) and the begin of a transfer
//! (`specs/Decisions.antt`). It also says which work a port is given (`specs/Works.antt`), and what it settles by
//! (`specs/Settled.antt`). `specs/Laws.antt` has them together.
//!
//! Modules in reading order: `laws` derives the laws from what a run reports of its ports, `schedule` is a run with these laws,
//! `engine` is an engine with these laws, and `examples` is a worked example.
#![tactic(auto)]

pub mod engine;
pub mod examples;
pub mod laws;
mod schedule;

pub use schedule::run_schedule;
