//! A journal of commands on a sector disk, which a power stop at any moment leaves readable.
//!
//! A disk and commands come in. A master's state after them goes out, with the promise that a batch is durable once its last
//! step is made. [`format`] writes an empty journal of a [`Geometry`], and [`erase`] leaves a disk unformatted; [`format_one`]
//! writes the layout of earlier releases, for tests. [`Journal::recover`] finds the journal on a disk, and the state.
//! [`Journal::begin`] takes a [`Batch`], which [`Writing::step`] writes one disk call at a time. If too few slots are free,
//! [`Journal::checkpoint`] and [`Checkpointing::step`] write the state into the other area, which frees all slots. A
//! checkpoint may be paused ([`Checkpointing::pause`]); the batches that are then written are carried into the other area
//! before it is put in use. Each of these owns its disk, and returns it.
//!
//! `iol_layout` has the places, the octets and their meaning, and `iol_recovery` reads. Modules here in reading order:
//! - `journal`, `recovery`, `writing`, `checkpoint`, `checkpointing`: the calls of a journal;
//! - `formatting`, `erasing`, `older`, `format_examples`: an empty journal on a disk, and none;
//! - `batch`, `refusal`, `plan`, `phase`, `calls`, `batch_examples`: which batch follows a journal, and the disk calls that write
//!   it, one by one; `history`, what a journal has done, as contracts see it, and `parts`, what it has besides its disk;
//! - `begun`, `stage`, `stage_calls`, `checkpoint_examples`: what a begun checkpoint writes into the other area, its next disk
//!   call, and the batch that is owed to that area;
//! - `survey`, places and readers for a map of a disk; `laws` and `runs`, for proofs of other crates.
//!
//! `specs/Runs.antt` says what a run of batches and checkpoints keeps. [`Area`], [`CheckpointStage`], [`Head`], [`Header`],
//! [`History`], [`Idle`], [`InUse`] and [`Phase`] are what contracts show of a journal.
#![tactic(auto)]

mod batch;
pub mod batch_examples;
mod begun;
mod calls;
mod checkpoint;
pub mod checkpoint_examples;
mod checkpointing;
mod erasing;
pub mod format_examples;
mod formatting;
mod history;
mod journal;
pub mod laws;
mod older;
mod parts;
mod phase;
mod plan;
mod recovery;
mod refusal;
pub mod runs;
mod stage;
mod stage_calls;
pub mod survey;
mod writing;

pub use batch::{Batch, apply_all, span_within};
pub use begun::{Begun, OwedBatch, make_room, owing};
pub use calls::make;
pub use checkpointing::{CheckpointProgress, Checkpointing};
pub use erasing::erase;
pub use formatting::{FormatFault, format};
pub use history::History;
pub use iol_layout::{Area, Geometry, Head, Header, Idle, InUse, LAST_NUMBER, MOST_RECORD_OCTETS};
pub use iol_recovery::RecoverCause;
pub use journal::{BeginFault, CheckpointFault, Journal};
pub use older::format_one;
pub use parts::Parts;
pub use phase::Phase;
pub use plan::Plan;
pub use recovery::RecoverFault;
pub use refusal::BeginCause;
pub use stage::CheckpointStage;
pub use stage_calls::make_stage;
pub use writing::{Progress, Writing, Written};
