//! The flusher: it brings batches to the disk, one disk call at a time, and publishes them once they are durable.
//!
//! It takes a journal, its front's publisher, and batches of the queue; it returns each batch as a
//! [`Committed`](iol_front::Committed), once every image of the disk has it. [`Flusher::needs`] names the call that comes next:
//! [`Flusher::give`] accepts a batch, [`Flusher::disk_step`] makes the journal's next disk call, and [`Flusher::publish`] appends
//! the batch to the published list. A disk call belongs to a batch, or to the checkpoint that comes before it if too few slots are
//! free. Once half of the slots are used a checkpoint is due: it is made call by call while no batch waits, and a new batch may go
//! before its next call. After a disk call fails, the flusher does nothing more. [`Flusher::end`] returns what it holds.
//!
//! Modules in reading order: `fault`, `need` and `stage`, the types of the calls; `disk_call`, one disk call of the journal; and
//! `flusher`, the flusher itself; then `laws`, for proofs of other crates, and `examples`. `specs/Steps.antt` says what a step
//! does, and `specs/Flushing.antt` what a run of a journal keeps meanwhile.
#![tactic(auto)]

mod disk_call;
pub mod examples;
mod fault;
mod flusher;
pub mod laws;
mod need;
mod stage;

pub use fault::{FlushFault, GiveFault};
pub use flusher::{FlushEnd, Flusher};
pub use need::Need;
pub use stage::FlushStage;
