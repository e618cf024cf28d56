//! Runs a master in threads: a worker for each port, one flusher, and clients in any threads.
//!
//! [`Master::start`] takes a journal that was just recovered, and a link for each port. From then on each port makes its steps in a
//! thread of its own, at its link's pace, and one more thread writes the accepted commands to the disk. A [`Client`] requests a change
//! and waits until it is durable; its [`Receipt`] holds the command's number. [`Master::shutdown`] ends all threads, and returns the
//! journal, or the disk if a call of it has failed.
//!
//! One lock guards the engine. Each time it is held, one call of the engine is made; calls of the disk and of links are made without
//! it. `iol_core`, `iol_port` and `iol_flush` make all decisions, by the same calls that a run on one thread makes (`iol_run`). Of all
//! crates under a master, this one alone has threads and waits. It also offers a run on one thread, with what holds of its whole
//! trace: [`run_schedule`].
//!
//! Modules in reading order: `caller`, the callers that wait and their answers; `guarded`, what the lock guards; `serving`, which
//! workers sleep; `watching` and `news`, clients that wait for a status or for news; `finding` and `pace`, the flusher's search for a
//! batch, and how it paces a checkpoint; `client`; `flushing` and `working`, the two kinds of thread; `ending` and `settling`, how a
//! master ends; `master`, which starts and ends its threads.
#![tactic(auto)]

mod caller;
mod client;
mod ending;
mod finding;
mod flushing;
mod guarded;
mod master;
mod news;
mod pace;
mod serving;
mod settling;
mod watching;
mod working;

pub use client::{CallFault, Client, ReadFault, Receipt};
pub use ending::{Ending, StartFault};
pub use iol_engine::Event;
pub use iol_headline::run_schedule;
pub use iol_run::{Ended, RunFault, Step, Task, Trace};
pub use master::Master;
pub use news::{Known, News};
pub use watching::WatchFault;
