//! The core of a master: the one value that clients, ports and the flusher share, behind a lock or on one thread.
//!
//! Changes that clients ask for come in, and sets that ports have uploaded; they wait in a queue, under numbers that
//! rise by one. Batches of the queue go out for the disk, and what is durable once a batch comes back as
//! [`Committed`](iol_front::Committed). [`Core::submit`] judges a change by the live state, which is the durable one
//! after all that waits. A port uploads under an [`UploadPermit`] and downloads under a [`DownloadPermit`]; one permit
//! of a port is out at a time, and each must be spent. [`Core::new`] takes all memory that it needs, so that no call but those
//! that share a set or copy one state can run out of memory.
//!
//! Modules in reading order: `stop`, `ticket` and `permit`, the types of the calls; `core_value`, the core itself;
//! then its calls: `submit`, `batches`, `port`, `upload`, `download`; and `examples`, values worked out. `specs/Core.antt` says
//! what a core holds. `specs/Submit.antt`, `specs/Batches.antt`, `specs/Uploads.antt` and `specs/Downloads.antt` say what each
//! call does, as a list of refusals.
//!
//! `trace_laws` and `trace_examples` are for proofs: no code calls them. They are about the trace of a run, the events that a
//! core, its ports and its clients report one after another, each with the clock of the disk (`specs/Events.antt`,
//! `specs/Statuses.antt`). Definitions over such a list say which commands were accepted, under which numbers, and how far they
//! were acknowledged (`specs/Words.antt`), which events are a port's own (`specs/Own.antt`), and what its link did
//! (`specs/Links.antt`). `specs/CrashPrefix.antt` says what a power stop leaves of the run.
#![tactic(auto)]

mod batches;
mod core_value;
mod download;
pub mod examples;
mod permit;
mod port;
mod stop;
mod submit;
mod ticket;
pub mod trace_examples;
pub mod trace_laws;
mod upload;

pub use batches::AckFault;
pub use core_value::{Core, QUEUE_COMMANDS};
pub use download::{DownloadBegun, DownloadFault};
pub use permit::{DownloadPermit, Grant, UploadGrant, UploadPermit};
pub use port::{View, Work};
pub use stop::StopCause;
pub use ticket::{SubmitFault, Ticket, TicketState};
pub use upload::{FinishFault, PermitFault};
