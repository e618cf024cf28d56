//! A master whose caller makes all calls of its disk and of its devices: the master makes none.
//!
//! An [`Opening`] asks for a sync and for one sector after another, until the journal on a flash is found. A [`HandedMaster`] then says
//! which call of the disk it wants next, and what each port wants of its device; the caller makes that call and reports its result. A
//! call that was handed out counts for nothing before it is reported. `iol_c` offers this to C.
//!
//! Modules in reading order:
//! - `flash` is what contracts alone see of the caller's flash, `handed_call` a call that is handed out, `held` a sector that was
//!   handed in, and `handed_disk` the disk that a journal calls.
//! - `opening` asks for sectors, `opened` looks for the journal among them, and `found` is what a master begins with.
//! - `handed_format` hands out the calls of a format.
//! - `reports`, `notes` and `port_answer` are what is reported and answered, and `master` with `disk_side` and `port_side` the master.
//! - `ask` has the requests to a `session`, which is an opening or a master, and `serving` its answers; `examples` are facts with
//!   values.
#![tactic(auto)]

mod ask;
mod disk_side;
pub mod examples;
mod flash;
mod found;
mod handed_call;
mod handed_disk;
mod handed_format;
mod held;
mod master;
mod notes;
mod opened;
mod opening;
mod port_answer;
mod port_side;
mod reports;
mod serving;
mod session;

pub use ask::{Ask, PortAsk, SessionAnswer, SetView, View, WhichSet};
pub use flash::{Flash, UnknownFlash};
pub use found::FoundJournal;
pub use handed_call::HandedCall;
pub use handed_disk::HandedDisk;
pub use handed_format::HandedFormat;
pub use master::HandedMaster;
pub use notes::{Attention, NO_NOTES, PortNotes};
pub use opened::Opened;
pub use opening::{HandFault, Opening, OpeningWant};
pub use port_answer::PortAnswer;
pub use reports::{DiskAnswer, Reports};
pub use serving::is_end;
pub use session::Session;
