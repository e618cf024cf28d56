//! Explains a run in words: the lines of its trace, each with what it says, and the disk calls between them.
//!
//! It takes a script, and prints the lines of its run. A line's words are a function of its event, and of what was reported of
//! its port before.
//!
//! Modules in reading order:
//! - `explain` is the command that explains a run, `explained` has its lines, and `telling` what they have reported.
//! - `event_lines` has the lines of an event. Its words are those of `page_words`, `request_words`, `answer_words` with
//!   `value_words` and `list_words`, and those of refusals and statuses of `iol_texts`.
//! - `known` says what was reported of a port, and so by which line of the table of decisions it decides.
//! - `told_disk` is a disk that reports its calls, `place` says what a sector holds, and `disk_lines` has the lines of disk
//!   calls.
//! - `object`, `octets` and `hexadecimal` are words that the others use.
//! - `examples` has worked examples of lines and words, and `laws` a law of words.
//!
//! `specs/Explained.antt` defines what is printed, `specs/EventLines.antt` the lines of an event, `specs/DiskLines.antt` those
//! of a disk call, and `specs/Played.antt` which run it is.
#![tactic(auto)]

mod answer_words;
mod disk_lines;
mod event_lines;
pub mod examples;
mod explain;
mod explained;
mod hexadecimal;
mod known;
pub mod laws;
mod list_words;
mod object;
mod octets;
mod page_words;
mod place;
mod request_words;
mod telling;
mod told_disk;
mod value_words;

pub use disk_lines::{calls_before, calls_between, calls_of_run};
pub use explain::{explain_text, explained_run};
pub use explained::Explained;
pub use place::{SectorUse, place_of};
pub use told_disk::ToldCall;
