//! A durable front: one atomic word, from which everyone reads how far commands are durable.
//!
//! Written batches ([`Written`](iol_journal::Written)) come in, and passes that have seen a prefix of their list go
//! out. [`Front::new`] makes a front, and [`Front::publisher`] its [`Publisher`] under a [`Name`]; only the publisher
//! appends a batch to the list, and it returns a [`Committed`] for it. A [`Pass`] knows how many commands it has seen;
//! it may look at the word at any time, in any thread, without waiting. When two passes meet, what one has seen is a
//! prefix of what the other has seen.
//!
//! The word is the start number plus the number of commands that are published. The list itself is ghost state: only
//! contracts see it.
//!
//! Modules in reading order: `name`, which front is meant; `seat`, the word and the five kinds of step on it; `front`,
//! `publisher`, `pass` and `committed`. `specs/Seats.antt` says what is known at a seat, and `specs/Rule.antt` has the
//! rule of the word.
#![tactic(auto)]

mod committed;
mod front;
mod name;
mod pass;
mod publisher;
mod seat;

pub use committed::Committed;
pub use front::Front;
pub use name::Name;
pub use pass::Pass;
pub use publisher::Publisher;
