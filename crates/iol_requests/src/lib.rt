//! Requests to a serving master on its standard input, one in each line (docs/FORMATS.md, "Requests").
//!
//! [`Line::read`] takes the octets of a line and returns a [`Line`]: nothing, a [`Request`], or a [`Mistake`] with its
//! column and its words. A request is spelled in words or in JSON. Both are a table with a verb at `do`, which one function
//! reads; the readers of scripts check the values at its keys. There is no disk, thread or output here.
//!
//! Modules in reading order:
//! - `verb` has the verbs, `request` the requests and how they are read from tables, and `id` the id that an answer repeats.
//! - `quote` follows quotation marks, and `words` reads a request in words as its document of TOML.
//! - `object` reads a request in JSON as a table, and `line` a whole line.
//! - `key` says which keys a verb has and which key of a table is wrong, `mistake` has the mistakes with their texts, and
//!   `judge` finds the mistake in a table. `word` cuts a word that is shown, and `nearest` finds the word that was meant.
//! - `part` divides a request in words, `place` finds the column of a mistake there, and `object_place` in JSON.
//! - `examples` has worked examples of lines.
//!
//! The request of a line is defined in `specs/Line.antt`, `specs/Words.antt`, `specs/Json.antt` and `specs/Request.antt`, and
//! which fault a table has in `specs/Key.antt`.
#![tactic(auto)]

pub mod examples;
mod id;
mod judge;
mod key;
mod line;
mod mistake;
mod nearest;
mod object;
mod object_place;
mod part;
mod place;
mod quote;
mod request;
mod verb;
mod word;
mod words;

pub use id::{Id, MOST_ID_OCTETS};
pub use key::Key;
pub use line::{LINE_OCTETS, Line, Spelling};
pub use mistake::{Fault, Mistake};
pub use request::Request;
pub use verb::Verb;
pub use word::{MOST_SHOWN, Word};
