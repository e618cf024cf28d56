//! Names, words and lines that several commands print: those of statuses and refusals, of a port and of a state.
//!
//! It takes values and returns texts, by Display or as a name. A name is one word, as in a trace; words say what is meant and what
//! to do.
//!
//! Modules in reading order:
//! - `names` and `status_text` have the names of refusals and statuses.
//! - `octets`, `entry_text` and `state_text` have the lines of octets, of parameters, and of ports.
//! - `refusals`, `status_words` with `failure_words`, and `error_types` have the words for what they mean.
//! - `row` finds the line of the table of decisions by which a port decides.
//! - `examples` has worked examples of texts.
#![tactic(auto)]

mod entry_text;
mod error_types;
pub mod examples;
mod failure_words;
mod names;
mod octets;
mod refusals;
mod row;
mod state_text;
mod status_text;
mod status_words;

pub use error_types::ErrorType;
pub use names::refusal_name;
pub use octets::Spaced;
pub use refusals::refusal_words;
pub use row::{Row, row_of};
pub use state_text::{PortText, Recovered};
pub use status_text::StatusText;
pub use status_words::StatusWords;
