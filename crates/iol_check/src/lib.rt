//! `iolmaster check`: says what is wrong in a script, and where, or that the script can be run.
//!
//! Takes the octets of a script. Returns a line that it is fine, with notes, or a line for each mistake, with its place. The call of
//! `iol_commands` that a run makes decides whether a script is fine.
//!
//! This crate finds which keys a script has, and where keys and values are. The same call decides whether a value is allowed at its
//! key, by a script that is right but for that value. Tests cover which mistakes are listed (`tests/check.cases`,
//! `tests/check_agrees`).
//!
//! Modules in reading order:
//! - `command` is the command over writers, and `answer` has what it prints.
//! - `fine` has the line of a script that can be run, and `listing` the lines of one that cannot.
//! - `examples` has examples of the lines of scripts that can be run.
//! - `keys` has the keys of scripts, and `rules` says which of them a table may have, and what is allowed at each.
//! - `place` counts lines and columns, `part` cuts parts out of a text, and `value` finds where a value ends.
//! - `entry` has the entries that are found in a text. `pair` finds a key and its value, `tables` the tables of an array, and
//!   `reading` all entries.
//! - `trial` decides whether a value is right, by a script that is right but for it.
//! - `judge` lists the mistakes of keys, `parameters` those of the keys and values of a device, `nearest` finds the key that
//!   was meant, `line` writes the parts that all lines have, and `mistakes` lists the mistakes of a text.
//! - `notes` lists the notes, which are not mistakes.
//!
//! `specs/Fine.antt` defines what is printed for a script that can be run.
#![tactic(auto)]

mod answer;
mod command;
mod entry;
pub mod examples;
mod fine;
mod judge;
mod keys;
mod line;
mod listing;
mod mistakes;
mod nearest;
mod notes;
mod pair;
mod parameters;
mod part;
mod place;
mod reading;
mod rules;
mod tables;
mod trial;
mod value;

pub use command::check_text;
