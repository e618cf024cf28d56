//! Draws a run as a picture in SVG: what clients, ports and the disk do, from left to right, and what a power stop leaves.
//!
//! It takes a script, and writes a picture of its run to a file. The picture shows an explained run: its events, and the calls
//! of its disk between them. It is proved that the picture is drawn safely and that drawing ends; tests cover what it shows
//! (`tests/pictures`).
//!
//! Modules in reading order:
//! - `command` is the command over a file and writers, and `numbers` finds what is recovered by what a stop keeps.
//! - `mark` has the marks that a picture shows of a run, and `lines` the lines of the explained run for them. `waiting` has the
//!   commands that wait for the disk, `port_marks` the statuses and devices of a port, `marking` the marks of what happens, one
//!   after another, and `marks` those of a whole run.
//! - `unsynced` finds the sectors that no sync has settled, `recovered` says which commands are recovered, and `stop_text` has
//!   the lines of the stop.
//! - `labels` has the labels of ports, and `look` the look of a status. `scale` says where columns are, `note` where texts
//!   beside bars and signs are, and `lane` and `layout` where the lanes of ports and all lanes are.
//! - `sign` has the signs, `shape` draws those of a run, `lane_shape` draws a lane, `name` is the name of the script, and
//!   `escaped` writes a text as XML.
//! - `legend` says what each sign means, and `picture` puts all together.
//!
//! `specs/Drawn.antt` defines what is printed.
#![tactic(auto)]

mod command;
mod escaped;
mod labels;
mod lane;
mod lane_shape;
mod layout;
mod legend;
mod lines;
mod look;
mod mark;
mod marking;
mod marks;
mod name;
mod note;
mod numbers;
mod picture;
mod port_marks;
mod recovered;
mod scale;
mod shape;
mod sign;
mod stop_text;
mod unsynced;
mod waiting;

pub use command::draw_text;
