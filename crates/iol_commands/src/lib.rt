//! Commands of `iolmaster`, the program of an IO-Link master's data storage, over writers: they run a script, and format
//! or show an image file. The other commands have crates of their own: `iol_check`, `iol_explain`, `iol_draw`, `iol_view`,
//! `iol_live` and `iol_serve`.
//!
//! A script in TOML gives a geometry, simulated devices and steps. Its run formats a disk in memory, makes the steps of
//! clients, ports and the flusher, stops the power, and recovers what the disk holds. Each event and the recovered state
//! are printed on standard output. If a command fails, one line on standard error says why.
//!
//! Modules in reading order:
//! - `geometry` checks the numbers of a script.
//! - `disk` has the disk of a run, `recovery` recovers the journal on it, `devices` has the devices at the ports, `steps` the
//!   steps of a script, and `run` runs it.
//! - `image` formats and shows the disk of an image file.
//! - `trace_text` and `event_text` have the lines of a trace, and `fault` why a command fails.
//! - `commands` and `image_commands` are the commands over writers, and `picture` writes the file of a picture.
//! - `examples` has worked examples of lines of a trace and of faults.
//!
//! `specs/Runs.antt` defines which texts can be run, `specs/Steps.antt` the tasks that the steps of a script are, and
//! `specs/Lines.antt` the lines of a trace. The words of a trace and the lines of a recovered state are defined in
//! `specs/Texts.antt` and `specs/Recovered.antt` of `iol_texts`.
#![tactic(auto)]

mod commands;
mod devices;
mod disk;
mod event_text;
pub mod examples;
mod fault;
mod geometry;
mod image;
mod image_commands;
mod picture;
mod recovery;
mod run;
mod steps;
mod trace_text;

pub use commands::{Playable, print, read_playable, report, run_text};
pub use devices::links_of;
pub use fault::Fault;
pub use geometry::geometry_of;
pub use image::{Shown, format_disk, opened, show_disk, text_of_disk};
pub use image_commands::{format_image, show_image};
pub use picture::write_picture;
pub use recovery::recover;
pub use run::{empty_disk, make_run, stop};
pub use trace_text::{is_said_loss, lost_port};
