//! Shows more of an image file than the lines of its state: the state as JSON, and a map of the sectors.
//!
//! Takes an image file or a disk, and returns the state on it as a JSON object, or a map of its sectors, as text or as a
//! picture. Nothing is written to the disk.
//!
//! Modules in reading order:
//! - `image` is the state on an image file as JSON.
//! - `map_commands` has the commands that map an image file, and `map_disk` the map of a disk: `map_outcome` recovers it, and
//!   `map_survey` reads it part by part, with `map_layouts`, `map_areas`, `map_front`, `map_ports` and `map_slots`, into the lines
//!   of `map_lines`. `map_text` writes them as text, and `map_drawing`, `map_legend` and `map_cells` draw them as a picture.
//! - `map_examples` has examples of lines and words.
//!
//! `specs/Json.antt` defines what the JSON says, and `specs/Map.antt` what a map says.
#![tactic(auto)]

mod image;
mod map_areas;
mod map_cells;
mod map_commands;
mod map_disk;
mod map_drawing;
pub mod map_examples;
mod map_front;
mod map_layouts;
mod map_legend;
mod map_lines;
mod map_outcome;
mod map_ports;
mod map_slots;
mod map_survey;
mod map_text;

pub use image::{json_image, json_of_disk};
pub use map_commands::{draw_map, map_image, map_of_disk};
