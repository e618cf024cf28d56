//! Commands and ports as octets.
//!
//! A record is the octets on a disk for one command, or for one port of a state. The encoders write the one
//! spelling of a value; the decoders read a record from the front of some octets, return how many octets it
//! has, and leave the rest unread. `specs/Record.antt` defines records; `specs/Reading.antt` defines what a
//! decoder returns for any octets.
//!
//! The spelling of a record follows the [`Version`] of the layout that it is in.
//!
//! Modules in reading order: `version`, `fault`, `reader` (fields), `records` (sets, commands and ports),
//! `decode`, `reach` (where a record ends), `encode`, `laws`, `examples` (worked examples).
//!
//! Proofs of other crates use the laws of `proofs/RecordLaws.antt`.
#![tactic(auto)]

mod decode;
mod encode;
pub mod examples;
mod fault;
mod laws;
mod reach;
mod reader;
mod records;
mod version;

pub use decode::{decode_command, decode_port};
pub use encode::{
    LARGEST_COMMAND_RECORD, LARGEST_PORT_RECORD_OF_ONE, LARGEST_PORT_RECORD_OF_TWO,
    command_record_octets, encode_command, encode_port,
};
pub use fault::RecordFault;
pub use laws::no_record_begins_another;
pub use reach::port_goes_on;
pub use version::Version;
