//! Places and readers for a map of a disk, part by part. The map also shows what a recovery does not read.
//!
//! [`Layout`] has the places. Each reader is one that recovery uses, and none writes to the disk.

pub use iol_disk::BODY_SECTORS;
pub use iol_layout::{DISK_GATE, GEOMETRY, Layout, is_formatted, read_sector};
pub use iol_recovery::{
    SlotFront, greatest_of, read_header, read_open_headers, read_port, read_slot,
};
