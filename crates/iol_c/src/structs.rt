//! The structs of include/iolmaster.h.

use iol_disk::SECTOR_OCTETS;
use iol_link::ISDU_OCTETS;
use iol_types::{MOST_ENTRY_OCTETS, MOST_LABEL_OCTETS};

/// A call of the disk (`struct iolm_disk_call`): a sector, and its octets if it is to be written.
#[repr(C)]
#[derive(Drop)]
pub struct DiskCall {
    pub sector: u64,
    pub octets: [u8; SECTOR_OCTETS],
}

/// A request to a device (`struct iolm_request`): `count` octets, followed by zeros.
#[repr(C)]
#[derive(Drop)]
pub struct Request {
    pub count: u32,
    pub octets: [u8; ISDU_OCTETS],
}

/// A configuration of a port (`struct iolm_config`).
#[repr(C)]
#[derive(Drop)]
pub struct Config {
    pub mode: u8,
    pub validation: u8,
    pub vendor: u16,
    pub device: u32,
    pub label_count: u8,
    pub label: [u8; MOST_LABEL_OCTETS],
}

/// An entry of a parameter set (`struct iolm_entry`): `count` octets, followed by zeros.
#[repr(C)]
#[derive(Drop)]
pub struct Entry {
    pub index: u16,
    pub subindex: u8,
    pub count: u8,
    pub octets: [u8; MOST_ENTRY_OCTETS],
}

/// The size of a stored set, and its checksum (`struct iolm_set`); all is 0 if there is no set.
#[repr(C)]
#[derive(Clone, Copy)]
pub struct SetSize {
    pub is_there: bool,
    pub checksum: u32,
    pub entries: u64,
    pub octets: u64,
}

/// The durable state of a port (`struct iolm_port_view`).
#[repr(C)]
#[derive(Drop)]
pub struct PortView {
    pub config: Config,
    pub revision: u64,
    pub present: SetSize,
    pub previous: SetSize,
}

/// The status of a port (`struct iolm_status`).
#[repr(C)]
#[derive(Drop)]
pub struct Status {
    pub status: u8,
    pub detail: u8,
    pub error: u8,
    pub additional: u8,
}
