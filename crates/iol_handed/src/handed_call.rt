//! The calls that a disk hands out.

use iol_disk::SECTOR_OCTETS;

/// A call of a disk that changes it.
#[derive(Clone, Copy)]
pub enum HandedCall {
    /// These octets are to be written to the sector with this number.
    Write {
        sector: usize,
        octets: [u8; SECTOR_OCTETS],
    },
    /// All that was written is to be made durable.
    Sync,
}
