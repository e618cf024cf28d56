//! What a power stop leaves of a sector that was written since the last sync.

ghost use Rattle.iol_disk.specs.Stops.{IsPattern};

use crate::disk::SECTOR_OCTETS;

/// What a power stop leaves of each sector that was written since the last sync.
#[derive(Clone, Copy, Debug, PartialEq, Eq)]
pub enum Pick {
    /// Its durable octets.
    Old,
    /// The newest octets written to it.
    New,
    /// Zeros.
    Zero,
    /// A5 5A, repeated.
    Pattern,
}

// Returns a sector of A5 5A, repeated.
pub(crate) fn pattern() -> [u8; SECTOR_OCTETS]
    ensures { IsPattern result }
{
    let mut octets = [0; SECTOR_OCTETS];
    for i in 0..SECTOR_OCTETS {
        octets[i] = if i % 2 == 0 { 0xA5 } else { 0x5A };
    }
    octets
}
