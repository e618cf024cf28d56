//! Sectors that were handed in.

ghost use Rattle.std.specs.Prelude.{◌≡◌, true, false};
ghost use Rattle.iol_handed.specs.Held.{IsHeld};

use iol_disk::SECTOR_OCTETS;

/// A sector that was handed in, and its octets.
#[derive(Drop)]
pub struct HeldSector {
    pub(crate) sector: usize,
    pub(crate) octets: Box<[u8; SECTOR_OCTETS]>,
}

// Copies the octets of a sector if it was handed in, and returns whether it was.
pub(crate) fn copy_held(
    held: &[HeldSector],
    sector: usize,
    octets: &mut [u8; SECTOR_OCTETS],
) -> bool
    ensures held { result ≡ true → IsHeld held.now sector octets.new }
    ensures kept { result ≡ false → octets.new ≡ octets.old }
{
    for one in held {
        if one.sector == sector {
            *octets = *one.octets;
            return true;
        }
    }
    false
}
