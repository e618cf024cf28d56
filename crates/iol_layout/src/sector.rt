//! The octets of one sector.
ghost use Rattle.std.specs.Prelude.{◌≡◌, ◌≤◌, ◌<◌, length};
ghost use Rattle.iol_layout.specs.Octets.{padded};

use iol_disk::SECTOR_OCTETS;

// Returns a sector of these octets, with zeros after them.
pub(crate) fn sector_of(octets: &[u8]) -> [u8; SECTOR_OCTETS]
    requires some { 0 < length octets.now }
    requires most { length octets.now ≤ SECTOR_OCTETS }
    ensures { result ≡ padded octets.now }
{
    let mut sector = [0; SECTOR_OCTETS];
    sector[..octets.len()].copy_from_slice(octets);
    sector
}
