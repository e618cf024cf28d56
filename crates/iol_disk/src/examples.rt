//! Facts stated with literal values; no code calls them.

ghost use Rattle.std.specs.Prelude.{◌≡◌, ◌∷◌, [], ℕ, List, length, take};
ghost use Rattle.iol_disk.specs.Cells.{blank_cell};
ghost use Rattle.iol_disk.specs.Stops.{IsPattern};

use crate::disk::SECTOR_OCTETS;

/// A sector has 512 octets.
pub fn a_sector()
    ensures constant { SECTOR_OCTETS ≡ 512 }
    ensures blank { length blank_cell.durable ≡ 512 }
{}

/// The pattern that a stop may leave begins with the octets A5 5A A5, and has 512 octets.
pub fn a_pattern()
    ensures begins { (octets : List ℕ) → IsPattern octets → take 3 octets ≡ 0xA5 ∷ 0x5A ∷ 0xA5 ∷ [] }
    ensures whole { (octets : List ℕ) → IsPattern octets → length octets ≡ 512 }
{}
