//! The header of an area.

ghost use Rattle.std.specs.Prelude.{◌≡◌, ◌≤◌};
ghost use Rattle.iol_layout.specs.Header.{epochs_ahead, name_of, version_named};

use crate::numbers::array_at;
use crate::sector::sector_of;
use iol_disk::SECTOR_OCTETS;
use iol_record::Version;

/// The greatest number that a command can have.
pub const LAST_NUMBER: u64 = 1 << 62;

// The octets that name the versions of a layout, as a header has them.
pub(crate) const NAME_OF_ONE: u8 = 0;

pub(crate) const NAME_OF_TWO: u8 = 2;

/// The header of an area (docs/FORMATS.md, "Headers").
#[derive(Clone, Copy)]
pub struct Header {
    /// The epoch of the area; 0 if it was never in use. The open area with the greater epoch is in use.
    pub epoch: u64,
    /// The number of commands that the area's port records already include.
    pub base: u64,
    /// The version of the area's layout; `None` if its octet names no version.
    pub version: Option<Version>,
}

// Returns the octet that names a version.
fn name_of(version: Version) -> u8
    ensures { result ≡ name_of version }
{
    match version {
        Version::One => NAME_OF_ONE,
        Version::Two => NAME_OF_TWO,
    }
}

// Returns the version that an octet names.
fn version_named(octet: u8) -> Option<Version>
    ensures { result ≡ version_named octet }
{
    match octet {
        NAME_OF_ONE => Some(Version::One),
        NAME_OF_TWO => Some(Version::Two),
        _ => None,
    }
}

// Returns how far an epoch may be ahead of the number of commands before it.
fn epochs_ahead(version: Version) -> u64
    ensures count { result ≡ epochs_ahead version }
    ensures few { result ≤ 2 }
{
    match version {
        Version::One => 1,
        Version::Two => 2,
    }
}

impl Header {
    ghost use Rattle.iol_layout.specs.Header.{header_of, header_octets, is_sound, version_in};

    /// Reads the header from the octets of its sector.
    #[tactic(auto, unfolding(crate::specs::Header::header_of))]
    pub fn read(octets: &[u8; SECTOR_OCTETS]) -> Header
        ensures { result ≡ header_of octets.now }
    {
        Header {
            epoch: u64::from_be_bytes(array_at(octets, 0)),
            base: u64::from_be_bytes(array_at(octets, 8)),
            version: version_named(u8::from_be_bytes(array_at(octets, 16))),
        }
    }

    /// Returns the octets of a header's sector in a version.
    pub fn octets(version: Version, epoch: u64, base: u64) -> [u8; SECTOR_OCTETS]
        ensures { result ≡ header_octets version epoch base }
    {
        let mut octets = [0; 17];
        octets[..8].copy_from_slice(&epoch.to_be_bytes());
        octets[8..16].copy_from_slice(&base.to_be_bytes());
        octets[16] = name_of(version);
        sector_of(&octets)
    }

    /// Returns whether an area with this header may be in use.
    pub fn is_sound(self) -> bool
        ensures { result ≡ is_sound self }
    {
        match self.version {
            Some(version) => {
                1 <= self.epoch
                    && self.base <= LAST_NUMBER
                    && self.epoch <= self.base + epochs_ahead(version)
            }
            None => false,
        }
    }

    /// Returns the version of the area's layout, or the newest one if the header names none.
    pub fn version_in_use(self) -> Version
        ensures { result ≡ version_in self }
    {
        match self.version {
            Some(version) => version,
            None => Version::newest(),
        }
    }
}
