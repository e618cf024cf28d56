//! The number of ports and slots of a journal.

use crate::layout::{Layout, given_up};
use crate::sector::sector_of;
use iol_disk::{BODY_SECTORS, SECTOR_OCTETS};
use iol_record::Version;
use std::marker::Model;

// The most ports that a master can have.
pub(crate) const MOST_PORTS: u16 = 32;
/// The most slots that an area can have.
pub const MOST_SLOTS: u16 = 256;
/// The sectors of a port's record in version 1.
pub const PORT_SECTORS: usize = 9;
/// The sectors of a port's record in version 2.
pub const PORT_SECTORS_OF_TWO: usize = 17;

/// The sector that holds the geometry.
pub const GEOMETRY: usize = 0;
/// The sector of the disk's gate.
pub const DISK_GATE: usize = 1;
// The octets at the beginning of the geometry's sector: the letters IOLS, and 1, which is the version of the layout.
pub(crate) const GEOMETRY_MARK: [u8; 5] = [0x49, 0x4F, 0x4C, 0x53, 0x01];

/// The number of ports and slots of a journal, which determines where everything is on its disk
/// (docs/FORMATS.md, "Disk layout").
#[derive(Clone, Copy)]
pub struct Geometry {
    ports: u8,
    slots: u16,
}

impl Model for Geometry {
    ghost use Rattle.iol_layout.specs.Geometry.{Geometry as Shape, IsGeometry};

    ghost Value = { Shape };

    ghost view = { λ g. record { ports = g.ports; slots = g.slots } };

    ghost invariant = { λ g. IsGeometry (record { ports = g.ports; slots = g.slots }) };

    ghost inverse = { λ s. record { ports = s.ports; slots = s.slots } };
}

impl Geometry {
    ghost use Rattle.std.specs.Prelude.{◌≡◌, ◌<◌, ◌≤◌, Some, IfSome, IfNone};
    ghost use Rattle.iol_layout.specs.Geometry.{IsGeometry, geometry_octets};
    ghost use Rattle.iol_layout.specs.Layout.{layout_of, total};

    /// Returns the geometry of `ports` ports, 1 to 32, and `slots` slots in each area, 1 to 256. Returns `None` if one is out of range
    /// or no slot is left in version 2, whose larger records take 8 slots for each 17 ports, rounded up.
    pub fn new(ports: u16, slots: u16) -> Option<Geometry>
        ensures some { IfSome result (λ g. (g.ports ≡ ports) × (g.slots ≡ slots) × IsGeometry g) }
        ensures none { IfNone result (IsGeometry (record { ports = ports; slots = slots }) → ⊥) }
    {
        if ports == 0 || MOST_PORTS < ports || MOST_SLOTS < slots {
            return None;
        }
        let ports = ports as u8;
        if usize::from(slots) <= given_up(Version::Two, ports) {
            return None;
        }
        Some(Geometry { ports, slots })
    }

    /// Returns the octets of the geometry's sector.
    pub fn octets(self) -> [u8; SECTOR_OCTETS]
        ensures { result ≡ geometry_octets self }
    {
        let mut octets = [0; 10];
        octets[..5].copy_from_slice(&GEOMETRY_MARK);
        octets[5] = self.ports;
        octets[6..8].copy_from_slice(&self.slots.to_be_bytes());
        octets[8..].copy_from_slice(&(BODY_SECTORS as u16).to_be_bytes());
        sector_of(&octets)
    }

    /// The number of ports.
    pub fn ports(self) -> u8
        ensures value { result ≡ self.ports }
        ensures bound { result ≤ 32 }
    {
        self.ports
    }

    /// The number of slots of each area.
    pub fn slots(self) -> usize
        ensures { result ≡ self.slots }
    {
        self.slots as usize
    }

    /// The number of sectors that a disk needs.
    pub fn sectors(self) -> usize
        ensures within { IsGeometry self }
        ensures total { result ≡ total (layout_of self) }
        ensures bound { result < 10000 }
    {
        let _ports = self.ports;
        self.layout().sectors()
    }

    /// Returns the layout of its disk.
    pub fn layout(self) -> Layout
        ensures { result ≡ layout_of self }
    {
        Layout::of(Version::newest(), self)
    }
}
