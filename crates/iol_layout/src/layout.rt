//! Where everything is on a disk.

ghost use Rattle.std.specs.Prelude.{◌≡◌, ◌≤◌};
ghost use Rattle.iol_layout.specs.Geometry.{given_up};

use crate::area::Area;
use crate::geometry::{
    GEOMETRY_MARK, Geometry, MOST_PORTS, MOST_SLOTS, PORT_SECTORS, PORT_SECTORS_OF_TWO,
};
use crate::numbers::array_at;
use iol_disk::{BODY_SECTORS, SECTOR_OCTETS, Slot};
use iol_record::Version;
use std::marker::Model;

/// Where everything is on the disk of a geometry (docs/FORMATS.md, "Disk layout").
///
/// All places are computed here, so that another layout of an area's sectors is another value of this type.
#[derive(Clone, Copy)]
pub struct Layout {
    version: Version,
    ports: u8,
    // The number of slots that an area keeps in this version.
    slots: u16,
}

impl Model for Layout {
    ghost use Rattle.iol_layout.specs.Layout.{Layout as Places, placed};
    ghost use Rattle.iol_layout.specs.Geometry.{IsInRange, given_up};
    ghost use Rattle.std.specs.Prelude.{◌≤◌, ◌+◌};

    ghost Value = { Places };

    ghost view = { λ l. placed l.version l.ports l.slots };

    ghost invariant = { λ l. IsInRange (record { ports = l.ports; slots = l.slots + given_up l.version l.ports }) × (1 ≤ l.slots) };

    ghost inverse = { λ l. record { version = l.version; ports = l.ports; slots = l.slots } };
}

// The number of slots that an area gives up for the larger records of `ports` ports.
pub(crate) fn given_up(version: Version, ports: u8) -> usize
    requires { ports ≤ 32 }
    ensures count { result ≡ given_up version ports }
    ensures most { result ≤ 16 }
{
    match version {
        Version::One => 0,
        Version::Two => {
            ((PORT_SECTORS_OF_TWO - PORT_SECTORS) * usize::from(ports)).div_ceil(1 + BODY_SECTORS)
        }
    }
}

impl Layout {
    ghost use Rattle.std.specs.Prelude.{◌≡◌, ◌<◌, ◌≤◌, ◌+◌, ◌*◌, IfSome, IfNone};
    ghost use Rattle.std.specs.Option.{option_map};
    ghost use Rattle.iol_record.specs.declared.version.Version.TheVariants.{One};
    ghost use Rattle.iol_layout.specs.Geometry.{IsGeometry, geometry_of};
    ghost use Rattle.iol_record.specs.Record.{largest_port_record};
    ghost use Rattle.iol_disk.specs.declared.disk.TheConstants.{SECTOR_OCTETS};
    ghost use Rattle.iol_layout.specs.Layout.{laid_out, geometry_for, renewed, is_renewed, total, area_sectors, gate_at, header_at};
    ghost use Rattle.iol_layout.specs.Layout.{port_at};
    ghost use Rattle.iol_layout.specs.Layout.{slot_at, body_at};

    /// Returns the layout of a geometry in a version.
    pub fn of(version: Version, geometry: Geometry) -> Layout
        ensures { result ≡ laid_out version geometry }
    {
        let ports = geometry.ports();
        Layout {
            version,
            ports,
            slots: (geometry.slots() - given_up(version, ports)) as u16,
        }
    }

    /// Reads the numbers in sector 0 and returns their layout in version 1, or `None` if it has none. A disk of any version is
    /// checked against this layout first.
    #[tactic(auto, unfolding(crate::specs::Geometry::geometry_of))]
    pub fn read(octets: &[u8; SECTOR_OCTETS]) -> Option<Layout>
        ensures { result ≡ option_map (laid_out One) (geometry_of octets.now) }
    {
        let ports = octets[5];
        let slots = u16::from_be_bytes(array_at(octets, 6));
        if octets.starts_with(&GEOMETRY_MARK)
            && u16::from_be_bytes(array_at(octets, 8)) as usize == BODY_SECTORS
            && 1 <= ports
            && u16::from(ports) <= MOST_PORTS
            && 1 <= slots
            && slots <= MOST_SLOTS
        {
            Some(Layout {
                version: Version::One,
                ports,
                slots,
            })
        } else {
            None
        }
    }

    /// Returns the geometry that has this layout, or `None` if an area would keep no slot in version 2.
    pub fn geometry(self) -> Option<Geometry>
        ensures some { IfSome result (λ geometry. geometry ≡ geometry_for self) }
        ensures none { IfNone result (IsGeometry (geometry_for self) → ⊥) }
    {
        let slots = usize::from(self.slots) + given_up(self.version, self.ports);
        Geometry::new(u16::from(self.ports), slots as u16)
    }

    /// Returns the layout of the same geometry in the version that is written.
    pub fn renewed(self) -> Layout
        requires { IsGeometry (geometry_for self) }
        ensures { result ≡ renewed self }
    {
        match self.version {
            Version::One => Layout {
                version: Version::Two,
                ports: self.ports,
                slots: self.slots - given_up(Version::Two, self.ports) as u16,
            },
            Version::Two => self,
        }
    }

    /// Returns whether the layout is in the version that is written.
    pub fn is_renewed(self) -> bool
        ensures { result ≡ is_renewed self }
    {
        self.version.is_newest()
    }

    /// The version in which its records are encoded.
    pub fn version(self) -> Version
        ensures { result ≡ self.version }
    {
        self.version
    }

    /// The number of ports, 1 to 32.
    pub fn ports(self) -> u8
        ensures value { result ≡ self.ports }
        ensures bound { result ≤ 32 }
    {
        self.ports
    }

    /// The number of slots of each area, 1 to 256.
    pub fn slots(self) -> usize
        ensures value { result ≡ self.slots }
        ensures some { 1 ≤ result }
        ensures bound { result ≤ 256 }
    {
        usize::from(self.slots)
    }

    /// The number of sectors of a port's record.
    pub fn port_sectors(self) -> usize
        ensures value { result ≡ self.port_sectors }
        ensures some { 1 ≤ result }
        ensures bound { result ≤ 17 }
        // The largest record fits in these sectors.
        ensures room { largest_port_record self.version ≤ SECTOR_OCTETS * result }
    {
        match self.version {
            Version::One => PORT_SECTORS,
            Version::Two => PORT_SECTORS_OF_TWO,
        }
    }

    /// The number of sectors that a disk needs.
    pub fn sectors(self) -> usize
        ensures total { result ≡ total self }
        ensures bound { result < 10000 }
    {
        2 + 2 * self.area_sectors()
    }

    // The number of sectors of an area, which is the same in each version.
    #[tactic(auto, using(crate::proofs::Layouts::area_size))]
    fn area_sectors(self) -> usize
        ensures sectors { result ≡ area_sectors self }
        ensures bound { result < 5000 }
    {
        let slots = usize::from(self.slots) + given_up(self.version, self.ports);
        2 + PORT_SECTORS * usize::from(self.ports) + (1 + BODY_SECTORS) * slots
    }

    /// The sector of an area's gate, which is the area's first sector.
    pub fn gate(self, area: Area) -> usize
        ensures at { result ≡ gate_at self area }
        ensures bound { result < 10000 }
    {
        match area {
            Area::A => 2,
            Area::B => 2 + self.area_sectors(),
        }
    }

    /// The sector of an area's header.
    pub fn header(self, area: Area) -> usize
        ensures at { result ≡ header_at self area }
        ensures bound { result < 10000 }
    {
        self.gate(area) + 1
    }

    /// The first sector of a port's record; ports are counted from 0.
    pub fn port(self, area: Area, port: usize) -> usize
        requires { port < self.ports }
        ensures some_sector { 1 ≤ self.port_sectors }
        ensures at { result ≡ port_at self area port }
        ensures bound { result < 10000 }
    {
        self.gate(area) + 2 + self.port_sectors() * port
    }

    /// Returns `span` slots of an area, from `slot` on.
    pub fn slot(self, area: Area, slot: usize, span: usize) -> Slot
        requires { slot + span ≤ self.slots }
        ensures gate { result.gate ≡ slot_at self area slot }
        ensures body { result.body ≡ body_at self area slot 0 }
        ensures span { result.span ≡ span }
        ensures sectors { result.sectors ≡ BODY_SECTORS * span }
    {
        let gate = self.gate(area)
            + 2
            + self.port_sectors() * usize::from(self.ports)
            + (1 + BODY_SECTORS) * slot;
        Slot {
            gate,
            body: gate + 1,
            span,
            sectors: BODY_SECTORS * span,
        }
    }
}
