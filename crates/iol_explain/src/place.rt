//! The contents of the sectors of a journal's disk (docs/FORMATS.md, "Disk layout").
ghost use Rattle.std.specs.Prelude.{◌≡◌, ◌<◌};
ghost use Rattle.iol_explain.specs.Places.{area_name, is_gate, place_at, place_in_area, place_in_slot};

use iol_journal::Area;
use iol_journal::survey::Layout;
use std::fmt;

// The number of sectors of a slot: its gate, and its body.
const SLOT_SECTORS: usize = 17;

/// What a sector holds. Ports and slots are counted from 1.
#[derive(Clone, Copy)]
pub enum SectorUse {
    Geometry,
    DiskGate,
    AreaGate(Area),
    Header(Area),
    Record(Area, usize),
    SlotGate(Area, usize),
    Body(Area, usize),
    /// It is after the slots of an area.
    Unused(Area),
    /// It is after the journal.
    Behind,
}

/// Returns what this sector of a disk with this layout holds.
pub fn place_of(layout: Layout, sector: usize) -> SectorUse
    ensures { result ≡ place_at layout sector }
{
    let (a, b) = (layout.gate(Area::A), layout.gate(Area::B));
    if sector == 0 {
        SectorUse::Geometry
    } else if sector == 1 {
        SectorUse::DiskGate
    } else if sector < b {
        place_in_area(layout, Area::A, sector - a)
    } else if sector < layout.sectors() {
        place_in_area(layout, Area::B, sector - b)
    } else {
        SectorUse::Behind
    }
}

// Returns what the sector at this offset in an area holds.
fn place_in_area(layout: Layout, area: Area, offset: usize) -> SectorUse
    ensures { result ≡ place_in_area layout area offset }
{
    let port_sectors = layout.port_sectors();
    let records = port_sectors * usize::from(layout.ports());
    let slots = SLOT_SECTORS * layout.slots();
    if offset == 0 {
        SectorUse::AreaGate(area)
    } else if offset == 1 {
        SectorUse::Header(area)
    } else if offset < 2 + records {
        SectorUse::Record(area, (offset - 2) / port_sectors + 1)
    } else if offset < 2 + records + slots {
        place_in_slot(area, offset - 2 - records)
    } else {
        SectorUse::Unused(area)
    }
}

// Returns what the sector at this offset after the records of an area holds.
fn place_in_slot(area: Area, offset: usize) -> SectorUse
    ensures { result ≡ place_in_slot area offset }
{
    let slot = offset / SLOT_SECTORS + 1;
    if offset % SLOT_SECTORS == 0 {
        SectorUse::SlotGate(area, slot)
    } else {
        SectorUse::Body(area, slot)
    }
}

// Returns whether a place holds a gate.
pub(crate) fn is_gate(place: SectorUse) -> bool
    ensures { result ≡ is_gate place }
{
    matches!(
        place,
        SectorUse::DiskGate | SectorUse::AreaGate(_) | SectorUse::SlotGate(_, _)
    )
}

impl fmt::Display for SectorUse {
    ghost use Rattle.std.specs.Prelude.{Some};
    ghost use Rattle.iol_explain.specs.Places.{place_text};

    ghost output = { λ place. Some (place_text place) };

    fn fmt<W: fmt::Write>(&self, f: &mut fmt::Formatter<W>) -> fmt::Result {
        match *self {
            SectorUse::Geometry => f.write_str("geometry"),
            SectorUse::DiskGate => f.write_str("gate of the disk"),
            SectorUse::AreaGate(area) => write!(f, "gate of area {}", area_name(area)),
            SectorUse::Header(area) => write!(f, "header of area {}", area_name(area)),
            SectorUse::Record(area, port) => {
                write!(f, "record of port {port} in area {}", area_name(area))
            }
            SectorUse::SlotGate(area, slot) => {
                write!(f, "gate of slot {slot} in area {}", area_name(area))
            }
            SectorUse::Body(area, slot) => write!(
                f,
                "body of slot {slot} in area {}",
                area_name(area)
            ),
            SectorUse::Unused(area) => write!(f, "behind the slots of area {}", area_name(area)),
            SectorUse::Behind => f.write_str("behind the journal"),
        }
    }
}

// Returns the letter of an area.
fn area_name(area: Area) -> &'static str
    ensures { result.now ≡ area_name area }
{
    match area {
        Area::A => "A",
        Area::B => "B",
    }
}
