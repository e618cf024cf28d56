//! The areas of a disk, in a map.
ghost use Rattle.std.specs.Prelude.{◌≤◌};
ghost use Rattle.iol_disk.specs.Disk.{Same};
ghost use Rattle.iol_journal.specs.Layout.{total};

use crate::map_front::{area_line, read_front};
use crate::map_layouts::Layouts;
use crate::map_lines::{Cells, Line, Lines, Part, Span};
use crate::map_ports::add_ports;
use crate::map_slots::add_slots;
use iol_disk::SectorDisk;
use iol_journal::survey::{Layout, greatest_of, read_open_headers};
use iol_journal::{Area, Header, InUse, RecoverCause};
use std::alloc::{AllocError, Global};

// Adds the lines of both areas.
pub(crate) fn add_areas<D: SectorDisk>(
    alloc: Global,
    disk: &mut D,
    layouts: &Layouts,
    lines: &mut Lines,
) -> Result<(), RecoverCause>
    requires { total layouts.now.older ≤ (D.disk disk.old).sectors }
    ensures { Same (D.disk disk.old) (D.disk disk.new) }
{
    // Gates and headers are at the same places in each version.
    let (a, b) = read_open_headers(disk, layouts.older)?;
    let chosen = greatest_of(layouts.older, a, b).ok();
    add_area(alloc, disk, layouts, Area::A, a, chosen, lines)?;
    add_area(alloc, disk, layouts, Area::B, b, chosen, lines)
}

// Adds the lines of an area. `opened` is its header if its gate is open, and `chosen` the area that is in use, if one is.
fn add_area<D: SectorDisk>(
    alloc: Global,
    disk: &mut D,
    layouts: &Layouts,
    area: Area,
    opened: Option<Header>,
    chosen: Option<InUse>,
    lines: &mut Lines,
) -> Result<(), RecoverCause>
    requires { total layouts.now.older ≤ (D.disk disk.old).sectors }
    ensures { Same (D.disk disk.old) (D.disk disk.new) }
{
    let front = read_front(disk, layouts.older, area, opened, chosen)?;
    let layout = layouts.of(front.header);
    lines.add(area_line(alloc, layout, front)?)?;
    add_ports(alloc, disk, layout, area, lines)?;
    add_slots(alloc, disk, layout, front, lines)?;
    Ok(add_unused(alloc, layout, area, lines)?)
}

// Adds the line of the sectors of an area that are in no slot, if there are any.
fn add_unused(
    alloc: Global,
    layout: Layout,
    area: Area,
    lines: &mut Lines,
) -> Result<(), AllocError> {
    let first = layout.slot(area, layout.slots(), 0).gate;
    let behind = match area {
        Area::A => layout.gate(Area::B),
        Area::B => layout.sectors(),
    };
    let count = behind.saturating_sub(first);
    if count == 0 {
        return Ok(());
    }
    let text = String::from_str(alloc, "not used")?;
    lines.add(Line {
        part: Part::Unused,
        numbers: Span::one(0),
        sectors: Span::counted(first, count),
        cells: Cells {
            gate: None,
            used: 0,
            unused: count,
        },
        text,
        damaged: false,
    })
}
