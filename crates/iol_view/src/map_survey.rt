//! Reads the lines of a map off a disk, part by part. Nothing is written to the disk.
ghost use Rattle.std.specs.Prelude.{◌≡◌, ◌≤◌, IfOk};
ghost use Rattle.iol_disk.specs.Disk.{Same};

use crate::map_areas::add_areas;
use crate::map_layouts::Layouts;
use crate::map_lines::{Cells, Gate, Line, Lines, Part, Span};
use iol_disk::{SECTOR_OCTETS, SectorDisk};
use iol_journal::RecoverCause;
use iol_journal::survey::{DISK_GATE, GEOMETRY, is_formatted, read_sector};
use std::alloc::{AllocError, Global};
use std::fmt;

// The number of octets of a geometry.
const GEOMETRY_OCTETS: usize = 10;

// Returns the lines of a disk. `damaged` is the sector that a recovery finds damaged, if it finds one.
pub(crate) fn lines_of<D: SectorDisk>(
    alloc: Global,
    disk: &mut D,
    damaged: Option<usize>,
) -> Result<Vec<Line>, RecoverCause>
    ensures { Same (D.disk disk.old) (D.disk disk.new) }
{
    let mut lines = Lines::new(alloc, damaged);
    let layouts = add_geometry(alloc, disk, &mut lines)?;
    add_disk_gate(alloc, disk, &mut lines)?;
    let mapped = add_journal(alloc, disk, &layouts, &mut lines)?;
    add_rest(alloc, disk.sectors(), mapped, &mut lines)?;
    Ok(lines.lines)
}

// Adds the line of the geometry's sector, if the disk has that sector, and returns the layouts of the geometry.
fn add_geometry<D: SectorDisk>(
    alloc: Global,
    disk: &mut D,
    lines: &mut Lines,
) -> Result<Option<Layouts>, RecoverCause>
    ensures { Same (D.disk disk.old) (D.disk disk.new) }
{
    let sectors = disk.sectors();
    if sectors <= GEOMETRY {
        return Ok(None);
    }
    let octets = read_sector(disk, GEOMETRY)?;
    let layouts = Layouts::read(&octets);
    let text = geometry_text(alloc, &octets, &layouts, sectors)?;
    lines.add(alone(GEOMETRY, None, text))?;
    Ok(layouts)
}

// Adds the line of the gate of the disk, if the disk has that sector.
fn add_disk_gate<D: SectorDisk>(
    alloc: Global,
    disk: &mut D,
    lines: &mut Lines,
) -> Result<(), RecoverCause>
    ensures { Same (D.disk disk.old) (D.disk disk.new) }
{
    let is_open = is_formatted(disk)?;
    if disk.sectors() <= DISK_GATE {
        return Ok(());
    }
    let gate = if is_open { Gate::Open } else { Gate::Closed };
    let text = String::from_str(alloc, disk_gate_text(gate))?;
    lines.add(alone(DISK_GATE, Some(gate), text))?;
    Ok(())
}

fn disk_gate_text(gate: Gate) -> &'static str {
    match gate {
        Gate::Open => "gate of the disk, open",
        Gate::Closed => "gate of the disk, closed",
    }
}

// Adds the lines of the areas, if the disk has the sectors that the geometry takes, and returns the first sector after those
// that have lines.
fn add_journal<D: SectorDisk>(
    alloc: Global,
    disk: &mut D,
    layouts: &Option<Layouts>,
    lines: &mut Lines,
) -> Result<usize, RecoverCause>
    ensures { Same (D.disk disk.old) (D.disk disk.new) }
{
    let sectors = disk.sectors();
    match layouts {
        Some(layouts) if layouts.older.sectors() <= sectors => {
            add_areas(alloc, disk, layouts, lines)?;
            Ok(layouts.older.sectors())
        }
        _ => Ok(DISK_GATE + 1),
    }
}

// Adds the line of the sectors after those that have lines, if there are any.
fn add_rest(
    alloc: Global,
    sectors: usize,
    mapped: usize,
    lines: &mut Lines,
) -> Result<(), RecoverCause> {
    if sectors <= mapped {
        return Ok(());
    }
    let text = String::from_str(alloc, "not read")?;
    lines.add(Line {
        part: Part::Alone,
        numbers: Span::one(0),
        sectors: Span::counted(mapped, sectors - mapped),
        cells: Cells {
            gate: None,
            used: 0,
            unused: 1,
        },
        text,
        damaged: false,
    })?;
    Ok(())
}

// Returns the line of one sector that belongs to no area. The sector is drawn as this gate, or as used if `gate` is `None`.
fn alone(sector: usize, gate: Option<Gate>, text: String) -> Line {
    let used = match gate {
        Some(_) => 0,
        None => 1,
    };
    Line {
        part: Part::Alone,
        numbers: Span::one(0),
        sectors: Span::one(sector),
        cells: Cells {
            gate,
            used,
            unused: 0,
        },
        text,
        damaged: false,
    }
}

// Returns the text of the geometry's sector, on a disk of `there` sectors.
fn geometry_text(
    alloc: Global,
    octets: &[u8; SECTOR_OCTETS],
    layouts: &Option<Layouts>,
    there: usize,
) -> Result<String, AllocError> {
    let Some(layouts) = layouts else {
        return Octets(&octets[..GEOMETRY_OCTETS]).to_string(alloc);
    };
    let older = layouts.older;
    let (ports, slots, sectors) = (older.ports(), older.slots(), older.sectors());
    let lack = if there < sectors {
        ", more than there are"
    } else {
        ""
    };
    format!(in alloc; "geometry, ports {ports}, slots {slots}, sectors {sectors}{lack}")
}

// The text of octets that are no geometry.
#[derive(Drop)]
struct Octets<'a>(&'a [u8]);

impl fmt::Display for Octets<'_> {
    fn fmt<W: fmt::Write>(&self, f: &mut fmt::Formatter<W>) -> fmt::Result {
        f.write_str("no geometry:")?;
        for octet in self.0 {
            write!(f, " {octet:02X}")?;
        }
        Ok(())
    }
}
