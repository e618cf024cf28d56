//! The first reads of a recovery: the geometry, and the area in use.

ghost use Rattle.std.specs.Prelude.{◌≡◌, ◌<◌, ◌≤◌, ◌+◌, Some, None, Err, IfOk, IfErr, if◌then◌else◌};
ghost use Rattle.iol_record.specs.declared.version.Version.{Version};
ghost use Rattle.iol_disk.specs.Disk.{Same, FailsOnlyAs, Shows};
ghost use Rattle.iol_disk.specs.declared.fault.DiskFault.{DiskFault};
ghost use Rattle.iol_recovery.specs.Faults.{Counted, IsFault};
ghost use Rattle.iol_layout.specs.Layout.{other, laid_out, total, header_at};
ghost use Rattle.iol_layout.specs.Header.{header_of, epochs_ahead, version_in};
ghost use Rattle.iol_layout.specs.Meaning.{geometry_in, header_in, greatest, in_use, in_use_in, layout_used};
ghost use Rattle.iol_recovery.specs.Reading.{Says, Finds};
ghost use Rattle.iol_layout.specs.declared.header.TheConstants.{LAST_NUMBER};

use crate::cause::RecoverCause;
use iol_disk::{DiskFault, SectorDisk};
use iol_layout::{
    Area, GEOMETRY, Geometry, Header, InUse, Layout, gate, is_formatted, read_sector,
};

// Reads the geometry that a disk is formatted for.
#[tactic(auto, using(iol_layout::proofs::Layouts::same_total))]
pub(crate) fn find_geometry<D: SectorDisk>(disk: &mut D) -> Result<Geometry, RecoverCause>
    ensures fits { IfOk result (λ g. (version : Version) → total (laid_out version g) ≤ (D.disk disk.old).sectors) }
    ensures finds { Finds (λ g. g) (D.disk disk.old) (geometry_in (D.disk disk.old).sectors) result }
    ensures counted { Counted (D.disk disk.old) (D.disk disk.new) result }
    ensures takes_no_memory { result ≡ Err RecoverCause.Memory → ⊥ }
    ensures same { Same (D.disk disk.old) (D.disk disk.new) }
{
    let sectors = disk.sectors();
    if !is_formatted(disk)? {
        return Err(RecoverCause::NotFormatted);
    }
    let octets = read_sector(disk, GEOMETRY)?;
    match Layout::read(&octets) {
        Some(layout) if layout.sectors() <= sectors => match layout.geometry() {
            Some(geometry) => Ok(geometry),
            None => Err(RecoverCause::TooSmall),
        },
        _ => Err(RecoverCause::Damaged { sector: GEOMETRY }),
    }
}

// The area in use, and the header of the other.
#[derive(Clone, Copy)]
pub(crate) struct Areas {
    pub in_use: InUse,
    pub other: Header,
}

// Returns the layout of the area in use.
pub(crate) fn layout_used(geometry: Geometry, used: InUse) -> Layout
    ensures { result ≡ layout_used geometry used }
{
    Layout::of(used.header.version_in_use(), geometry)
}

// Reads the gates, the headers of the open areas, and then that of the area not in use, if it is closed.
pub(crate) fn find_areas<D: SectorDisk>(disk: &mut D, layout: Layout) -> Result<Areas, RecoverCause>
    requires { total layout ≤ (D.disk disk.old).sectors }
    ensures finds { Finds (λ areas. areas.in_use) (D.disk disk.old) (in_use_in layout) result }
    ensures other { IfOk result (λ areas.
        Shows (D.disk disk.old) (λ image. areas.other ≡ header_of (image (header_at layout (other areas.in_use.area))))) }
    ensures base { IfOk result (λ areas. areas.in_use.header.base ≤ LAST_NUMBER) }
    ensures begun { IfOk result (λ areas.
        areas.in_use.header.epoch ≤ areas.in_use.header.base + epochs_ahead (version_in areas.in_use.header)) }
    ensures counted { Counted (D.disk disk.old) (D.disk disk.new) result }
    ensures takes_no_memory { result ≡ Err RecoverCause.Memory → ⊥ }
    ensures same { Same (D.disk disk.old) (D.disk disk.new) }
{
    let (a, b) = read_open_headers(disk, layout)?;
    let in_use = greatest_of(layout, a, b)?;
    let other = in_use.area.other();
    let read = match other {
        Area::A => a,
        Area::B => b,
    };
    let other = match read {
        Some(header) => header,
        None => read_header(disk, layout, other)?,
    };
    Ok(Areas { in_use, other })
}

/// Reads both gates, and then the headers of the open areas. Returns that of A and that of B.
///
/// # Errors
/// `Read` if the disk fails.
pub fn read_open_headers<D: SectorDisk>(
    disk: &mut D,
    layout: Layout,
) -> Result<(Option<Header>, Option<Header>), DiskFault>
    requires { total layout ≤ (D.disk disk.old).sectors }
    ensures read { IfOk result (λ (a, b).
        Shows (D.disk disk.old) (λ image. (a ≡ header_in layout image Area.A) × (b ≡ header_in layout image Area.B))) }
    ensures same { Same (D.disk disk.old) (D.disk disk.new) }
    ensures fault { FailsOnlyAs DiskFault.Read (D.disk disk.old) (D.disk disk.new) result }
{
    let open_a = gate(layout.gate(Area::A)).is_open(disk)?;
    let open_b = gate(layout.gate(Area::B)).is_open(disk)?;
    let a = read_if(disk, layout, Area::A, open_a)?;
    let b = read_if(disk, layout, Area::B, open_b)?;
    Ok((a, b))
}

/// Reads the header of an area, whether its gate is open or closed.
///
/// # Errors
/// `Read` if the disk fails.
pub fn read_header<D: SectorDisk>(
    disk: &mut D,
    layout: Layout,
    area: Area,
) -> Result<Header, DiskFault>
    requires { total layout ≤ (D.disk disk.old).sectors }
    ensures read { IfOk result (λ header. Shows (D.disk disk.old) (λ image. header ≡ header_of (image (header_at layout area)))) }
    ensures same { Same (D.disk disk.old) (D.disk disk.new) }
    ensures fault { FailsOnlyAs DiskFault.Read (D.disk disk.old) (D.disk disk.new) result }
{
    let octets = read_sector(disk, layout.header(area))?;
    Ok(Header::read(&octets))
}

fn read_if<D: SectorDisk>(
    disk: &mut D,
    layout: Layout,
    area: Area,
    wanted: bool,
) -> Result<Option<Header>, DiskFault>
    requires { total layout ≤ (D.disk disk.old).sectors }
    ensures read { IfOk result (λ header.
        Shows (D.disk disk.old) (λ image. header ≡ (if wanted then Some (header_of (image (header_at layout area))) else None))) }
    ensures same { Same (D.disk disk.old) (D.disk disk.new) }
    ensures fault { FailsOnlyAs DiskFault.Read (D.disk disk.old) (D.disk disk.new) result }
{
    if wanted {
        Ok(Some(read_header(disk, layout, area)?))
    } else {
        Ok(None)
    }
}

/// Returns the area in use: of the open areas, whose headers are `a` and `b`, the one with the greatest epoch.
///
/// # Errors
/// `Damaged` (docs/FORMATS.md, "Recovery") if no area is open, both have the same epoch, or the header with the greatest
/// epoch is out of its bounds.
pub fn greatest_of(
    layout: Layout,
    a: Option<Header>,
    b: Option<Header>,
) -> Result<InUse, RecoverCause>
    ensures says { Says (λ used. used) (greatest layout a b) result }
    ensures no_fault { IfErr result (λ told. IsFault told → ⊥) }
    ensures base { IfOk result (λ used. used.header.base ≤ LAST_NUMBER) }
    ensures begun { IfOk result (λ used. used.header.epoch ≤ used.header.base + epochs_ahead (version_in used.header)) }
{
    match (a, b) {
        (None, None) => Err(RecoverCause::Damaged {
            sector: layout.gate(Area::A),
        }),
        (Some(a), None) => in_use_of(layout, Area::A, a),
        (None, Some(b)) => in_use_of(layout, Area::B, b),
        (Some(a), Some(b)) => {
            if a.epoch == b.epoch {
                Err(RecoverCause::Damaged {
                    sector: layout.header(Area::B),
                })
            } else if a.epoch < b.epoch {
                in_use_of(layout, Area::B, b)
            } else {
                in_use_of(layout, Area::A, a)
            }
        }
    }
}

fn in_use_of(layout: Layout, area: Area, header: Header) -> Result<InUse, RecoverCause>
    ensures says { Says (λ used. used) (in_use layout area header) result }
    ensures no_fault { IfErr result (λ told. IsFault told → ⊥) }
    ensures base { IfOk result (λ used. used.header.base ≤ LAST_NUMBER) }
    ensures begun { IfOk result (λ used. used.header.epoch ≤ used.header.base + epochs_ahead (version_in used.header)) }
{
    if header.is_sound() {
        Ok(InUse { area, header })
    } else {
        Err(RecoverCause::Damaged {
            sector: layout.header(area),
        })
    }
}
