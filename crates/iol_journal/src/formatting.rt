//! Formatting: writes an empty journal.

ghost use Rattle.std.specs.Prelude.{◌≡◌, ◌≤◌, ◌<◌, ◌⊎◌, ◌↔◌, ◌++◌, [], ◌∷◌, true, false, Err, OnOk, IfOk, IfErr, IsErrOf};
ghost use Rattle.iol_disk.specs.Content.{IsImage};
ghost use Rattle.iol_disk.specs.Moments.{LeavesOnly};
ghost use Rattle.iol_disk.specs.Gate.{is_open};
ghost use Rattle.iol_layout.specs.AreaWrites.{header_write};
ghost use Rattle.iol_journal.specs.Formatting.{EachIsEmptyJournal, IfUntouched, IsEmptyOrUnformatted, IsFirstArea, LeavesFormat};
ghost use Rattle.iol_layout.specs.Layout.{laid_out, layout_of, total};
ghost use Rattle.iol_record.specs.Record.{newest};
ghost use Rattle.iol_disk.specs.Calls.{Makes};
ghost use Rattle.iol_journal.specs.Orders.{MakesFormat, gate_writes, journal_writes, opening_calls};
ghost use Rattle.iol_disk.specs.Disk.{Shows};
ghost use Rattle.iol_layout.specs.declared.geometry.TheConstants.{DISK_GATE};
ghost use Rattle.iol_journal.specs.declared.formatting.FormatFault.TheVariants.{TooSmall, AlreadyFormatted, Memory};

use iol_disk::{DiskFault, SectorDisk};
use iol_layout::{Area, AreaPlan, DISK_GATE, GEOMETRY, Geometry, Header, Layout, gate};
use iol_record::Version;
use iol_types::MasterState;
use std::alloc::{AllocError, Global};
use thiserror::Error;

/// Why a disk was not formatted. The causes are checked in this order.
#[derive(Clone, Copy, Debug, PartialEq, Eq, Error)]
pub enum FormatFault {
    /// The disk has fewer sectors than the geometry needs. It was not touched.
    #[error("the disk is too small")]
    TooSmall,
    /// The gate of the disk is open. Nothing was written.
    #[error("the disk is already formatted")]
    AlreadyFormatted,
    /// Out of memory. Nothing was written.
    #[error("out of memory")]
    Memory,
    /// A disk call failed, at any point.
    #[error("{0}")]
    Disk(DiskFault),
}

impl From<DiskFault> for FormatFault {
    ghost use Rattle.std.specs.Prelude.{◌≡◌};
    ghost use Rattle.iol_journal.specs.declared.formatting.FormatFault.TheVariants.{Disk};

    ghost from_gives = { λ fault e. e ≡ Disk fault };

    fn from(fault: DiskFault) -> FormatFault {
        FormatFault::Disk(fault)
    }
}

impl From<AllocError> for FormatFault {
    ghost use Rattle.std.specs.Prelude.{◌≡◌};
    ghost use Rattle.iol_journal.specs.declared.formatting.FormatFault.TheVariants.{Memory};

    ghost from_gives = { λ _ e. e ≡ Memory };

    fn from(_error: AllocError) -> FormatFault {
        FormatFault::Memory
    }
}

/// Writes an empty journal to a disk whose gate is closed. Everything else is written and synced before that gate is
/// opened.
///
/// # Errors
/// `TooSmall`, `AlreadyFormatted` and `Memory`, in this order, and `Disk` at the call that fails. A disk that failed
/// may be formatted again, unless its gate was already written: then it is recovered.
pub fn format<D: SectorDisk>(
    alloc: Global,
    disk: &mut D,
    geometry: Geometry,
) -> Result<(), FormatFault>
    ensures too_small { IsErrOf result TooSmall ↔ ((D.disk disk.old).sectors < total (layout_of geometry)) }
    ensures formatted_already { IsErrOf result AlreadyFormatted → Shows (D.disk disk.old) (λ image. is_open (image DISK_GATE) ≡ true) }
    ensures makes { MakesFormat newest geometry (D.disk disk.old) (D.disk disk.new) result }
    // Memory is allocated only if the gate of the disk is closed.
    ensures memory { result ≡ Err Memory → Shows (D.disk disk.old) (λ image. is_open (image DISK_GATE) ≡ false) }
    // Until the first sync, and if the format is refused, each image was an image before.
    ensures any_moment { LeavesOnly (D.disk disk.old) (D.disk disk.new)
        (λ image. IsImage (D.disk disk.old).content image ⊎ IsEmptyOrUnformatted geometry (D.disk disk.old).sectors image) }
    ensures untouched { IfErr result (λ fault.
        IfUntouched fault (LeavesOnly (D.disk disk.old) (D.disk disk.new) (IsImage (D.disk disk.old).content))) }
    // If the gate of the disk is open, nothing is written and the result is not `Ok`.
    ensures kept { Shows (D.disk disk.old) (λ image. is_open (image DISK_GATE) ≡ true)
        → LeavesOnly (D.disk disk.old) (D.disk disk.new) (IsImage (D.disk disk.old).content) }
    ensures was_closed { OnOk result (Shows (D.disk disk.old) (λ image. is_open (image DISK_GATE) ≡ false)) }
    // After the first sync, each image of a disk whose gate was closed is unformatted or an empty journal.
    ensures since { Shows (D.disk disk.old) (λ image. is_open (image DISK_GATE) ≡ false)
        → LeavesFormat geometry (D.disk disk.old) (D.disk disk.new) }
    // Each image is an empty journal of this geometry.
    ensures done { OnOk result (EachIsEmptyJournal (D.disk disk.new) geometry) }
    ensures size { (D.disk disk.new).sectors ≡ (D.disk disk.old).sectors }
{
    if disk.sectors() < geometry.sectors() {
        return Err(FormatFault::TooSmall);
    }
    disk.sync()?;
    if gate(DISK_GATE).is_open(disk)? {
        return Err(FormatFault::AlreadyFormatted);
    }
    let version = Version::newest();
    let plan = first_area(alloc, version, geometry)?;
    write_journal(disk, version, geometry, &plan)?;
    Ok(())
}

// The initial content of area A: its first epoch, and ports that were never configured.
pub(crate) fn first_area(
    alloc: Global,
    version: Version,
    geometry: Geometry,
) -> Result<AreaPlan, AllocError>
    ensures { IfOk result (IsFirstArea version geometry) }
{
    let state = MasterState::new(alloc, geometry.ports())?;
    let header = Header {
        epoch: 1,
        base: 0,
        version: Some(version),
    };
    AreaPlan::of(
        alloc,
        Layout::of(version, geometry),
        Area::A,
        header,
        &state,
    )
}

// Writes an empty journal, and opens the gate of the disk once everything else is durable.
pub(crate) fn write_journal<D: SectorDisk>(
    disk: &mut D,
    version: Version,
    geometry: Geometry,
    plan: &AreaPlan,
) -> Result<(), DiskFault>
    requires fits { total (laid_out version geometry) ≤ (D.disk disk.old).sectors }
    requires plan { IsFirstArea version geometry plan.now }
    ensures { Makes (journal_writes version geometry ++ opening_calls) (D.disk disk.old) (D.disk disk.new) result }
{
    write_gates(disk, version, geometry)?;
    plan.close_slots(disk)?;
    write_headers(disk, plan)?;
    plan.write_records(disk)?;
    open_disk(disk)
}

// Writes the geometry and the gates of the areas.
fn write_gates<D: SectorDisk>(
    disk: &mut D,
    version: Version,
    geometry: Geometry,
) -> Result<(), DiskFault>
    requires { total (laid_out version geometry) ≤ (D.disk disk.old).sectors }
    ensures { Makes (gate_writes version geometry) (D.disk disk.old) (D.disk disk.new) result }
{
    let layout = Layout::of(version, geometry);
    disk.write(GEOMETRY, &geometry.octets())?;
    gate(layout.gate(Area::A)).open_gate(disk)?;
    gate(layout.gate(Area::B)).close_gate(disk)
}

// Writes the header of the area, and that of area B, which was never in use.
fn write_headers<D: SectorDisk>(disk: &mut D, plan: &AreaPlan) -> Result<(), DiskFault>
    requires { total plan.now.layout ≤ (D.disk disk.old).sectors }
    ensures { Makes (header_write plan.now.layout plan.now.area plan.now.header.epoch plan.now.header.base
        ∷ header_write plan.now.layout Area.B 0 0 ∷ [])
        (D.disk disk.old) (D.disk disk.new) result }
{
    plan.write_header(disk)?;
    let unused = Header::octets(plan.layout.version(), 0, 0);
    disk.write(plan.layout.header(Area::B), &unused)
}

// Opens the gate of the disk once everything written is durable.
fn open_disk<D: SectorDisk>(disk: &mut D) -> Result<(), DiskFault>
    requires { DISK_GATE < (D.disk disk.old).sectors }
    ensures { Makes opening_calls (D.disk disk.old) (D.disk disk.new) result }
{
    disk.sync()?;
    gate(DISK_GATE).open_gate(disk)?;
    disk.sync()
}
