//! Erasing: makes a disk unformatted.

ghost use Rattle.std.specs.Prelude.{◌≡◌, ◌<◌, [], ◌∷◌, OnOk};
ghost use Rattle.iol_disk.specs.Calls.{write, sync, Makes};
ghost use Rattle.iol_disk.specs.Moments.{LeavesOnly};
ghost use Rattle.iol_disk.specs.Gate.{closed_gate};
ghost use Rattle.iol_journal.specs.Erasing.{MakesErasure, MeansAsBeforeOrNothing, EachUnformatted};
ghost use Rattle.iol_layout.specs.declared.geometry.TheConstants.{DISK_GATE};

use iol_disk::{DiskFault, SectorDisk};
use iol_layout::{DISK_GATE, gate, is_formatted};

/// Closes the gate of the disk if it is open, so that no journal is on it. Nothing else is written, and no memory is
/// allocated. A disk of fewer than two sectors counts as one whose gate is closed.
///
/// # Errors
/// The fault of the call that failed. The disk may then be erased, formatted or recovered.
pub fn erase<D: SectorDisk>(disk: &mut D) -> Result<(), DiskFault>
    ensures makes { MakesErasure (D.disk disk.old) (D.disk disk.new) result }
    // At any moment each image means what an image meant before, or is not formatted.
    ensures any_moment { LeavesOnly (D.disk disk.old) (D.disk disk.new)
        (MeansAsBeforeOrNothing (D.disk disk.old).sectors (D.disk disk.old).content) }
    // No image is formatted.
    ensures done { OnOk result (EachUnformatted (D.disk disk.new)) }
    ensures size { (D.disk disk.new).sectors ≡ (D.disk disk.old).sectors }
{
    close_disk(disk)
}

// Syncs, and closes the gate of the disk if it is open. A closed gate is not written, because a torn write might leave
// it open.
fn close_disk<D: SectorDisk>(disk: &mut D) -> Result<(), DiskFault>
    ensures { MakesErasure (D.disk disk.old) (D.disk disk.new) result }
{
    disk.sync()?;
    if is_formatted(disk)? {
        write_closed_gate(disk)
    } else {
        Ok(())
    }
}

// Closes the gate of the disk and syncs.
fn write_closed_gate<D: SectorDisk>(disk: &mut D) -> Result<(), DiskFault>
    requires { DISK_GATE < (D.disk disk.old).sectors }
    ensures { Makes (write DISK_GATE closed_gate ∷ sync ∷ []) (D.disk disk.old) (D.disk disk.new) result }
{
    gate(DISK_GATE).close_gate(disk)?;
    disk.sync()
}
