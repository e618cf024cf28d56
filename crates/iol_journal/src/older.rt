//! Formatting in the layout of earlier releases, for tests.

ghost use Rattle.std.specs.Prelude.{◌≡◌, ◌<◌, ◌↔◌, Err, OnOk, IsErrOf, true, false};
ghost use Rattle.iol_record.specs.declared.version.Version.TheVariants.{One};
ghost use Rattle.iol_disk.specs.Disk.{Shows};
ghost use Rattle.iol_disk.specs.Gate.{is_open};
ghost use Rattle.iol_layout.specs.Layout.{layout_of, total};
ghost use Rattle.iol_layout.specs.declared.geometry.TheConstants.{DISK_GATE};
ghost use Rattle.iol_journal.specs.Formatting.{EachIsEmptyJournal};
ghost use Rattle.iol_journal.specs.Orders.{MakesFormat};
ghost use Rattle.iol_journal.specs.declared.formatting.FormatFault.TheVariants.{TooSmall, AlreadyFormatted, Memory};

use crate::formatting::{FormatFault, first_area, write_journal};
use iol_disk::SectorDisk;
use iol_layout::{DISK_GATE, Geometry, gate};
use iol_record::Version;
use std::alloc::Global;

/// Writes an empty journal as [`format`](crate::format) does, but in version 1 of the layout, which earlier releases wrote. The
/// first checkpoint renews the layout. For tests only.
///
/// # Errors
/// The errors of [`format`](crate::format), in the same order.
pub fn format_one<D: SectorDisk>(
    alloc: Global,
    disk: &mut D,
    geometry: Geometry,
) -> Result<(), FormatFault>
    ensures too_small { IsErrOf result TooSmall ↔ ((D.disk disk.old).sectors < total (layout_of geometry)) }
    ensures formatted_already { IsErrOf result AlreadyFormatted → Shows (D.disk disk.old) (λ image. is_open (image DISK_GATE) ≡ true) }
    ensures makes { MakesFormat One geometry (D.disk disk.old) (D.disk disk.new) result }
    ensures memory { result ≡ Err Memory → Shows (D.disk disk.old) (λ image. is_open (image DISK_GATE) ≡ false) }
    // Each image is an empty journal of this geometry.
    ensures done { OnOk result (EachIsEmptyJournal (D.disk disk.new) geometry) }
    ensures size { (D.disk disk.new).sectors ≡ (D.disk disk.old).sectors }
{
    if disk.sectors() < geometry.sectors() {
        return Err(FormatFault::TooSmall);
    }
    disk.sync()?;
    if gate(DISK_GATE).is_open(disk)? {
        return Err(FormatFault::AlreadyFormatted);
    }
    let plan = first_area(alloc, Version::One, geometry)?;
    write_journal(disk, Version::One, geometry, &plan)?;
    Ok(())
}
