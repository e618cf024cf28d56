//! Reads of a sector and of a gate.

ghost use Rattle.std.specs.Prelude.{◌≡◌, ◌<◌, ◌+◌, true, IfOk};
ghost use Rattle.iol_disk.specs.Disk.{Same, FailsOnlyAs, Shows};
ghost use Rattle.iol_disk.specs.declared.fault.DiskFault.{DiskFault};
ghost use Rattle.iol_layout.specs.Meaning.{is_formatted};
ghost use Rattle.iol_layout.specs.declared.geometry.TheConstants.{DISK_GATE};
ghost use Rattle.iol_disk.specs.Gate.{is_open};

use crate::geometry::DISK_GATE;
use iol_disk::{DiskFault, SECTOR_OCTETS, SectorDisk, Slot};

/// Reads a sector and returns its octets.
///
/// # Errors
/// `Read` if the disk fails.
pub fn read_sector<D: SectorDisk>(
    disk: &mut D,
    sector: usize,
) -> Result<[u8; SECTOR_OCTETS], DiskFault>
    requires { sector < (D.disk disk.old).sectors }
    ensures read { IfOk result (λ octets. Shows (D.disk disk.old) (λ image. octets ≡ image sector)) }
    ensures same { Same (D.disk disk.old) (D.disk disk.new) }
    ensures fault { FailsOnlyAs DiskFault.Read (D.disk disk.old) (D.disk disk.new) result }
{
    let mut octets = [0; SECTOR_OCTETS];
    disk.read(sector, &mut octets)?;
    Ok(octets)
}

/// Returns a gate as a slot with no body.
pub fn gate(sector: usize) -> Slot
    requires { sector < 1000000 }
    ensures { result.gate ≡ sector }
{
    Slot {
        gate: sector,
        body: sector + 1,
        span: 0,
        sectors: 0,
    }
}

/// Returns whether the disk has a gate, and it is open.
///
/// # Errors
/// `Read` if the disk fails.
pub fn is_formatted<D: SectorDisk>(disk: &mut D) -> Result<bool, DiskFault>
    ensures read { IfOk result (λ answer. Shows (D.disk disk.old) (λ image. answer ≡ is_formatted (D.disk disk.old).sectors image)) }
    ensures there { IfOk result (λ answer. answer ≡ true → DISK_GATE < (D.disk disk.old).sectors) }
    ensures same { Same (D.disk disk.old) (D.disk disk.new) }
    ensures fault { FailsOnlyAs DiskFault.Read (D.disk disk.old) (D.disk disk.new) result }
{
    if disk.sectors() <= DISK_GATE {
        return Ok(false);
    }
    gate(DISK_GATE).is_open(disk)
}
