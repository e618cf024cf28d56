//! A disk as its callers see it.
//!
//! An honest disk is assumed to behave as follows:
//!
//! - a read returns the newest octets of its sector,
//! - a write touches only its own sector,
//! - a sync that succeeds makes durable all that was written since the last successful one, even after a failed one
//!   (many systems drop pages then),
//! - a sector that was not written since the last successful sync does not change by itself.
//!
//! It is not assumed that a sector is written whole, or that writes arrive in order.

ghost use Rattle.std.specs.Prelude.{◌≡◌, ◌<◌, IsTrue, OnOk, OnErr};
ghost use Rattle.iol_disk.specs.Content.{reads, wrote, synced};
ghost use Rattle.iol_disk.specs.Disk.{Disk, After, Same, WroteSome, FailsOnlyAs};

use crate::fault::DiskFault;

/// The number of octets in a sector.
pub const SECTOR_OCTETS: usize = 512;

/// A disk of sectors, numbered from 0.
///
/// Each contract says what the call does to the disk's content: to what is durable, and to what was written since
/// the last sync that succeeded. A power stop leaves the durable octets in each sector that was not written since,
/// and any octets in the others. All this holds for an honest disk, and no call changes whether a disk is honest.
///
/// Failed calls are counted, up to 2^64 - 1; successful ones are not.
pub trait SectorDisk {
    /// The disk as contracts see it.
    ghost disk: { Self → Disk };

    /// The number of sectors of the disk.
    fn sectors(&self) -> usize
        ensures { result ≡ (disk self.now).sectors };

    /// Reads sector `n`, which is less than `sectors()`. On failure, `octets` is unchanged and the fault is `Read`.
    fn read(&mut self, n: usize, octets: &mut [u8; SECTOR_OCTETS]) -> Result<(), DiskFault>
        requires { n < (disk self.old).sectors }
        ensures read { OnOk result (IsTrue (disk self.old).honest → octets.new ≡ reads (disk self.old).content n) }
        ensures kept { OnErr result (octets.new ≡ octets.old) }
        ensures same { Same (disk self.old) (disk self.new) }
        ensures fault { FailsOnlyAs DiskFault.Read (disk self.old) (disk self.new) result };

    /// Writes sector `n`, which is less than `sectors()`. On failure, the sector still counts as written, with some
    /// octets, and the fault is `Write`.
    fn write(&mut self, n: usize, octets: &[u8; SECTOR_OCTETS]) -> Result<(), DiskFault>
        requires { n < (disk self.old).sectors }
        ensures wrote { OnOk result (After (wrote n octets.now) (disk self.old) (disk self.new)) }
        ensures wrote_some { OnErr result (WroteSome n (disk self.old) (disk self.new)) }
        ensures fault { FailsOnlyAs DiskFault.Write (disk self.old) (disk self.new) result };

    /// Makes durable all that was written. On failure, nothing counts as made durable, and the fault is `Sync`.
    fn sync(&mut self) -> Result<(), DiskFault>
        ensures synced { OnOk result (After synced (disk self.old) (disk self.new)) }
        ensures same { OnErr result (Same (disk self.old) (disk self.new)) }
        ensures fault { FailsOnlyAs DiskFault.Sync (disk self.old) (disk self.new) result };
}
