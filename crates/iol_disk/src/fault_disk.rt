//! A disk on which one call is made to fail.

ghost use Rattle.std.specs.Prelude.{◌≡◌};
ghost use Rattle.iol_disk.specs.FaultDisk.{fails_now, counted};
ghost use Rattle.iol_disk.specs.declared.fault.DiskFault.{DiskFault};

use crate::disk::{SECTOR_OCTETS, SectorDisk};
use crate::fault::DiskFault;

/// When the call that fails is due.
#[derive(Clone, Copy, PartialEq, Eq)]
pub enum Due {
    /// Never.
    Never,
    /// After this number of other calls of the kind.
    After(u64),
    /// The call has already failed.
    Past,
}

/// Wraps another disk and makes one of its calls fail, for tests and trials of code that uses a disk. It is honest if
/// that disk is. A write that is made to fail is still carried out; a sync or a read is not.
#[derive(Drop)]
pub struct FaultDisk<D: SectorDisk> {
    disk: D,
    kind: DiskFault,
    due: Due,
}

impl<D: SectorDisk> FaultDisk<D> {
    ghost use Rattle.iol_disk.specs.FaultDisk.{inner, kind_of, due_of, first_due};

    /// Wraps `disk`, whose `n`-th call of this kind, counted from 1, fails once. If `n` is 0, none fails.
    pub fn new(disk: D, kind: DiskFault, n: u64) -> Self
        ensures disk { inner result ≡ disk }
        ensures kind { kind_of result ≡ kind }
        ensures due { due_of result ≡ first_due n }
    {
        let due = match n {
            0 => Due::Never,
            _ => Due::After(n - 1),
        };
        FaultDisk { disk, kind, due }
    }

    /// Returns the wrapped disk.
    pub fn disk(self) -> D
        ensures { result ≡ inner self }
    {
        let FaultDisk {
            disk,
            kind: _,
            due: _,
        } = self;
        disk
    }

    /// When the call that fails is due.
    pub fn due(&self) -> Due
        ensures { result ≡ due_of self.now }
    {
        self.due
    }
}

// Counts a call, and returns whether it is the one that fails.
fn counts(kind: DiskFault, due: &mut Due, called: DiskFault) -> bool
    ensures fails { result ≡ fails_now kind due.old called }
    ensures counted { due.new ≡ counted kind due.old called }
{
    if kind != called {
        return false;
    }
    match *due {
        Due::After(0) => {
            *due = Due::Past;
            true
        }
        Due::After(others) => {
            *due = Due::After(others - 1);
            false
        }
        Due::Never | Due::Past => false,
    }
}

impl<D: SectorDisk> SectorDisk for FaultDisk<D> {
    ghost use Rattle.std.specs.Prelude.{◌≡◌, ◌<◌, true, false, Err, IsTrue, OnOk, OnErr};
    ghost use Rattle.iol_disk.specs.Content.{reads, wrote, synced};
    ghost use Rattle.iol_disk.specs.Disk.{After, Same, WroteSome, FailsOnlyAs};
    ghost use Rattle.iol_disk.specs.FaultDisk.{failing_disk, inner, kind_of, due_of, fails_now, counted, IsWriteMade};

    ghost disk = { failing_disk D.disk };

    fn sectors(&self) -> usize {
        self.disk.sectors()
    }

    /// Reads sector `n`, or fails if this read is due to fail.
    fn read(&mut self, n: usize, octets: &mut [u8; SECTOR_OCTETS]) -> Result<(), DiskFault>
        requires { n < (failing_disk D.disk self.old).sectors }
        ensures read { OnOk result (IsTrue (failing_disk D.disk self.old).honest
            → octets.new ≡ reads (failing_disk D.disk self.old).content n) }
        ensures kept { OnErr result (octets.new ≡ octets.old) }
        ensures same { Same (failing_disk D.disk self.old) (failing_disk D.disk self.new) }
        ensures fault { FailsOnlyAs DiskFault.Read (failing_disk D.disk self.old) (failing_disk D.disk self.new) result }
        ensures counted { due_of self.new ≡ counted (kind_of self.old) (due_of self.old) DiskFault.Read }
        ensures due { fails_now (kind_of self.old) (due_of self.old) DiskFault.Read ≡ true → result ≡ Err DiskFault.Read }
        ensures not_made { fails_now (kind_of self.old) (due_of self.old) DiskFault.Read ≡ true → inner self.new ≡ inner self.old }
        ensures passed { fails_now (kind_of self.old) (due_of self.old) DiskFault.Read ≡ false
            → FailsOnlyAs DiskFault.Read (D.disk (inner self.old)) (D.disk (inner self.new)) result }
    {
        if counts(self.kind, &mut self.due, DiskFault::Read) {
            return Err(DiskFault::Read);
        }
        self.disk.read(n, octets)
    }

    /// Writes sector `n`. If this write is due to fail, it is still carried out, and `Write` is returned.
    fn write(&mut self, n: usize, octets: &[u8; SECTOR_OCTETS]) -> Result<(), DiskFault>
        requires { n < (failing_disk D.disk self.old).sectors }
        ensures wrote { OnOk result (After (wrote n octets.now) (failing_disk D.disk self.old) (failing_disk D.disk self.new)) }
        ensures wrote_some { OnErr result (WroteSome n (failing_disk D.disk self.old) (failing_disk D.disk self.new)) }
        ensures fault { FailsOnlyAs DiskFault.Write (failing_disk D.disk self.old) (failing_disk D.disk self.new) result }
        ensures counted { due_of self.new ≡ counted (kind_of self.old) (due_of self.old) DiskFault.Write }
        ensures due { fails_now (kind_of self.old) (due_of self.old) DiskFault.Write ≡ true → result ≡ Err DiskFault.Write }
        ensures made { fails_now (kind_of self.old) (due_of self.old) DiskFault.Write ≡ true
            → IsWriteMade n octets.now (D.disk (inner self.old)) (D.disk (inner self.new)) }
        ensures passed { fails_now (kind_of self.old) (due_of self.old) DiskFault.Write ≡ false
            → FailsOnlyAs DiskFault.Write (D.disk (inner self.old)) (D.disk (inner self.new)) result }
    {
        let answer = self.disk.write(n, octets);
        if counts(self.kind, &mut self.due, DiskFault::Write) {
            return Err(DiskFault::Write);
        }
        answer
    }

    /// Makes durable all that was written, or fails if this sync is due to fail.
    fn sync(&mut self) -> Result<(), DiskFault>
        ensures synced { OnOk result (After synced (failing_disk D.disk self.old) (failing_disk D.disk self.new)) }
        ensures same { OnErr result (Same (failing_disk D.disk self.old) (failing_disk D.disk self.new)) }
        ensures fault { FailsOnlyAs DiskFault.Sync (failing_disk D.disk self.old) (failing_disk D.disk self.new) result }
        ensures counted { due_of self.new ≡ counted (kind_of self.old) (due_of self.old) DiskFault.Sync }
        ensures due { fails_now (kind_of self.old) (due_of self.old) DiskFault.Sync ≡ true → result ≡ Err DiskFault.Sync }
        ensures not_made { fails_now (kind_of self.old) (due_of self.old) DiskFault.Sync ≡ true → inner self.new ≡ inner self.old }
        ensures passed { fails_now (kind_of self.old) (due_of self.old) DiskFault.Sync ≡ false
            → FailsOnlyAs DiskFault.Sync (D.disk (inner self.old)) (D.disk (inner self.new)) result }
    {
        if counts(self.kind, &mut self.due, DiskFault::Sync) {
            return Err(DiskFault::Sync);
        }
        self.disk.sync()
    }
}
