//! A disk that records its calls.

ghost use Rattle.std.specs.Prelude.{◌≡◌, []};
ghost use Rattle.iol_disk.specs.RecordedDisk.{recorded_on, calls_of};

use crate::disk::{SECTOR_OCTETS, SectorDisk};
use crate::fault::DiskFault;
use std::alloc::Global;

/// A call of a disk, with the sector that it names.
#[derive(Clone, Copy, PartialEq, Eq)]
pub enum DiskCall {
    Read(usize),
    Write(usize),
    Sync,
}

/// Wraps another disk and records its calls in order, for tests and trials of code that uses a disk. If out of memory,
/// a call is made but not recorded. It is honest if that disk is.
#[derive(Drop)]
pub struct RecordedDisk<D: SectorDisk> {
    disk: D,
    calls: Vec<DiskCall>,
}

impl<D: SectorDisk> RecordedDisk<D> {
    /// Wraps `disk`, with no call recorded yet.
    pub fn new(alloc: Global, disk: D) -> RecordedDisk<D>
        ensures disk { recorded_on result ≡ disk }
        ensures calls { calls_of result ≡ [] }
    {
        RecordedDisk {
            disk,
            calls: Vec::new(alloc),
        }
    }
}

impl<D: SectorDisk + Drop> RecordedDisk<D> {
    /// Returns the recorded calls in the order in which they were made.
    pub fn calls(self) -> Vec<DiskCall>
        ensures { result.items ≡ calls_of self }
    {
        self.calls
    }
}

impl<D: SectorDisk> SectorDisk for RecordedDisk<D> {
    ghost use Rattle.std.specs.Prelude.{◌<◌, IsTrue, OnOk, OnErr};
    ghost use Rattle.iol_disk.specs.Content.{reads, wrote, synced};
    ghost use Rattle.iol_disk.specs.Disk.{After, Same, WroteSome, FailsOnlyAs};
    ghost use Rattle.iol_disk.specs.RecordedDisk.{IsRecorded};

    ghost disk = { λ d. D.disk d.disk };

    fn sectors(&self) -> usize {
        self.disk.sectors()
    }

    /// Records the read and makes it.
    fn read(&mut self, n: usize, octets: &mut [u8; SECTOR_OCTETS]) -> Result<(), DiskFault>
        requires { n < (D.disk (recorded_on self.old)).sectors }
        ensures read { OnOk result (IsTrue (D.disk (recorded_on self.old)).honest → octets.new
            ≡ reads (D.disk (recorded_on self.old)).content n) }
        ensures kept { OnErr result (octets.new ≡ octets.old) }
        ensures same { Same (D.disk (recorded_on self.old)) (D.disk (recorded_on self.new)) }
        ensures fault { FailsOnlyAs DiskFault.Read (D.disk (recorded_on self.old)) (D.disk (recorded_on self.new)) result }
        ensures recorded { IsRecorded (DiskCall.Read n) (calls_of self.old) (calls_of self.new) }
    {
        let _ = self.calls.push(DiskCall::Read(n));
        self.disk.read(n, octets)
    }

    /// Records the write and makes it.
    fn write(&mut self, n: usize, octets: &[u8; SECTOR_OCTETS]) -> Result<(), DiskFault>
        requires { n < (D.disk (recorded_on self.old)).sectors }
        ensures wrote { OnOk result (After (wrote n octets.now) (D.disk (recorded_on self.old)) (D.disk (recorded_on self.new))) }
        ensures wrote_some { OnErr result (WroteSome n (D.disk (recorded_on self.old)) (D.disk (recorded_on self.new))) }
        ensures fault { FailsOnlyAs DiskFault.Write (D.disk (recorded_on self.old)) (D.disk (recorded_on self.new)) result }
        ensures recorded { IsRecorded (DiskCall.Write n) (calls_of self.old) (calls_of self.new) }
    {
        let _ = self.calls.push(DiskCall::Write(n));
        self.disk.write(n, octets)
    }

    /// Records the sync and makes it.
    fn sync(&mut self) -> Result<(), DiskFault>
        ensures synced { OnOk result (After synced (D.disk (recorded_on self.old)) (D.disk (recorded_on self.new))) }
        ensures same { OnErr result (Same (D.disk (recorded_on self.old)) (D.disk (recorded_on self.new))) }
        ensures fault { FailsOnlyAs DiskFault.Sync (D.disk (recorded_on self.old)) (D.disk (recorded_on self.new)) result }
        ensures recorded { IsRecorded DiskCall.Sync (calls_of self.old) (calls_of self.new) }
    {
        let _ = self.calls.push(DiskCall::Sync);
        self.disk.sync()
    }
}
