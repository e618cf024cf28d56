//! A disk that reports its writes and syncs.

ghost use Rattle.std.specs.Prelude.{◌≡◌, [], true, IfOk};
ghost use Rattle.iol_disk.specs.Gate.{is_open};
ghost use Rattle.iol_explain.specs.ToldDisk.{IsTold, calls_of, is_whole, told_on};

use iol_disk::{DiskFault, GATE_MARK, SECTOR_OCTETS, SectorDisk};
use std::alloc::{AllocError, Global};

/// A call that changes a disk.
#[derive(Clone, Copy)]
pub enum ToldCall {
    /// This sector is written, with the octets of an open gate or with others.
    Write { sector: usize, is_gate_open: bool },
    Sync,
}

/// A disk over another one, whose writes and syncs it reports in their order. It is honest if that disk is.
#[derive(Drop)]
pub(crate) struct ToldDisk<D: SectorDisk> {
    disk: D,
    calls: Vec<ToldCall>,
    // whether each call that was made is in `calls`
    is_whole: bool,
}

/// What is left of a `ToldDisk` at its end: its disk, and the calls in the order in which they were made.
#[derive(Drop)]
pub(crate) struct ToldEnd<D: SectorDisk> {
    pub(crate) disk: D,
    pub(crate) calls: Vec<ToldCall>,
}

impl<D: SectorDisk> ToldDisk<D> {
    // Takes a disk, of which no call is reported yet.
    pub(crate) fn new(alloc: Global, disk: D) -> ToldDisk<D>
        ensures disk { told_on result ≡ disk }
        ensures calls { (calls_of result ≡ []) × (is_whole result ≡ true) }
    {
        ToldDisk {
            disk,
            calls: Vec::new(alloc),
            is_whole: true,
        }
    }

    // Reports a call, or notes that one is missing.
    fn tell(&mut self, call: ToldCall)
        ensures disk { told_on self.new ≡ told_on self.old }
        ensures told { IsTold call self.old self.new }
    {
        if self.calls.push(call).is_err() {
            self.is_whole = false;
        }
    }
}

impl<D: SectorDisk + Drop> ToldDisk<D> {
    // Returns the disk and the calls, in the order in which they were made.
    //
    // # Errors
    // If memory ran out for a call, which is then missing.
    pub(crate) fn end(self) -> Result<ToldEnd<D>, AllocError>
        ensures disk { IfOk result (λ end. end.disk ≡ told_on self) }
        ensures calls { IfOk result (λ end. (end.calls.items ≡ calls_of self) × (is_whole self ≡ true)) }
    {
        let ToldDisk {
            disk,
            calls,
            is_whole,
        } = self;
        if is_whole {
            Ok(ToldEnd { disk, calls })
        } else {
            Err(AllocError)
        }
    }
}

impl<D: SectorDisk> SectorDisk for ToldDisk<D> {
    ghost use Rattle.std.specs.Prelude.{◌<◌, IsTrue, OnOk, OnErr};
    ghost use Rattle.iol_disk.specs.Content.{reads, wrote, synced};
    ghost use Rattle.iol_disk.specs.Disk.{After, Same, WroteSome, FailsOnlyAs};

    ghost disk = { λ d. D.disk d.disk };

    fn sectors(&self) -> usize {
        self.disk.sectors()
    }

    /// Makes the read, which is not reported.
    fn read(&mut self, n: usize, octets: &mut [u8; SECTOR_OCTETS]) -> Result<(), DiskFault>
        requires { n < (D.disk (told_on self.old)).sectors }
        ensures read { OnOk result (IsTrue (D.disk (told_on self.old)).honest → octets.new
            ≡ reads (D.disk (told_on self.old)).content n) }
        ensures kept { OnErr result (octets.new ≡ octets.old) }
        ensures same { Same (D.disk (told_on self.old)) (D.disk (told_on self.new)) }
        ensures fault { FailsOnlyAs DiskFault.Read (D.disk (told_on self.old)) (D.disk (told_on self.new)) result }
        ensures untold { (calls_of self.new ≡ calls_of self.old) × (is_whole self.new ≡ is_whole self.old) }
    {
        self.disk.read(n, octets)
    }

    /// Reports the write, and makes it.
    #[tactic(auto, unfolding(iol_disk::specs::Gate::is_open))]
    fn write(&mut self, n: usize, octets: &[u8; SECTOR_OCTETS]) -> Result<(), DiskFault>
        requires { n < (D.disk (told_on self.old)).sectors }
        ensures wrote { OnOk result (After (wrote n octets.now) (D.disk (told_on self.old)) (D.disk (told_on self.new))) }
        ensures wrote_some { OnErr result (WroteSome n (D.disk (told_on self.old)) (D.disk (told_on self.new))) }
        ensures fault { FailsOnlyAs DiskFault.Write (D.disk (told_on self.old)) (D.disk (told_on self.new)) result }
        ensures told { IsTold (ToldCall.Write n (is_open octets.now)) self.old self.new }
    {
        let is_gate_open = octets.starts_with(&GATE_MARK);
        self.tell(ToldCall::Write {
            sector: n,
            is_gate_open,
        });
        self.disk.write(n, octets)
    }

    /// Reports the sync, and makes it.
    fn sync(&mut self) -> Result<(), DiskFault>
        ensures synced { OnOk result (After synced (D.disk (told_on self.old)) (D.disk (told_on self.new))) }
        ensures same { OnErr result (Same (D.disk (told_on self.old)) (D.disk (told_on self.new))) }
        ensures fault { FailsOnlyAs DiskFault.Sync (D.disk (told_on self.old)) (D.disk (told_on self.new)) result }
        ensures told { IsTold ToldCall.Sync self.old self.new }
    {
        self.tell(ToldCall::Sync);
        self.disk.sync()
    }
}
