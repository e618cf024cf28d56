//! A disk in memory.

use crate::cells::Cells;
use crate::disk::{SECTOR_OCTETS, SectorDisk};
use crate::fault::DiskFault;
use crate::pick::Pick;
use crate::undo::{Replaced, keep};
use std::alloc::{AllocError, Global};

/// A disk in memory, for tests and trials. It is honest, and it can be stopped.
///
/// It keeps the octets that each sync replaced, so that contracts can describe what a stop at an earlier moment might
/// have left. A sync fails if it is out of memory for these octets; no other call fails. A sync takes time and memory
/// for the sectors written since the last one, and a write allocates no memory.
#[derive(Drop)]
pub struct MemoryDisk {
    alloc: Global,
    cells: Cells,
    past: Vec<Vec<Replaced>>,
    failures: u64,
}

impl MemoryDisk {
    ghost use Rattle.std.specs.Prelude.{◌≡◌, IfOk};
    ghost use Rattle.iol_disk.specs.Content.{Image, IsImage, reads};
    ghost use Rattle.iol_disk.specs.Fresh.{IsFresh};
    ghost use Rattle.iol_disk.specs.Stops.{IsAfterStop};
    ghost use Rattle.iol_disk.specs.Memory.{memory_disk};

    /// Makes a disk of `sectors` sectors of zeros. Fails if out of memory.
    pub fn new(alloc: Global, sectors: usize) -> Result<MemoryDisk, AllocError>
        ensures { IfOk result (λ disk. IsFresh sectors (memory_disk disk)) }
    {
        Ok(MemoryDisk {
            alloc,
            cells: Cells::new(alloc, sectors)?,
            past: Vec::new(alloc),
            failures: 0,
        })
    }

    /// Returns the disk after a power stop; `pick` says what it leaves of each sector written since the last sync.
    pub fn stop(self, pick: Pick) -> MemoryDisk
        ensures stopped { IsAfterStop pick (memory_disk self) (memory_disk result) }
        // What the stopped disk reads as is an image of the disk before the stop, and its only image after it.
        ensures image { IsImage (memory_disk self).content (reads (memory_disk result).content) }
        ensures only { (image : Image) → IsImage (memory_disk result).content image → image ≡ reads (memory_disk result).content }
    {
        let MemoryDisk {
            alloc,
            mut cells,
            past: _,
            failures,
        } = self;
        cells.stop(pick);
        MemoryDisk {
            alloc,
            cells,
            past: Vec::new(alloc),
            failures,
        }
    }
}

impl SectorDisk for MemoryDisk {
    ghost use Rattle.std.specs.Prelude.{◌≡◌, ◌<◌, IsTrue, IsOk, OnOk, OnErr};
    ghost use Rattle.iol_disk.specs.Content.{reads, wrote};
    ghost use Rattle.iol_disk.specs.Disk.{After, Same, WroteSome, FailsOnlyAs};
    ghost use Rattle.iol_disk.specs.declared.fault.DiskFault.{DiskFault};
    ghost use Rattle.iol_disk.specs.Memory.{memory_disk};

    ghost disk = { memory_disk };

    fn sectors(&self) -> usize {
        self.cells.len()
    }

    /// Reads sector `n`, and never fails.
    fn read(&mut self, n: usize, octets: &mut [u8; SECTOR_OCTETS]) -> Result<(), DiskFault>
        requires { n < (memory_disk self.old).sectors }
        ensures works { IsOk result }
        ensures read { OnOk result (IsTrue (memory_disk self.old).honest → octets.new ≡ reads (memory_disk self.old).content n) }
        ensures kept { OnErr result (octets.new ≡ octets.old) }
        ensures same { Same (memory_disk self.old) (memory_disk self.new) }
        ensures fault { FailsOnlyAs DiskFault.Read (memory_disk self.old) (memory_disk self.new) result }
    {
        *octets = self.cells.read(n);
        Ok(())
    }

    /// Writes sector `n`, allocates no memory, and never fails.
    fn write(&mut self, n: usize, octets: &[u8; SECTOR_OCTETS]) -> Result<(), DiskFault>
        requires { n < (memory_disk self.old).sectors }
        ensures works { IsOk result }
        ensures wrote { OnOk result (After (wrote n octets.now) (memory_disk self.old) (memory_disk self.new)) }
        ensures wrote_some { OnErr result (WroteSome n (memory_disk self.old) (memory_disk self.new)) }
        ensures fault { FailsOnlyAs DiskFault.Write (memory_disk self.old) (memory_disk self.new) result }
    {
        self.cells.write(n, octets);
        Ok(())
    }

    fn sync(&mut self) -> Result<(), DiskFault> {
        match keep(self.alloc, &self.cells, &mut self.past) {
            Ok(()) => {
                self.cells.settle();
                Ok(())
            }
            Err(AllocError) => {
                self.failures = self.failures.saturating_add(1);
                Err(DiskFault::Sync)
            }
        }
    }
}
