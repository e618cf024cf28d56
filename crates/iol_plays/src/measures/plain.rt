//! The calls of a plain file, of the same sectors as those of a journal and in the same order, and the times
//! of both.

use anyhow::bail;
use iol_disk::{DiskCall, ImageFile, SECTOR_OCTETS};
use iol_example::create;
use iol_journal::{Geometry, Journal};
use std::alloc::{AllocError, Global};
use std::fs::{self, File};
use std::io;
use std::os::unix::fs::FileExt;
use std::time::Instant;

/// The times that a journal and a plain file took, in nanoseconds.
#[derive(Clone, Copy)]
pub(crate) struct Pair {
    pub(crate) journal: u64,
    pub(crate) plain: u64,
}

impl Pair {
    /// Returns both times, with these added.
    pub(crate) fn plus(self, journal: u64, plain: u64) -> Pair {
        Pair {
            journal: self.journal.saturating_add(journal),
            plain: self.plain.saturating_add(plain),
        }
    }

    /// Prints what one of `count` took.
    pub(crate) fn print(self, rt: &HostRuntime, name: &str, count: u64) -> io::Result<()> {
        let count = count.max(1);
        println!(rt; "{name}: {} {}", self.journal / count, self.plain / count)
    }
}

/// The paths of the files of a measurement: a journal's image, and a plain file of the same size.
#[derive(Clone, Copy)]
pub(crate) struct Files<'a> {
    pub(crate) image: &'a str,
    pub(crate) plain: &'a str,
}

impl Files<'_> {
    /// Makes both files, with an empty journal on the image.
    pub(crate) fn make(
        self,
        rt: &HostRuntime,
        geometry: Geometry,
    ) -> anyhow::Result<Journal<ImageFile<File>>> {
        let sectors = geometry.sectors();
        let _plain = ImageFile::create(rt, self.plain, sectors)?;
        let disk = ImageFile::create(rt, self.image, sectors)?;
        match create(rt.alloc(), disk, geometry) {
            Ok(journal) => Ok(journal),
            Err(_) => bail!("no journal on a new file"),
        }
    }

    /// Removes both files.
    pub(crate) fn remove(self, rt: &HostRuntime) -> io::Result<()> {
        fs::remove_file(rt, self.image)?;
        fs::remove_file(rt, self.plain)
    }
}

/// Opens a file for reading and writing.
pub(crate) fn opened_file(rt: &HostRuntime, path: &str) -> io::Result<File> {
    File::options().read(true).write(true).open(rt, path)
}

/// Makes these calls of a file, and returns the number of nanoseconds that they took. What is written does
/// not matter.
pub(crate) fn timed_calls(rt: &HostRuntime, file: &File, calls: &[DiskCall]) -> io::Result<u64> {
    let mut octets = [0x5A; SECTOR_OCTETS];
    let start = Instant::now(rt)?;
    for call in calls {
        match *call {
            DiskCall::Read(n) => file.read_exact_at(&mut octets, first_octet(n))?,
            DiskCall::Write(n) => file.write_all_at(&octets, first_octet(n))?,
            DiskCall::Sync => file.sync_all()?,
        }
    }
    nanoseconds_since(rt, start)
}

/// Returns the writes and syncs of a disk, without the sync and the reads that opened it.
pub(crate) fn writes_of(alloc: Global, calls: &[DiskCall]) -> Result<Vec<DiskCall>, AllocError> {
    let writes = calls
        .iter()
        .copied()
        .filter(|call| !matches!(call, DiskCall::Read(_)));
    writes.skip(1).collect(alloc)
}

/// Returns the nanoseconds since an instant.
pub(crate) fn nanoseconds_since(rt: &HostRuntime, start: Instant) -> io::Result<u64> {
    let elapsed = start.elapsed(rt)?;
    Ok(u64::try_from(elapsed.as_nanos()).unwrap_or(u64::MAX))
}

// Returns the place of the first octet of a sector.
fn first_octet(n: usize) -> u64 {
    (n as u64).saturating_mul(SECTOR_OCTETS as u64)
}
