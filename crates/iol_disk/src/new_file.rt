//! Fills a new file with zeros and makes it durable.

ghost use Rattle.std.specs.Prelude.{◌≡◌, ◌≤◌, ◌*◌, ◌^◌, None, IfSome};
ghost use Rattle.iol_disk.specs.declared.disk.TheConstants.{SECTOR_OCTETS};

use crate::disk::SECTOR_OCTETS;
use std::fs::{File, OpenFile};
use std::io;
use std::os::unix::fs::FileExt;
use std::path::Path;
use std::rt::Files;

// The number of octets written at a time.
const PIECE_OCTETS: usize = 64 * SECTOR_OCTETS;

// A file has fewer octets than this.
const TOO_MANY_OCTETS: u64 = 1 << 63;

// The file size for `sectors`, or `None` if it is too large.
pub(crate) fn octets_of(sectors: usize) -> Option<u64>
    ensures some { IfSome result (λ octets. octets ≡ sectors * SECTOR_OCTETS) }
    ensures none { 2 ^ 63 ≤ sectors * SECTOR_OCTETS → result ≡ None }
{
    let octets = (sectors as u64).checked_mul(SECTOR_OCTETS as u64)?;
    if octets < TOO_MANY_OCTETS {
        Some(octets)
    } else {
        None
    }
}

// Writes `octets` zeros from the first octet on.
pub(crate) fn write_zeros<F: FileExt>(file: &F, octets: u64) -> io::Result<()> {
    let zeros = [0; PIECE_OCTETS];
    for place in (0..octets).step_by(PIECE_OCTETS) {
        let left = octets.saturating_sub(place);
        let piece = left.min(PIECE_OCTETS as u64) as usize;
        file.write_all_at(&zeros[..piece], place)?;
    }
    Ok(())
}

// Makes a new file durable, and its entry in the folder too.
pub(crate) fn settle<R: Files>(rt: &R, file: &R::File, path: &str) -> io::Result<()> {
    file.sync_all()?;
    let folder = match Path::new(path).parent() {
        Some(folder) if folder.to_str() != Some("") => folder,
        _ => Path::new("."),
    };
    File::open(rt, folder)?.sync_all()
}
