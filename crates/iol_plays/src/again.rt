//! Two masters, one after another, on a disk in memory of which one call fails.

use crate::clients::{empty_links, meeting, play_clients};
use crate::two_clients::formatted;
use iol_disk::{DiskFault, FaultDisk, MemoryDisk};
use std::alloc::Global;
use std::io::Input;
use std::rt::Stdout;
use std::sync::Wait;
use std::thread::Threads;
use std::time::Clock;

/// Runs a master on a new disk of which one call of a kind fails: the `nth`, counted from the recovery. Then runs a second master on
/// the disk that the first returns, and returns that disk. Prints what the clients of each are answered, and how each ends.
pub(crate) fn play_again<R: Threads + Wait + Clock + Input + Copy + Send + 'static>(
    rt: &R,
    alloc: Global,
    kind: &str,
    nth: u64,
    words: &[String],
    out: &mut Stdout,
) -> anyhow::Result<MemoryDisk> {
    let disk = FaultDisk::new(formatted(alloc)?, fault_named(kind), nth);
    let disk = serve(rt, alloc, disk, words, out)?;
    let disk = serve(rt, alloc, disk, words, out)?;
    Ok(disk.disk())
}

// Returns the fault of a disk call, by the name of the call.
fn fault_named(kind: &str) -> DiskFault {
    match kind {
        "read" => DiskFault::Read,
        "write" => DiskFault::Write,
        _ => DiskFault::Sync,
    }
}

// Runs a master without devices at its ports, and returns the disk that it leaves.
fn serve<R: Threads + Wait + Clock + Input + Copy + Send + 'static>(
    rt: &R,
    alloc: Global,
    disk: FaultDisk<MemoryDisk>,
    words: &[String],
    out: &mut Stdout,
) -> anyhow::Result<FaultDisk<MemoryDisk>> {
    let links = meeting(alloc, empty_links(alloc, 2)?, 0)?;
    play_clients(rt, alloc, disk, links, words, out)
}
