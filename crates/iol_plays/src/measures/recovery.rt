//! The recovery of the largest journal, compared with plain reads of its file: 32 ports, each with a parameter set that
//! counts 4,096 octets, and 256 slots, of which an area keeps 240, all used.

use crate::measures::commands::{configure, largest_set};
use crate::measures::plain::{Pair, nanoseconds_since, opened_file, timed_calls};
use anyhow::{Context, bail};
use iol_disk::{DiskCall, ImageFile, RecordedDisk, SectorDisk};
use iol_example::{create, open, write};
use iol_journal::Geometry;
use iol_types::{Command, DataSet, PORTS, PortId};
use std::alloc::{AllocError, Global};
use std::fs;
use std::sync::Arc;
use std::time::Instant;

const SLOTS: u16 = 256;
// An area gives up 16 of these slots for the records of 32 ports.
const KEPT_SLOTS: u16 = 240;

/// Times recoveries, and prints what each takes, compared with a plain read of the sectors that a recovery reads, and with
/// one of all sectors. Each plain read is a sector at a time and in order.
pub(crate) fn measure_recovery(rt: &HostRuntime, path: &str, rounds: usize) -> anyhow::Result<()> {
    let geometry = Geometry::new(u16::from(PORTS), SLOTS).context("no geometry")?;
    let sectors = geometry.sectors();
    let disk = ImageFile::create(rt, path, sectors)?;
    write_largest(rt.alloc(), disk, geometry)?;
    time_own_reads(rt, path, sectors, rounds)?;
    let all = all_sectors(rt.alloc(), sectors)?;
    time(
        rt,
        "recovery beside a read of the whole file",
        path,
        &all,
        rounds,
    )?;
    fs::remove_file(rt, path)?;
    Ok(())
}

fn time_own_reads(
    rt: &HostRuntime,
    path: &str,
    sectors: usize,
    rounds: usize,
) -> anyhow::Result<()> {
    let calls = calls_of_recovery(rt, path)?;
    println!(rt;
        "recovery of {sectors} sectors: {} disk calls, one of them a sync",
        calls.len()
    )?;
    time(rt, "recovery beside its reads", path, &calls, rounds)
}

// Returns the command of this turn: first every port is configured, then each gets the set, one after another.
fn command(turn: u16, set: &Arc<DataSet>) -> anyhow::Result<Command> {
    let port = (turn % u16::from(PORTS)) as u8 + 1;
    if turn < u16::from(PORTS) {
        return configure(port);
    }
    Ok(Command::Store {
        port: PortId::new(port).context("no port number")?,
        revision: 1,
        set: Arc::try_clone(set)?,
    })
}

// Writes the largest journal on a disk: a command in each slot of one area, and then in each slot of the other.
fn write_largest<D: SectorDisk + Drop>(
    alloc: Global,
    disk: D,
    geometry: Geometry,
) -> anyhow::Result<()> {
    let set = Arc::new(alloc, largest_set(alloc)?)?;
    let Ok(mut journal) = create(alloc, disk, geometry) else {
        bail!("no largest journal")
    };
    for turn in 0..2 * KEPT_SLOTS {
        journal = match write(alloc, journal, command(turn, &set)?) {
            Ok(journal) => journal,
            Err(_) => bail!("a command is not written"),
        };
    }
    Ok(())
}

// Returns the disk calls that a recovery makes.
fn calls_of_recovery(rt: &HostRuntime, path: &str) -> anyhow::Result<Vec<DiskCall>> {
    match open(
        rt.alloc(),
        RecordedDisk::new(rt.alloc(), ImageFile::open(rt, path)?),
    ) {
        Ok((journal, _)) => Ok(journal.disk().calls()),
        Err(_) => bail!("no recovery"),
    }
}

// Returns a sync, and a read of each sector.
fn all_sectors(alloc: Global, sectors: usize) -> Result<Vec<DiskCall>, AllocError> {
    let mut calls = Vec::from_array(alloc, [DiskCall::Sync])?;
    for n in 0..sectors {
        calls.push(DiskCall::Read(n))?;
    }
    Ok(calls)
}

// Times this number of recoveries, each followed by the calls of a plain file, and prints what they took.
fn time(
    rt: &HostRuntime,
    name: &str,
    path: &str,
    calls: &[DiskCall],
    rounds: usize,
) -> anyhow::Result<()> {
    let file = opened_file(rt, path)?;
    for _ in 0..rounds {
        let disk = ImageFile::open(rt, path)?;
        let start = Instant::now(rt)?;
        let found = open(rt.alloc(), disk);
        let journal = nanoseconds_since(rt, start)?;
        if found.is_err() {
            bail!("no recovery");
        }
        drop(found);
        let plain = timed_calls(rt, &file, calls)?;
        Pair { journal, plain }.print(rt, name, 1)?;
    }
    Ok(())
}
