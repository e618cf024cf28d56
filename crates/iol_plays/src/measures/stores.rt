//! The largest sets of 32 ports made durable: all in one batch over several slots, and one by one, each compared with the same
//! calls of a plain file.

use crate::measures::commands::{configure, largest_set};
use crate::measures::plain::{Files, Pair, nanoseconds_since, opened_file, timed_calls, writes_of};
use anyhow::{Context, bail};
use iol_disk::{DiskCall, MemoryDisk, RecordedDisk, SectorDisk};
use iol_example::{create, open};
use iol_journal::{Batch, Geometry, Journal, Progress};
use iol_types::{Command, DataSet, PORTS, PortId};
use std::alloc::Global;
use std::sync::Arc;
use std::time::Instant;

// All sets fit one area, even if each has a slot of its own.
const SLOTS: u16 = 64;

/// Times rounds in which 32 sets are made durable, `each` of them in each batch. Prints for each round what all of them took.
pub(crate) fn measure_stores(
    rt: &HostRuntime,
    files: Files<'_>,
    rounds: usize,
    name: &str,
    each: u8,
) -> anyhow::Result<()> {
    let calls = calls_of_stores(rt.alloc(), each)?;
    let syncs = calls.iter().filter(|call| **call == DiskCall::Sync).count();
    println!(rt; "{name}: {} disk calls, {syncs} of them syncs", calls.len())?;
    for _ in 0..rounds {
        cost_of_stores(rt, files, each, calls.as_slice())?.print(rt, name, 1)?;
    }
    Ok(())
}

fn geometry() -> anyhow::Result<Geometry> {
    Geometry::new(u16::from(PORTS), SLOTS).context("no geometry")
}

// Returns the journal after a batch.
fn written<D: SectorDisk + Drop>(
    journal: Journal<D>,
    commands: Vec<Command>,
) -> anyhow::Result<Journal<D>> {
    let first = journal.number() + 1;
    let mut writing = match journal.begin(Batch { first, commands }) {
        Ok(writing) => writing,
        Err(_) => bail!("a batch is refused"),
    };
    loop {
        match writing.step() {
            Progress::More(next) => writing = next,
            Progress::Done(journal, written) => {
                let _batch = written.into_batch();
                return Ok(journal);
            }
            Progress::Failed(_, _) => bail!("a disk call failed"),
        }
    }
}

// Returns the journal once each port is configured.
fn configured<D: SectorDisk + Drop>(
    alloc: Global,
    journal: Journal<D>,
) -> anyhow::Result<Journal<D>> {
    let mut commands = Vec::new(alloc);
    for port in 1..=PORTS {
        commands.push(configure(port)?)?;
    }
    written(journal, commands)
}

// Returns the journal once each port has the set, with `each` ports in each batch.
fn stored<D: SectorDisk + Drop>(
    alloc: Global,
    mut journal: Journal<D>,
    set: &Arc<DataSet>,
    each: u8,
) -> anyhow::Result<Journal<D>> {
    let mut commands = Vec::new(alloc);
    for port in 1..=PORTS {
        commands.push(Command::Store {
            port: PortId::new(port).context("no port number")?,
            revision: 1,
            set: Arc::try_clone(set)?,
        })?;
        if port % each.max(1) == 0 {
            journal = written(journal, commands)?;
            commands = Vec::new(alloc);
        }
    }
    Ok(journal)
}

// Returns the disk calls that store the sets, recorded on a disk in memory: they are the same on every disk.
fn calls_of_stores(alloc: Global, each: u8) -> anyhow::Result<Vec<DiskCall>> {
    let set = Arc::new(alloc, largest_set(alloc)?)?;
    let disk = MemoryDisk::new(alloc, geometry()?.sectors())?;
    let Ok(journal) = create(alloc, disk, geometry()?) else {
        bail!("no journal in memory")
    };
    let disk = configured(alloc, journal)?.disk();
    let Ok((journal, _)) = open(alloc, RecordedDisk::new(alloc, disk)) else {
        bail!("no journal in memory")
    };
    let calls = stored(alloc, journal, &set, each)?.disk().calls();
    Ok(writes_of(alloc, calls.as_slice())?)
}

// Times the sets on a new file, and then the same calls of a plain file.
fn cost_of_stores(
    rt: &HostRuntime,
    files: Files<'_>,
    each: u8,
    calls: &[DiskCall],
) -> anyhow::Result<Pair> {
    let journal = configured(rt.alloc(), files.make(rt, geometry()?)?)?;
    let journal = time_of_stores(rt, journal, each)?;
    let plain = timed_calls(rt, &opened_file(rt, files.plain)?, calls)?;
    files.remove(rt)?;
    Ok(Pair { journal, plain })
}

// Returns the nanoseconds that the sets take.
fn time_of_stores<D: SectorDisk + Drop>(
    rt: &HostRuntime,
    journal: Journal<D>,
    each: u8,
) -> anyhow::Result<u64> {
    let set = Arc::new(rt.alloc(), largest_set(rt.alloc())?)?;
    let start = Instant::now(rt)?;
    let _journal = stored(rt.alloc(), journal, &set, each)?;
    Ok(nanoseconds_since(rt, start)?)
}
