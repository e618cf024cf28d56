//! Commits of one Configure each and the checkpoints between them, compared with the same writes and syncs of a
//! plain file.

use crate::measures::commands::configure;
use crate::measures::plain::{Files, Pair, nanoseconds_since, opened_file, timed_calls, writes_of};
use anyhow::{Context, bail};
use iol_disk::{DiskCall, MemoryDisk, RecordedDisk, SectorDisk};
use iol_example::{create, open, write};
use iol_journal::{CheckpointProgress, Geometry, Journal};
use std::alloc::Global;
use std::fs::File;
use std::time::Instant;

const PORTS: u16 = 8;

// An area of 8 ports keeps 16 of these slots.
const SLOTS: u16 = 20;
// A round has 16 commits and a checkpoint, ten times.
const COMMITS: usize = 160;

const CHECKPOINTS: usize = 10;
// A commit writes a sector of its body, syncs, writes its gate, and syncs.
const COMMIT_CALLS: usize = 4;

/// Times rounds of commits and checkpoints, and prints for each round what one commit and one checkpoint take.
pub(crate) fn measure_commits(
    rt: &HostRuntime,
    files: Files<'_>,
    rounds: usize,
) -> anyhow::Result<()> {
    let calls = calls_of_round(rt.alloc())?;
    println!(rt;
        "{rounds} rounds, each of {COMMITS} commits and {CHECKPOINTS} checkpoints: {PORTS} ports, {SLOTS} slots"
    )?;
    for _ in 0..rounds {
        let (commits, checkpoints) = costs_of_round(rt, files, calls.as_slice())?;
        commits.print(rt, "commit", COMMITS as u64)?;
        checkpoints.print(rt, "checkpoint", CHECKPOINTS as u64)?;
    }
    Ok(())
}

fn geometry() -> anyhow::Result<Geometry> {
    Geometry::new(PORTS, SLOTS).context("no geometry")
}

// Returns the journal after one more Configure or, if no slot is free, after a checkpoint.
fn advanced<D: SectorDisk + Drop>(
    alloc: Global,
    journal: Journal<D>,
) -> anyhow::Result<Journal<D>> {
    if !journal.has_free_slot() {
        return checkpointed(journal);
    }
    match write(alloc, journal, configure(1)?) {
        Ok(journal) => Ok(journal),
        Err(_) => bail!("a command is not written"),
    }
}

// Returns the journal after a checkpoint, if it has no free slot.
fn checkpointed<D: SectorDisk + Drop>(journal: Journal<D>) -> anyhow::Result<Journal<D>> {
    if journal.has_free_slot() {
        return Ok(journal);
    }
    let mut checkpointing = match journal.checkpoint() {
        Ok(checkpointing) => checkpointing,
        Err(_) => bail!("out of memory"),
    };
    loop {
        match checkpointing.step() {
            CheckpointProgress::More(next) => checkpointing = next,
            CheckpointProgress::Done(journal) => return Ok(journal),
            CheckpointProgress::Failed(_, _) => bail!("a checkpoint failed"),
        }
    }
}

// Returns the writes and syncs of a round, recorded on a disk in memory: they are the same on every disk.
fn calls_of_round(alloc: Global) -> anyhow::Result<Vec<DiskCall>> {
    let disk = MemoryDisk::new(alloc, geometry()?.sectors())?;
    let Ok(journal) = create(alloc, disk, geometry()?) else {
        bail!("no journal in memory")
    };
    let Ok((mut journal, _)) = open(alloc, RecordedDisk::new(alloc, journal.disk())) else {
        bail!("no journal in memory")
    };
    for _ in 0..COMMITS + CHECKPOINTS {
        journal = advanced(alloc, journal)?;
    }
    Ok(writes_of(alloc, journal.disk().calls().as_slice())?)
}

// Times a round on new files: each commit or checkpoint, followed by the same calls of a plain file.
fn costs_of_round(
    rt: &HostRuntime,
    files: Files<'_>,
    calls: &[DiskCall],
) -> anyhow::Result<(Pair, Pair)> {
    let journal = files.make(rt, geometry()?)?;
    let costs = costs_of(rt, journal, &opened_file(rt, files.plain)?, calls)?;
    files.remove(rt)?;
    Ok(costs)
}

// Times the commits and the checkpoints of a round.
fn costs_of<D: SectorDisk + Drop>(
    rt: &HostRuntime,
    mut journal: Journal<D>,
    file: &File,
    calls: &[DiskCall],
) -> anyhow::Result<(Pair, Pair)> {
    let checkpoint_calls = calls.len().saturating_sub(COMMITS * COMMIT_CALLS) / CHECKPOINTS;
    let mut commits = Pair {
        journal: 0,
        plain: 0,
    };
    let mut checkpoints = commits;
    let mut left = calls;
    for _ in 0..COMMITS + CHECKPOINTS {
        let commits_now = journal.has_free_slot();
        let count = if commits_now {
            COMMIT_CALLS
        } else {
            checkpoint_calls
        };
        let (next, behind) = left.split_at(count.min(left.len()));
        left = behind;
        let start = Instant::now(rt)?;
        journal = advanced(rt.alloc(), journal)?;
        let own = nanoseconds_since(rt, start)?;
        let plain = timed_calls(rt, file, next)?;
        if commits_now {
            commits = commits.plus(own, plain);
        } else {
            checkpoints = checkpoints.plus(own, plain);
        }
    }
    Ok((commits, checkpoints))
}
