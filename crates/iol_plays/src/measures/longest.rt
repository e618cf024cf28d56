//! Commits of one Configure each through an engine and its flusher, one after another, on a journal of 32 ports and 256 slots.

ghost use Rattle.std.specs.Prelude.{◌≡◌, []};

use crate::clients::empty_links;
use crate::measures::commands::config;
use crate::measures::plain::nanoseconds_since;
use anyhow::{Context, bail};
use iol_disk::{ImageFile, SectorDisk};
use iol_engine::Event;
use iol_example::create;
use iol_front::{Front, Name};
use iol_journal::{Geometry, Journal};
use iol_run::{EngineOnDisk, Turn, Turned};
use iol_types::{Change, MasterState, PORTS, PortId};
use std::fs;
use std::marker::Brand;
use std::time::Instant;

const SLOTS: u16 = 256;

const COMMITS: usize = 10_000;
// A commit has fewer turns of the flusher than this, also after a checkpoint of all ports.
const MOST_TURNS: usize = 100_000;

/// Makes commits with `turns` turns of the flusher between two of them, and prints for each the nanoseconds until it was acknowledged.
pub(crate) fn time_commits(rt: &HostRuntime, folder: &str, turns: u32) -> anyhow::Result<()> {
    let image = format!(in rt.alloc(); "{folder}/measured_image")?;
    let geometry = Geometry::new(u16::from(PORTS), SLOTS).context("no geometry")?;
    let disk = ImageFile::create(rt, image.as_str(), geometry.sectors())?;
    let Ok(journal) = create(rt.alloc(), disk, geometry) else {
        bail!("no journal on a new file")
    };
    let Ok((journal, state)) = Journal::recover(rt.alloc(), journal.disk()) else {
        bail!("a journal is not recovered")
    };
    let front = Front::new(rt.alloc(), journal.number(), &state)?;
    commit_all::<Brand, _>(rt, front, journal, state, turns)?;
    fs::remove_file(rt, image.as_str())?;
    Ok(())
}

// Makes all commits through an engine and its flusher over the journal.
fn commit_all<F: Name, D: SectorDisk + Drop>(
    rt: &HostRuntime,
    front: Front,
    journal: Journal<D>,
    state: MasterState,
    turns: u32,
) -> anyhow::Result<()>
    requires name { front ≡ F.front }
    requires number { front.start.number ≡ journal.history.first }
    requires state { (front.start.state ≡ journal.history.start) × (state ≡ journal.history.start) }
    requires list { journal.history.commands ≡ [] }
{
    let links = empty_links(rt.alloc(), state.ports())?;
    if links.len() != usize::from(state.ports()) {
        bail!("another count of ports")
    }
    let Ok(mut master) = EngineOnDisk::<D, F>::new(rt.alloc(), front, journal, state, &links) else {
        bail!("out of memory")
    };
    let printed = print_commits(rt, &mut master, turns);
    let (_disk, _state) = master.end();
    printed
}

// Makes commits, and prints what each took.
fn print_commits<D: SectorDisk, F: Name>(
    rt: &HostRuntime,
    master: &mut EngineOnDisk<D, F>,
    turns: u32,
) -> anyhow::Result<()> {
    for _ in 0..COMMITS {
        let took = commit(rt, master)?;
        println!(rt; "{took}")?;
        for _ in 0..turns {
            master.turn();
        }
    }
    Ok(())
}

// Makes a commit, and returns the nanoseconds from its Configure to its acknowledgement.
fn commit<D: SectorDisk, F: Name>(
    rt: &HostRuntime,
    master: &mut EngineOnDisk<D, F>,
) -> anyhow::Result<u64> {
    let port = PortId::new(1).context("no port number")?;
    let config = config()?;
    let start = Instant::now(rt)?;
    if !matches!(
        master.submit(Change::Configure { port, config }),
        Event::Accepted { .. }
    ) {
        bail!("a change is refused")
    }
    for _ in 0..MOST_TURNS {
        let Turn { turned, event } = master.turn();
        if matches!(event, Some(Event::Acknowledged { .. })) {
            return Ok(nanoseconds_since(rt, start)?);
        }
        if turned != Turned::Made {
            break;
        }
    }
    bail!("a change is not made durable")
}
