//! An example: two clients of one running master, in threads of their own, and what a third reads after their receipts.
//!
//! A disk in memory is formatted for two ports, and a master is started over it, without devices at its ports. Each client
//! configures a port and returns its receipt. The third meets both receipts, so what it reads is no older than what the two
//! requested.
ghost use Rattle.std.specs.Prelude.{◌≡◌, []};
ghost use Rattle.iol_flush.specs.Stages.{HasHistory};

use crate::behind::{Granted, configuring, read_behind};
use anyhow::bail;
use iol_disk::MemoryDisk;
use iol_front::{Front, Name};
use iol_journal::{Geometry, Journal, format};
use iol_master::{Client, Ending, Master};
use iol_sim::SimLink;
use iol_types::MasterState;
use std::alloc::Global;
use std::io::Write;
use std::marker::Brand;
use std::rt::Stdout;
use std::sync::Wait;
use std::thread::Threads;
use std::time::Clock;

const PORTS: u16 = 2;

/// Makes a disk with an empty journal of two ports and four slots.
pub(crate) fn formatted(alloc: Global) -> anyhow::Result<MemoryDisk> {
    let Some(geometry) = Geometry::new(PORTS, 4) else {
        bail!("no geometry")
    };
    let mut disk = MemoryDisk::new(alloc, geometry.sectors())?;
    format(alloc, &mut disk, geometry)?;
    Ok(disk)
}

// Makes the links of two ports, at which no device ever is.
fn unplugged(alloc: Global) -> anyhow::Result<Vec<SimLink>> {
    let mut links = Vec::new(alloc);
    for _port in 0..PORTS {
        links.push(SimLink::new(Vec::new(alloc)))?;
    }
    Ok(links)
}

// Runs a master of these two ports, until its clients have their receipts and a third client has read after them.
fn play<F: Name + 'static, R: Threads + Wait + Clock + Copy + Send + 'static>(
    rt: &R,
    alloc: Global,
    front: Front,
    journal: Journal<MemoryDisk>,
    state: MasterState,
    out: &mut Stdout,
) -> anyhow::Result<()>
    requires name { front ≡ F.front }
    requires state { state ≡ front.start.state }
    requires history { HasHistory front.start [] journal.history }
{
    let links = unplugged(alloc)?;
    let publisher = front.publisher::<F>();
    let Ok(mut master) = Master::start(rt, alloc, journal, state, publisher, links) else {
        bail!("no master")
    };
    let read = ask::<F, R>(rt, &mut master, out);
    end(rt, master, out)?;
    read
}

// Ends the master, and prints the number of commands after which it closed.
fn end<F: Name + 'static, R: Threads + Wait>(
    rt: &R,
    master: Master<MemoryDisk, F>,
    out: &mut Stdout,
) -> anyhow::Result<()> {
    let number = match master.shutdown(rt) {
        Ending::Closed(journal, _) => journal.number(),
        Ending::Unwritten(_, _) => bail!("out of memory"),
        Ending::Faulted(_, _) => bail!("the disk failed"),
    };
    writeln!(out, "closed behind {number} commands")?;
    Ok(())
}

// Has two clients configure a port each, at once, and a third read both ports after their receipts.
fn ask<F: Name + 'static, R: Threads + Wait + Copy + Send + 'static>(
    rt: &R,
    master: &mut Master<MemoryDisk, F>,
    out: &mut Stdout,
) -> anyhow::Result<()> {
    let (first, second) = configured::<F, R>(rt, master)?;
    let mut third = master.client()?;
    tell(rt, &mut third, first, out)?;
    tell(rt, &mut third, second, out)
}

// Returns the receipts of two clients, each of which configures a port in a thread of its own.
fn configured<F: Name + 'static, R: Threads + Wait + Copy + Send + 'static>(
    rt: &R,
    master: &mut Master<MemoryDisk, F>,
) -> anyhow::Result<(Granted<F>, Granted<F>)> {
    let first = configuring(rt, master.client()?, 1)?;
    let second = configuring(rt, master.client()?, 2)?;
    match (first.join(rt), second.join(rt)) {
        (Some(first), Some(second)) => Ok((first, second)),
        _ => bail!("a client without a receipt"),
    }
}

// Prints what a client reads of the port of a receipt, once it has met that receipt.
fn tell<F: Name, R: Wait>(
    rt: &R,
    client: &mut Client<F>,
    granted: Granted<F>,
    out: &mut Stdout,
) -> anyhow::Result<()> {
    let mut granted = granted;
    let port = granted.port();
    let view = read_behind(rt, client, &mut granted, port)?;
    let (number, revision) = (port.number(), view.port.revision());
    writeln!(out, "port {number} has revision {revision}")?;
    Ok(())
}

/// Plays the example on a disk in memory, and prints what the third client reads and how the master ends.
pub(crate) fn play_two_clients<R: Threads + Wait + Clock + Copy + Send + 'static>(
    rt: &R,
    alloc: Global,
    out: &mut Stdout,
) -> anyhow::Result<()> {
    let (journal, state) = match Journal::recover(alloc, formatted(alloc)?) {
        Ok(found) => found,
        Err(_) => bail!("no recovery"),
    };
    let front = Front::new(alloc, journal.number(), &state)?;
    play::<Brand, R>(rt, alloc, front, journal, state, out)
}
