//! The steps of a script, made on a new disk in memory, and what is found on the disk after a power stop.

use iol_commands::{links_of, read_playable};
use iol_disk::{MemoryDisk, Pick};
use iol_engine::Event;
use iol_journal::{Journal, RecoverFault, format};
use iol_run::{RunFault, Stamped, Task, Trace, run_schedule};
use iol_script::Step;
use iol_sim::SimLink;
use iol_texts::Recovered;
use iol_types::MasterState;
use std::alloc::{AllocError, Global};

/// Makes the steps of a script, and prints how they ended and what the disk then holds.
pub(crate) fn play_schedule(rt: &HostRuntime, script: &[u8]) -> anyhow::Result<()> {
    let ready = read_playable(rt.alloc(), script)?;
    let mut disk = MemoryDisk::new(rt.alloc(), ready.geometry.sectors())?;
    if let Err(fault) = format(rt.alloc(), &mut disk, ready.geometry) {
        println!(rt; "no format {fault:?}")?;
        return show(rt, disk);
    }
    let links = links_of(rt.alloc(), &ready.script.devices, ready.geometry.ports())?;
    let disk = play(rt, &ready.script.steps, links, disk)?;
    show(rt, disk)
}

// Makes the steps on a disk, prints how they ended, and returns the disk.
fn play(
    rt: &HostRuntime,
    steps: &[Step],
    links: Vec<SimLink>,
    disk: MemoryDisk,
) -> anyhow::Result<MemoryDisk> {
    let tasks = tasks_of(rt.alloc(), steps)?;
    match run_schedule(rt.alloc(), disk, links, &tasks) {
        Ok(trace) => told(rt, trace),
        Err(fault) => without_run(rt, fault),
    }
}

// Prints what a run has reported, and returns its disk.
fn told(rt: &HostRuntime, trace: Trace<MemoryDisk, SimLink>) -> anyhow::Result<MemoryDisk> {
    tell(rt, trace.events.as_slice())?;
    println!(rt; "ended {:?}, {} waits", trace.ended, trace.waits)?;
    Ok(trace.disk)
}

// Returns the tasks of steps, in their order.
fn tasks_of(alloc: Global, steps: &[Step]) -> Result<Vec<Task>, AllocError> {
    let mut tasks = Vec::with_capacity(alloc, steps.len())?;
    for step in steps {
        tasks.push(match *step {
            Step::Ask(change) => Task::Client(change),
            Step::Port { port, times } => Task::Port { port, times },
            Step::Flush { times } => Task::Flush { times },
            Step::Drain => Task::Drain,
        })?;
    }
    Ok(tasks)
}

// Prints why no run was made, and returns its disk.
fn without_run(rt: &HostRuntime, fault: RunFault<MemoryDisk>) -> anyhow::Result<MemoryDisk> {
    match fault {
        RunFault::Recover(RecoverFault { cause, disk }) => {
            println!(rt; "no run Recover {cause:?}")?;
            Ok(disk)
        }
        RunFault::Ports(disk) => {
            println!(rt; "no run Ports")?;
            Ok(disk)
        }
        RunFault::Memory(disk) => {
            println!(rt; "no run Memory")?;
            Ok(disk)
        }
    }
}

// Prints what a run has reported of its commands, its disk and the status of its ports.
fn tell(rt: &HostRuntime, events: &[Stamped]) -> anyhow::Result<()> {
    for stamped in events {
        match &stamped.event {
            Event::Accepted { number, .. } => println!(rt; "accepted {number}")?,
            Event::Refused(fault) => println!(rt; "refused {fault:?}")?,
            Event::Acknowledged { number } => println!(rt; "acknowledged {number}")?,
            Event::DiskFailed => println!(rt; "disk failed")?,
            Event::Status { status, .. } => println!(rt; "status {status:?}")?,
            _ => {}
        }
    }
    Ok(())
}

/// Stops the power, and prints what is then recovered. A recovery that fails, as it does if memory runs out,
/// is made again.
pub(crate) fn show(rt: &HostRuntime, disk: MemoryDisk) -> anyhow::Result<()> {
    println!(rt; "stopped")?;
    match Journal::recover(rt.alloc(), disk.stop(Pick::Pattern)) {
        Ok((journal, state)) => print_found(rt, journal.number(), state),
        Err(RecoverFault { disk, .. }) => show_again(rt, disk),
    }
}

// Recovers a disk once more, and prints what is then recovered.
fn show_again(rt: &HostRuntime, disk: MemoryDisk) -> anyhow::Result<()> {
    match Journal::recover(rt.alloc(), disk) {
        Ok((journal, state)) => print_found(rt, journal.number(), state),
        Err(RecoverFault { cause, .. }) => {
            println!(rt; "no journal {cause:?}")?;
            Ok(())
        }
    }
}

// Prints what was recovered.
fn print_found(rt: &HostRuntime, number: u64, state: MasterState) -> anyhow::Result<()> {
    print!(rt; "{}", Recovered { number, state })?;
    Ok(())
}
