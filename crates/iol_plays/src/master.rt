//! A running master on a new disk in memory, with the devices of a script.

use crate::clients::{meeting, play_clients};
use anyhow::Context;
use iol_commands::{geometry_of, links_of};
use iol_disk::MemoryDisk;
use iol_journal::format;
use iol_script::LiveScript;
use std::alloc::Global;
use std::io::{Input, Write};
use std::rt::Stdout;
use std::sync::Wait;
use std::thread::Threads;
use std::time::Clock;

/// Runs a master of two ports and four slots, with the devices of a script and a client for each word, and returns its disk.
/// Prints what each client is answered, and how the master ends.
pub(crate) fn play_in_memory<R: Threads + Wait + Clock + Input + Copy + Send + 'static>(
    rt: &R,
    alloc: Global,
    script: &[u8],
    least: u64,
    words: &[String],
    out: &mut Stdout,
) -> anyhow::Result<MemoryDisk> {
    let script = LiveScript::read(alloc, script)?;
    let geometry = geometry_of(2, 4).context("no geometry")?;
    let mut disk = MemoryDisk::new(alloc, geometry.sectors())?;
    if let Err(fault) = format(alloc, &mut disk, geometry) {
        writeln!(out, "no format {fault:?}")?;
        return Ok(disk);
    }
    let links = links_of(alloc, &script.devices, geometry.ports())?;
    play_clients(rt, alloc, disk, meeting(alloc, links, least)?, words, out)
}
