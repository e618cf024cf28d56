//! A master in threads on a disk in memory, with the devices of a script and its clients.

use anyhow::Context;
use iol_commands::{empty_disk, geometry_of};
use iol_live::{Telling, live_on_disk};
use iol_script::LiveScript;
use std::alloc::Global;
use std::rt::Stderr;
use std::sync::Wait;
use std::thread::Threads;
use std::time::Clock;

/// Runs a master of two ports and four slots, and returns the text with the number of receipts and the recovered
/// state.
pub(crate) fn text_of_live<R: Threads + Wait + Clock + Copy + Send + 'static>(
    rt: &R,
    alloc: Global,
    script: &[u8],
    err: &mut Stderr,
) -> anyhow::Result<String> {
    let script = LiveScript::read(alloc, script)?;
    let geometry = geometry_of(2, 4).context("no geometry")?;
    let disk = empty_disk(alloc, geometry, None)?;
    Ok(live_on_disk(rt, alloc, disk, &script, Telling::Nothing, err)?)
}
