//! A batch that does not follow its journal, also if memory runs out.

use crate::two_clients::formatted;
use anyhow::{Context, bail};
use iol_disk::MemoryDisk;
use iol_journal::{Batch, BeginCause, Journal};
use iol_types::{Command, PortId};
use std::alloc::Global;
use std::io::Write;
use std::rt::Stdout;

/// Gives an empty journal a batch after a gap, and prints why it is refused, and the number of commands of the journal then.
pub(crate) fn play_misfit(alloc: Global, out: &mut Stdout) -> anyhow::Result<()> {
    let Ok((journal, _)) = Journal::recover(alloc, formatted(alloc)?) else {
        bail!("no recovery")
    };
    let port = PortId::new(1).context("no port")?;
    let commands = Vec::from_array(alloc, [Command::Clear { port }])?;
    let Some((cause, number)) = refused(journal, Batch { first: 2, commands }) else {
        bail!("a batch behind a gap is begun")
    };
    writeln!(out, "{cause:?} behind {number} commands")?;
    Ok(())
}

// Returns why a journal refuses a batch, and its number of commands then, or `None` if it takes the batch.
fn refused(journal: Journal<MemoryDisk>, batch: Batch) -> Option<(BeginCause, u64)> {
    match journal.begin(batch) {
        Ok(_) => None,
        Err(fault) => Some((fault.cause, fault.journal.number())),
    }
}
