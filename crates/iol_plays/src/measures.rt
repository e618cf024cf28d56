//! The costs of durable commits, checkpoints, stores and recoveries of a journal on an image file, compared with the same calls of a
//! plain file in the same folder. Nothing is promised of times.
//!
//! Modules in reading order: `commits`, `stores`, `encoding`, `recovery` and `longest`, the five measurements; `commands`, the commands
//! that are written; `plain`, the calls of a plain file.

mod commands;
mod commits;
mod encoding;
mod longest;
mod plain;
mod recovery;
mod stores;

use anyhow::bail;
use commits::measure_commits;
use encoding::measure_encoding;
pub(crate) use longest::time_commits;
use plain::Files;
use recovery::measure_recovery;
use stores::measure_stores;

/// Times a journal on files in a folder, which it makes and removes, in 1 to 99 rounds. Prints a line for each measurement of each
/// round: what was measured, and the nanoseconds of the journal and of the plain file.
pub(crate) fn measure(rt: &HostRuntime, folder: &str, rounds: usize) -> anyhow::Result<()> {
    if rounds < 1 || 99 < rounds {
        bail!("the number of rounds is 1 to 99");
    }
    let image = format!(in rt.alloc(); "{folder}/measured_image")?;
    let plain = format!(in rt.alloc(); "{folder}/measured_plain")?;
    let files = Files {
        image: image.as_str(),
        plain: plain.as_str(),
    };
    measure_each(rt, files, rounds)
}

fn measure_each(rt: &HostRuntime, files: Files<'_>, rounds: usize) -> anyhow::Result<()> {
    measure_commits(rt, files, rounds)?;
    measure_stores(rt, files, rounds, "32 stores together", 32)?;
    measure_stores(rt, files, rounds, "32 stores one by one", 1)?;
    measure_encoding(rt, rounds)?;
    measure_recovery(rt, files.image, rounds)
}
