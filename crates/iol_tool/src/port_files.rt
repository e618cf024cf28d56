//! The files of the drivers at ports, as the words of `serve` name them.

use iol_types::PortId;
use std::alloc::Global;

/// The files of the driver at a port.
#[derive(Clone, Copy, Debug)]
pub(crate) struct PortFiles<'a> {
    pub(crate) port: PortId,
    /// The file from which its answers are read.
    pub(crate) from: &'a str,
    /// The file to which requests are written, which is the same if one file is both read and written.
    pub(crate) to: &'a str,
}

/// The reason why words name no files of drivers.
#[derive(Clone, Copy, Debug, PartialEq, Eq)]
pub(crate) enum PortFilesFault<'a> {
    /// This word is neither N=PATH nor N=FROM,TO, with N from 1 to 32.
    Form(&'a str),
    /// This port is named twice.
    Twice(PortId),
    /// Out of memory.
    Memory,
}

impl<'a> PortFiles<'a> {
    // Reads the files that a word names: N=PATH, or N=FROM,TO.
    fn read(word: &'a str) -> Option<PortFiles<'a>> {
        let (number, paths) = word.split_once('=')?;
        let port = PortId::new(number.parse::<u8>().ok()?)?;
        let (from, to) = match paths.split_once(',') {
            Some((from, to)) => (from, to),
            None => (paths, paths),
        };
        if from.is_empty() || to.is_empty() {
            return None;
        }
        Some(PortFiles { port, from, to })
    }
}

// Reads the files of all drivers, in the order of their words.
pub(crate) fn all_port_files<'a>(
    alloc: Global,
    words: &[&'a str],
) -> Result<Vec<PortFiles<'a>>, PortFilesFault<'a>> {
    let mut files = Vec::new(alloc);
    for word in words {
        let Some(read) = PortFiles::read(word) else {
            return Err(PortFilesFault::Form(word));
        };
        if is_named(&files, read.port) {
            return Err(PortFilesFault::Twice(read.port));
        }
        if files.push(read).is_err() {
            return Err(PortFilesFault::Memory);
        }
    }
    Ok(files)
}

// Returns whether a port is named among these files.
fn is_named(files: &[PortFiles<'_>], port: PortId) -> bool {
    files.iter().any(|files| files.port == port)
}
