//! The file of a script.

use iol_commands::Fault;
use iol_script::SCRIPT_OCTETS;
use std::fs::File;
use std::io::{self, Read};

// Reads the octets of a file: all of them, or at most one more than a script may have.
//
// # Errors
// `File` if it cannot be opened or read; `Memory` if memory runs out for its octets.
pub(crate) fn read_script<'a>(rt: &HostRuntime, path: &'a str) -> Result<Vec<u8>, Fault<'a>> {
    let mut octets = Vec::new(rt.alloc());
    match read_file(rt, path, &mut octets) {
        Ok(_) => Ok(octets),
        Err(error) if is_memory(&error) => Err(Fault::Memory),
        Err(_) => Err(Fault::File { path }),
    }
}

fn read_file(rt: &HostRuntime, path: &str, octets: &mut Vec<u8>) -> io::Result<usize> {
    let file = File::open(rt, path)?;
    file.take(SCRIPT_OCTETS as u64 + 1).read_to_end(octets)
}

// Returns whether memory ran out.
pub(crate) fn is_memory(error: &io::Error) -> bool {
    error.kind() == io::ErrorKind::OutOfMemory
}
