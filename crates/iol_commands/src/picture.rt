//! Writes a picture to its file.
ghost use Rattle.std.specs.Prelude.{◌≡◌, IfErr};
ghost use Rattle.iol_commands.specs.Fault.{status_of};

use crate::fault::Fault;
use iol_disk::LockFile;
use std::fs::{File, OpenFile};
use std::io;
use std::os::unix::fs::FileExt;
use std::rt::Files;

/// Replaces the content of the file at `path` with a text. The file is made if there is none.
///
/// # Errors
/// `File` if the file cannot be opened, made or written, or is in use. A file in use stays as it is.
pub fn write_picture<'a, F: FileExt + OpenFile + LockFile + Drop, R: Files<File = F>>(
    rt: &R,
    path: &'a str,
    text: &str,
) -> Result<(), Fault<'a>>
    ensures { IfErr result (λ fault. status_of fault ≡ 1) }
{
    match write_file(rt, path, text) {
        Ok(()) => Ok(()),
        Err(_) => Err(Fault::File { path }),
    }
}

// Writes the file. It is emptied only after it is locked, so that an image in use is never emptied.
fn write_file<F: FileExt + OpenFile + LockFile + Drop, R: Files<File = F>>(
    rt: &R,
    path: &str,
    text: &str,
) -> io::Result<()> {
    let file = File::options().write(true).create(true).open(rt, path)?;
    file.try_lock()?;
    file.set_len(0)?;
    file.write_all_at(text.as_bytes(), 0)
}
