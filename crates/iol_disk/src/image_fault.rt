//! Why an image file could not be made or opened.

ghost use Rattle.iol_disk.specs.ImageFile.{IsUnlocked, IsUnopened};

use crate::fault::DiskFault;
use std::fs::TryLockError;
use std::io::{self, ErrorKind};
use thiserror::Error;

/// Why an image file could not be made or opened.
#[derive(Clone, Copy, Debug, PartialEq, Eq, Error)]
pub enum ImageFault {
    /// The file does not exist or may not be opened, or it cannot be made, for example because it exists.
    #[error("the image file cannot be opened or made")]
    Open,
    /// The file is open already, in this process or another one.
    #[error("the image file is in use")]
    InUse,
    /// A later call of the file failed.
    #[error("a call of the image file failed")]
    Disk(#[source] DiskFault),
    #[error("out of memory")]
    Memory,
}

// Returns why a file could not be opened or made.
pub(crate) fn unopened(error: io::Error) -> ImageFault
    ensures { IsUnopened result }
{
    match error.kind() {
        ErrorKind::OutOfMemory => ImageFault::Memory,
        _ => ImageFault::Open,
    }
}

// Returns why an open file could not be locked.
pub(crate) fn unlocked(error: TryLockError) -> ImageFault
    ensures { IsUnlocked result }
{
    match error {
        TryLockError::WouldBlock => ImageFault::InUse,
        TryLockError::Error(error) => unopened(error),
    }
}
