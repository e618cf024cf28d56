//! Files that are locked for as long as they are open.

use crate::file_length::FileLength;
use std::fs::{File, TryLockError};

/// A file that can be locked against every other open of it, also in another process.
pub trait LockFile: FileLength {
    /// Locks the file until it is closed, or its process ends.
    ///
    /// # Errors
    /// `WouldBlock` if the file is locked already; `Error` if the system cannot lock it.
    fn try_lock(&self) -> Result<(), TryLockError>;
}

impl LockFile for File {
    fn try_lock(&self) -> Result<(), TryLockError> {
        File::try_lock(self)
    }
}
