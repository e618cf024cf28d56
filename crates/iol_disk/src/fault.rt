//! The fault that a failed disk call returns.

use thiserror::Error;

/// The kind of disk call that failed.
#[derive(Clone, Copy, Debug, PartialEq, Eq, Error)]
pub enum DiskFault {
    #[error("a read of the disk failed")]
    Read,
    #[error("a write to the disk failed")]
    Write,
    #[error("a sync of the disk failed")]
    Sync,
}
