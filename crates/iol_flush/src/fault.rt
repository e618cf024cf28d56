//! Why a call of the flusher fails.

use iol_disk::DiskFault;
use iol_journal::Batch;
use thiserror::Error;

/// Why a disk step or the publishing of a batch fails.
#[derive(Clone, Copy, Debug, PartialEq, Eq, Error)]
pub enum FlushFault {
    /// An earlier disk call failed.
    #[error("the disk has failed before")]
    Stopped,
    /// Out of memory. Nothing changed, and the call may be repeated.
    #[error("out of memory")]
    Memory,
    /// The batch does not follow the journal, has more than 64 commands, or takes more slots than an area has. Nothing
    /// changed.
    #[error("the batch does not follow the journal")]
    Misfit,
    /// This disk call failed.
    #[error("a call of the disk failed")]
    Disk(DiskFault),
}

/// Why a batch is not accepted.
#[derive(Debug, Drop)]
pub enum GiveFault {
    /// An earlier disk call failed. The batch is returned.
    Stopped(Batch),
}
