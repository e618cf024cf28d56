//! Why a disk was not recovered.

use iol_disk::DiskFault;
use std::alloc::AllocError;
use thiserror::Error;

/// Why a disk was not recovered: the first cause in the order of reading (docs/FORMATS.md, "Recovery").
#[derive(Clone, Copy, Debug, PartialEq, Eq, Error)]
pub enum RecoverCause {
    /// A call of the disk failed.
    #[error("{0}")]
    Disk(DiskFault),
    /// The gate of the disk is closed, or the disk has no such sector.
    #[error("the disk is not formatted")]
    NotFormatted,
    /// Its areas keep no slot in version 2 of the layout; only an earlier release has formatted such a disk.
    #[error("the disk is too small")]
    TooSmall,
    /// No journal writes what is on the disk from this sector on.
    #[error("damaged at sector {sector}")]
    Damaged { sector: usize },
    /// The recovery ran out of memory.
    #[error("out of memory")]
    Memory,
}

impl From<DiskFault> for RecoverCause {
    ghost use Rattle.std.specs.Prelude.{◌≡◌};
    ghost use Rattle.iol_recovery.specs.declared.cause.RecoverCause.TheVariants.{Disk};

    ghost from_gives = { λ fault cause. cause ≡ Disk fault };

    fn from(fault: DiskFault) -> RecoverCause {
        RecoverCause::Disk(fault)
    }
}

impl From<AllocError> for RecoverCause {
    ghost use Rattle.std.specs.Prelude.{◌≡◌};
    ghost use Rattle.iol_recovery.specs.declared.cause.RecoverCause.TheVariants.{Memory};

    ghost from_gives = { λ _ cause. cause ≡ Memory };

    fn from(_error: AllocError) -> RecoverCause {
        RecoverCause::Memory
    }
}
