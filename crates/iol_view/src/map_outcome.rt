//! The outcome of a recovery of a disk.
ghost use Rattle.std.specs.Prelude.{◌≡◌, IfOk, IfErr};
ghost use Rattle.iol_disk.specs.Content.{IsImage};
ghost use Rattle.iol_disk.specs.Moments.{LeavesOnly};
ghost use Rattle.iol_commands.specs.Fault.{status_of};
ghost use Rattle.iol_view.specs.Map.{IsMapCause, TellsOutcome, damaged_in};

use iol_commands::{Fault, Shown, show_disk};
use iol_disk::SectorDisk;
use std::alloc::Global;

// The outcome of a recovery of a disk.
#[derive(Clone, Copy)]
pub(crate) enum Outcome {
    // The state after `number` commands.
    Recovered { number: u64 },
    // The disk is not formatted.
    NotFormatted,
    // Its areas keep no slot in version 2 of the layout.
    TooSmall,
    // The first sector that is damaged, in the order of reading.
    Damaged { sector: usize },
}

impl Outcome {
    // Returns the sector that is damaged, if one is.
    pub(crate) fn damaged(self) -> Option<usize>
        ensures { result ≡ damaged_in self }
    {
        match self {
            Outcome::Damaged { sector } => Some(sector),
            Outcome::Recovered { .. } | Outcome::NotFormatted | Outcome::TooSmall => None,
        }
    }
}

// The outcome of a recovery of a disk, and the disk after it.
#[derive(Drop)]
pub(crate) struct Looked<D: SectorDisk> {
    pub outcome: Result<Outcome, Fault<'static>>,
    pub disk: D,
}

// Recovers a disk. If a disk call fails or memory runs out, it reports `Disk` or `Memory`.
pub(crate) fn look<D: SectorDisk>(alloc: Global, disk: D) -> Looked<D>
    ensures told { IfOk result.outcome (TellsOutcome (D.disk disk)) }
    // Nothing is written: each image is one that was possible before.
    ensures any_moment { LeavesOnly (D.disk disk) (D.disk result.disk) (IsImage (D.disk disk).content) }
    ensures cause { IfErr result.outcome IsMapCause }
    ensures status { IfErr result.outcome (λ fault. status_of fault ≡ 1) }
{
    let Shown { recovered, disk } = show_disk(alloc, disk);
    match recovered {
        Ok(found) => Looked {
            outcome: Ok(Outcome::Recovered {
                number: found.number,
            }),
            disk,
        },
        Err(Fault::NotFormatted) => Looked {
            outcome: Ok(Outcome::NotFormatted),
            disk,
        },
        Err(Fault::TooSmall) => Looked {
            outcome: Ok(Outcome::TooSmall),
            disk,
        },
        Err(Fault::Damaged { sector }) => Looked {
            outcome: Ok(Outcome::Damaged { sector }),
            disk,
        },
        Err(Fault::Disk) => Looked {
            outcome: Err(Fault::Disk),
            disk,
        },
        // A recovery ends with no other fault.
        Err(_) => Looked {
            outcome: Err(Fault::Memory),
            disk,
        },
    }
}
