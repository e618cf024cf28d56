//! The map of a disk, and the disk after it was read.
ghost use Rattle.std.specs.Prelude.{◌≡◌, IfErr, IfOk};
ghost use Rattle.iol_disk.specs.Content.{IsImage};
ghost use Rattle.iol_disk.specs.Moments.{LeavesOnly};
ghost use Rattle.iol_commands.specs.Fault.{status_of};
ghost use Rattle.iol_view.specs.Map.{IsMapCause, TellsOutcome};

use crate::map_outcome::{Looked, look};
use crate::map_survey::lines_of;
use crate::map_text::Map;
use iol_commands::Fault;
use iol_disk::SectorDisk;
use iol_journal::RecoverCause;
use std::alloc::Global;

// The map of a disk, or why there is none, and the disk.
#[derive(Drop)]
pub(crate) struct Mapped<D: SectorDisk> {
    pub map: Result<Map, Fault<'static>>,
    pub disk: D,
}

// Recovers a disk, and makes a map of it, or reports `Disk` or `Memory` if that fails.
pub(crate) fn map_disk<D: SectorDisk>(alloc: Global, disk: D) -> Mapped<D>
    ensures told { IfOk result.map (λ map. TellsOutcome (D.disk disk) map.outcome) }
    ensures sectors { IfOk result.map (λ map. map.sectors ≡ (D.disk disk).sectors) }
    // Nothing is written: each image is one that was possible before.
    ensures any_moment { LeavesOnly (D.disk disk) (D.disk result.disk) (IsImage (D.disk disk).content) }
    ensures cause { IfErr result.map IsMapCause }
    ensures status { IfErr result.map (λ fault. status_of fault ≡ 1) }
{
    let Looked { outcome, disk } = look(alloc, disk);
    let mut disk = disk;
    match outcome {
        Ok(outcome) => {
            let sectors = disk.sectors();
            match lines_of(alloc, &mut disk, outcome.damaged()) {
                Ok(lines) => Mapped {
                    map: Ok(Map {
                        sectors,
                        outcome,
                        lines,
                    }),
                    disk,
                },
                Err(cause) => Mapped {
                    map: Err(unread(cause)),
                    disk,
                },
            }
        }
        Err(fault) => Mapped {
            map: Err(fault),
            disk,
        },
    }
}

// Returns why a part of a disk was not read. Damage is reported in the line of the part, so the only other cause is memory.
fn unread(cause: RecoverCause) -> Fault<'static>
    ensures cause { IsMapCause result }
    ensures status { status_of result ≡ 1 }
{
    match cause {
        RecoverCause::Disk(_) => Fault::Disk,
        _ => Fault::Memory,
    }
}
