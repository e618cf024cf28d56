//! Recovers the journal on a disk.
ghost use Rattle.std.specs.Prelude.{◌≡◌, Ok, [], None, IfOk, IfErr};
ghost use Rattle.iol_journal.specs.Kept.{IsKept};
ghost use Rattle.iol_journal.specs.Meaning.{standing_in};
ghost use Rattle.iol_disk.specs.Disk.{Shows};
ghost use Rattle.iol_journal.specs.Phases.{IsAtRest};
ghost use Rattle.iol_commands.specs.Fault.{status_of};
ghost use Rattle.iol_commands.specs.Images.{TellsWhy};

use crate::fault::Fault;
use iol_disk::SectorDisk;
use iol_journal::{Journal, RecoverFault};
use iol_types::MasterState;
use std::alloc::Global;

// Recovers the journal on a disk, and the state that it means.
//
// # Errors
// `NotFormatted`, `TooSmall`, `Damaged`, `Disk` or `Memory`, whichever is met first.
pub fn recover<D: SectorDisk + Drop>(
    alloc: Global,
    disk: D,
) -> Result<(Journal<D>, MasterState), Fault<'static>>
    ensures found { IfOk result (λ found. Shows (D.disk disk) (λ image. standing_in (D.disk disk).sectors image ≡ Ok found.0.standing)) }
    ensures state { IfOk result (λ found. found.1 ≡ found.0.standing.state) }
    // On a kept image the journal is at rest.
    ensures at_rest { IfOk result (λ found. Shows (D.disk disk) (IsKept (D.disk disk).sectors)
        → IsAtRest (D.disk found.0.disk) found.0.standing found.0.idle) }
    ensures begun { IfOk result (λ found. found.0.begun ≡ None) }
    ensures history { IfOk result (λ found. found.0.history ≡ record { first = found.0.standing.number; start = found.1; commands = [] }) }
    ensures cause { IfErr result (λ fault. Shows (D.disk disk) (λ image. TellsWhy (standing_in (D.disk disk).sectors image) fault)) }
    ensures status { IfErr result (λ fault. status_of fault ≡ 1) }
{
    match Journal::recover(alloc, disk) {
        Ok(recovered) => Ok(recovered),
        Err(RecoverFault { cause, .. }) => Err(Fault::from(cause)),
    }
}
