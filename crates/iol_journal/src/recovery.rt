//! Recovery: finds the journal on a disk.

ghost use Rattle.std.specs.Prelude.{◌≡◌, Err, IsTrue, IfOk};
ghost use Rattle.iol_disk.specs.Content.{IsImage, clock};
ghost use Rattle.iol_disk.specs.Moments.{LeavesOnly};
ghost use Rattle.iol_layout.specs.Meaning.{standing_in};
ghost use Rattle.iol_disk.specs.Disk.{Shows};
ghost use Rattle.iol_recovery.specs.Reading.{Finds};
ghost use Rattle.iol_recovery.specs.Finding.{HasChosen, MakesRecovery, idle_in};

use crate::history::History;
use crate::journal::Journal;
use crate::parts::Parts;
use iol_disk::SectorDisk;
use iol_recovery::{RecoverCause, find};
use iol_types::MasterState;
use std::alloc::Global;

/// Why a disk was not recovered, with the disk.
#[derive(Drop)]
pub struct RecoverFault<D: SectorDisk> {
    pub cause: RecoverCause,
    pub disk: D,
}

impl<D: SectorDisk> Journal<D> {
    ghost use Rattle.std.specs.Prelude.{◌≡◌, ℕ, [], None, Ok, IsTrue, IfOk, IfErr};
    ghost use Rattle.iol_types.specs.State.{State};
    ghost use Rattle.iol_layout.specs.Kept.{IsKept, EachMeans};
    ghost use Rattle.iol_journal.specs.Phases.{IsAtRest};
    ghost use Rattle.iol_recovery.specs.Reading.{SaysWhy};
    ghost use Rattle.iol_journal.specs.Recovery.{recovered_disk, cause_of};
    ghost use Rattle.iol_journal.specs.Runs.{Run, IsRun, begun};
    ghost use Rattle.iol_journal.specs.Running.{IsRunAtRest};

    /// Finds the journal on a disk, and returns it with the state after its commands. It begins with a sync and writes
    /// nothing.
    ///
    /// # Errors
    /// The first cause in the order of reading (docs/FORMATS.md, "Recovery"); the disk is returned.
    pub fn recover(alloc: Global, disk: D) -> Result<(Journal<D>, MasterState), RecoverFault<D>>
        // The result is what the image that the disk reads as holds.
        ensures found { IfOk result (λ found.
            Shows (D.disk disk) (λ image. standing_in (D.disk disk).sectors image ≡ Ok found.0.standing)) }
        ensures state { IfOk result (λ found. found.1 ≡ found.0.standing.state) }
        // On a kept image the journal is at rest.
        ensures at_rest { IfOk result (λ found. Shows (D.disk disk) (IsKept (D.disk disk).sectors)
            → IsAtRest (D.disk found.0.disk) found.0.standing found.0.idle) }
        ensures idle { IfOk result (λ found. Shows (D.disk disk) (λ image. found.0.idle ≡ idle_in found.0.standing image)) }
        ensures cause { IfErr result (λ fault.
            Shows (D.disk disk) (λ image. SaysWhy (standing_in (D.disk disk).sectors image) fault.cause)) }
        // It makes one sync and then only reads; a disk fault is that of the call that failed.
        ensures makes { MakesRecovery (D.disk disk) (D.disk (recovered_disk result)) (cause_of result) }
        // Memory is allocated only after a sound geometry and an area in use are found.
        ensures memory { IfErr result (λ fault. fault.cause ≡ RecoverCause.Memory → Shows (D.disk disk) (HasChosen (D.disk disk).sectors)) }
        // If all images mean the same, that is what is found, and each image still means it.
        ensures means { IfOk result (λ found. (number : ℕ) (state : State) → IsTrue (D.disk disk).honest
            → EachMeans (D.disk disk) number state
            → (found.0.standing.number ≡ number) × (found.0.standing.state ≡ state)
            × IsAtRest (D.disk found.0.disk) found.0.standing found.0.idle × EachMeans (D.disk found.0.disk) number state) }
        ensures history { IfOk result (λ found. found.0.history
            ≡ record { first = found.0.standing.number; start = found.1; commands = [] }) }
        // A paused checkpoint is dropped.
        ensures begun { IfOk result (λ found. found.0.begun ≡ None) }
        // No image is added.
        ensures any_moment { LeavesOnly (D.disk disk) (D.disk (recovered_disk result)) (IsImage (D.disk disk).content) }
        // Each run on the disk remains a run.
        ensures run { (r : Run) → IsRun (D.disk disk) r → IsRun (D.disk (recovered_disk result)) r }
        // On a kept image a run begins with the number and the state that are found.
        ensures begins { IfOk result (λ found. Shows (D.disk disk) (IsKept (D.disk disk).sectors)
            → IsRunAtRest D.disk (begun (clock (D.disk found.0.disk).content) found.0.standing.number found.0.standing.state) found.0) }
    {
        let mut disk = disk;
        match find(alloc, &mut disk) {
            Ok(found) => {
                let history = History::begun(found.number, &found.copy);
                let parts = Parts {
                    alloc,
                    place: found.place,
                    number: found.number,
                    state: found.state,
                    history,
                };
                Ok((Journal::at_rest(disk, parts, None), found.copy))
            }
            Err(cause) => Err(RecoverFault { cause, disk }),
        }
    }
}
