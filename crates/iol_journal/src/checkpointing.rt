//! A checkpoint that is being written, and its steps.

use crate::begun::Begun;
use crate::journal::Journal;
use crate::parts::Parts;
use crate::stage_calls::make_stage;
use iol_disk::{DiskFault, SectorDisk};
use iol_layout::{Idle, Place};
use std::marker::Model;

/// A checkpoint that is being written. Each [`step`](Checkpointing::step) makes one disk call. Until the other area's gate is
/// written, the checkpoint may be paused, so that batches are written meanwhile.
#[derive(Drop)]
pub struct Checkpointing<D: SectorDisk> {
    disk: D,
    parts: Parts,
    begun: Begun,
}

impl<D: SectorDisk> Model for Checkpointing<D> {
    ghost use Rattle.iol_journal.specs.BegunParts.{view_of, IsBegun};
    ghost use Rattle.iol_journal.specs.CheckpointViews.{CheckpointingView};
    ghost use Rattle.iol_layout.specs.Standings.{IsResting};
    ghost use Rattle.iol_journal.specs.Parts.{stands};
    ghost use Rattle.iol_journal.specs.Planned.{LeadsTo};

    ghost Value = { CheckpointingView D };

    ghost view = { λ c. record {
      disk = c.disk;
      standing = stands c.parts;
      history = c.parts.history;
      begun = view_of c.begun;
    } };

    ghost invariant = { λ c. IsResting (D.disk c.disk) (stands c.parts) × IsBegun (D.disk c.disk) (stands c.parts) c.begun
        × LeadsTo (stands c.parts) c.parts.history };
}

/// The result of a step of a checkpoint.
pub enum CheckpointProgress<D: SectorDisk> {
    /// More steps are needed.
    More(Checkpointing<D>),
    /// The other area is in use, with all its slots free except those of carried batches.
    Done(Journal<D>),
    /// A disk call failed. Stop using a disk after a failed sync: many systems drop the pages of a failed sync and report
    /// success for the next one. After another fault the disk may be recovered again.
    Failed(D, DiskFault),
}

impl<D: SectorDisk> Checkpointing<D> {
    ghost use Rattle.std.specs.Prelude.{◌≡◌, true, Some, None};
    ghost use Rattle.iol_disk.specs.Moments.{LeavesOnly};
    ghost use Rattle.iol_journal.specs.BegunParts.{view_of, IsBegun};
    ghost use Rattle.iol_journal.specs.Drafts.{may_pause};
    ghost use Rattle.iol_layout.specs.Standings.{IsResting};
    ghost use Rattle.iol_journal.specs.Parts.{stands};
    ghost use Rattle.iol_journal.specs.Planned.{LeadsTo};
    ghost use Rattle.iol_journal.specs.CheckpointViews.{paused_in, stages_left, IsCheckpointUnderway};
    ghost use Rattle.iol_journal.specs.Pauses.{IsPaused};
    ghost use Rattle.iol_journal.specs.Checkpointing.{checkpoint_disk, IfGoesOn, IfCheckpointed, CheckpointStepMakes};
    ghost use Rattle.iol_journal.specs.Checkpointing.{IsCheckpointMoved, IsCheckpointDone};
    ghost use Rattle.iol_journal.specs.CheckpointRuns.{IsRunCheckpointing, HasCheckpointed};
    ghost use Rattle.iol_layout.specs.Kept.{KeptMeans, EachMeans};
    ghost use Rattle.iol_journal.specs.Runs.{Run};
    ghost use Rattle.iol_journal.specs.Running.{IsRunAtRest};
    ghost use Rattle.iol_journal.specs.Phases.{IsAtRest};
    ghost use Rattle.iol_layout.specs.declared.idle.Idle.TheVariants.{Older};

    // Creates the value of a checkpoint that continues from `begun`.
    pub(crate) fn of(disk: D, parts: Parts, begun: Begun) -> Checkpointing<D>
        requires resting { IsResting (D.disk disk) (stands parts) }
        requires begun { IsBegun (D.disk disk) (stands parts) begun }
        requires history { LeadsTo (stands parts) parts.history }
        ensures { result ≡ record {
          disk = disk;
          standing = stands parts;
          history = parts.history;
          begun = view_of begun;
        } }
    {
        Checkpointing { disk, parts, begun }
    }

    /// The disk as it is now.
    pub fn disk_ref(&self) -> &D
        ensures { result.now ≡ self.now.disk }
    {
        &self.disk
    }

    /// Gives up the checkpoint and returns the disk, to be recovered again.
    pub fn disk(self) -> D
        ensures { result ≡ self.disk }
    {
        let Checkpointing {
            disk,
            parts: _,
            begun: _,
        } = self;
        disk
    }

    /// Whether it can be paused: until the gate of the other area is written, and never if the journal has an older layout.
    pub fn can_pause(&self) -> bool
        ensures { result ≡ may_pause self.now.standing self.now.begun.stage }
    {
        self.parts.place.layout.is_renewed() && self.begun.stage.can_pause()
    }

    /// Pauses it. Batches may then be written, until [`Journal::checkpoint`] continues it.
    pub fn pause(self) -> Journal<D>
        requires { may_pause self.standing self.begun.stage ≡ true }
        ensures paused { result ≡ paused_in self }
        // It does not change what the disk means.
        ensures rest { IsCheckpointUnderway D.disk self → IsAtRest (D.disk result.disk) result.standing result.idle
            × IsPaused (D.disk result.disk) result.standing result.begun }
        // Each run of the journal continues.
        ensures run { (r : Run) → IsRunCheckpointing D.disk r self → IsRunAtRest D.disk r result }
    {
        let Checkpointing {
            disk,
            mut parts,
            begun,
        } = self;
        parts.place.idle = begun.stage.idle();
        Journal::at_rest(disk, parts, Some(begun))
    }

    /// Makes one disk call, in the order of docs/FORMATS.md, "Orders of disk calls".
    pub fn step(self) -> CheckpointProgress<D>
        ensures call { CheckpointStepMakes D.disk (stages_left self) result (D.disk self.disk) }
        // A power stop at any moment of it leaves the number and the state.
        ensures any_moment { IsCheckpointUnderway D.disk self → LeavesOnly (D.disk self.disk) (D.disk (checkpoint_disk result))
            (KeptMeans (D.disk self.disk).sectors self.standing.number self.standing.state) }
        ensures underway { IsCheckpointUnderway D.disk self → IfGoesOn result (λ c. IsCheckpointUnderway D.disk c) }
        // Each run of the journal continues: every image since a moment of the run has all commands acknowledged by then.
        ensures run { (r : Run) → IsRunCheckpointing D.disk r self → HasCheckpointed D.disk r result }
        ensures more { IfGoesOn result (IsCheckpointMoved self) }
        ensures done { IfCheckpointed result (IsCheckpointDone self) }
        ensures durable { IsCheckpointUnderway D.disk self
            → IfCheckpointed result (λ journal. IsAtRest (D.disk journal.disk) journal.standing journal.idle
            × EachMeans (D.disk journal.disk) journal.standing.number journal.standing.state) }
    {
        let Checkpointing {
            mut disk,
            mut parts,
            begun,
        } = self;
        if let Err(fault) = make_stage(&mut disk, &parts.place, &begun) {
            return CheckpointProgress::Failed(disk, fault);
        }
        let layout = parts.place.renewed_layout();
        let slots = layout.slots();
        match begun.next_stage(slots) {
            Some(stage) => CheckpointProgress::More(Checkpointing {
                disk,
                parts,
                begun: begun.moved_to(stage, slots),
            }),
            None => {
                parts.place = Place {
                    layout,
                    area: parts.place.area.other(),
                    epoch: parts.place.epoch + 1,
                    used: begun.used,
                    idle: Idle::Older,
                };
                CheckpointProgress::Done(Journal::at_rest(disk, parts, None))
            }
        }
    }
}
