//! A batch that is being written, and its steps.

use crate::batch::Batch;
use crate::begun::{Begun, owing};
use crate::calls::make;
use crate::journal::Journal;
use crate::parts::Parts;
use crate::phase::Phase;
use crate::plan::Plan;
use iol_disk::{DiskFault, SectorDisk};
use std::marker::Model;

/// A batch that is being written. Each [`step`](Writing::step) makes one disk call.
#[derive(Drop)]
pub struct Writing<D: SectorDisk> {
    disk: D,
    parts: Parts,
    // the paused checkpoint
    begun: Option<Begun>,
    batch: Batch,
    plan: Plan,
    phase: Phase,
}

impl<D: SectorDisk> Model for Writing<D> {
    ghost use Rattle.std.specs.Prelude.{◌≡◌, ◌≤◌, ◌+◌};
    ghost use Rattle.std.specs.Option.{option_map};
    ghost use Rattle.iol_types.specs.State.{after};
    ghost use Rattle.iol_journal.specs.BegunParts.{view_of, IsSetAside, HasRoom};
    ghost use Rattle.iol_journal.specs.Journals.{WritingView};
    ghost use Rattle.iol_journal.specs.Planned.{IsPlanned};

    ghost Value = { WritingView D };

    ghost use Rattle.iol_journal.specs.Parts.{stands};
    ghost use Rattle.iol_layout.specs.Body.{values};
    ghost use Rattle.iol_journal.specs.Planned.{IsPlan, LeadsTo};

    ghost view = { λ w. record {
      disk = w.disk;
      standing = stands w.parts;
      idle = w.parts.place.idle;
      history = w.parts.history;
      begun = option_map view_of w.begun;
      commands = values w.batch.commands.items;
      phase = w.phase;
    } };

    ghost invariant = { λ w. IsPlanned (D.disk w.disk) (stands w.parts) (values w.batch.commands.items) w.phase
        × IsPlan (stands w.parts) (values w.batch.commands.items) w.plan
        × (w.batch.first ≡ w.parts.number + 1) × LeadsTo (stands w.parts) w.parts.history
        × IsSetAside (D.disk w.disk) (stands w.parts) w.parts.place.idle w.begun × HasRoom w.begun };
}

/// Evidence that a batch is durable: every image of the disk has it. Only [`step`](Writing::step) creates it. It cannot
/// be copied, and must be consumed.
pub struct Written {
    batch: Batch,
}

impl Model for Written {
    ghost use Rattle.std.specs.Prelude.{◌≤◌, ◌+◌, length};
    ghost use Rattle.iol_journal.specs.Written.{WrittenView};
    ghost use Rattle.iol_layout.specs.declared.header.TheConstants.{LAST_NUMBER};

    ghost Value = { WrittenView };

    ghost use Rattle.iol_layout.specs.Body.{values};

    ghost view = { λ w. record { first = w.batch.first; commands = values w.batch.commands.items } };

    ghost invariant = { λ w. (1 ≤ w.batch.first) × (w.batch.first + length w.batch.commands.items ≤ LAST_NUMBER + 1) };
}

impl Written {
    ghost use Rattle.std.specs.Prelude.{◌≡◌, ◌≤◌, ◌+◌, length};
    ghost use Rattle.iol_layout.specs.Body.{values};
    ghost use Rattle.iol_layout.specs.declared.header.TheConstants.{LAST_NUMBER};

    /// Returns the batch and consumes the evidence.
    pub fn into_batch(self) -> Batch
        ensures first { result.first ≡ self.first }
        ensures commands { values result.commands.items ≡ self.commands }
        // Commands have the numbers 1 to LAST_NUMBER.
        ensures numbers { (1 ≤ self.first) × (self.first + length self.commands ≤ LAST_NUMBER + 1) }
    {
        let Written { batch } = self;
        batch
    }
}

/// The result of a step of a batch.
pub enum Progress<D: SectorDisk> {
    /// More steps are needed.
    More(Writing<D>),
    /// The batch is durable.
    Done(Journal<D>, Written),
    /// A disk call failed. Stop using a disk after a failed sync: many systems drop the pages of a failed sync and report
    /// success for the next one. After another fault the disk may be recovered again.
    Failed(D, DiskFault),
}

impl<D: SectorDisk> Writing<D> {
    ghost use Rattle.std.specs.Prelude.{◌≡◌, ◌+◌};
    ghost use Rattle.std.specs.Option.{option_map};
    ghost use Rattle.iol_disk.specs.Moments.{LeavesOnly};
    ghost use Rattle.iol_journal.specs.BegunParts.{view_of, IsSetAside, HasRoom};
    ghost use Rattle.iol_journal.specs.Pauses.{IsPaused, IsBeside};
    ghost use Rattle.iol_layout.specs.Kept.{KeptEither, EachMeans};
    ghost use Rattle.iol_journal.specs.Phases.{IsAtRest};
    ghost use Rattle.iol_journal.specs.Underway.{IsUnderway};
    ghost use Rattle.iol_journal.specs.Planned.{IsPlan, IsPlanned, LeadsTo};
    ghost use Rattle.iol_journal.specs.Journals.{calls_left};
    ghost use Rattle.iol_journal.specs.Parts.{stands};
    ghost use Rattle.iol_layout.specs.Body.{values};
    ghost use Rattle.iol_journal.specs.Progress.{stepped_disk, IfMore, IfDone, IsBatchMoved, IsBatchDone, StepMakes};
    ghost use Rattle.iol_journal.specs.Runs.{Run};
    ghost use Rattle.iol_journal.specs.Running.{IsRunWriting, HasStepped};
    ghost use Rattle.iol_journal.specs.declared.phase.Phase.TheVariants.{Body};

    // Creates the value of a batch before its first step.
    pub(crate) fn begun(
        disk: D,
        parts: Parts,
        begun: Option<Begun>,
        batch: Batch,
        plan: Plan,
    ) -> Writing<D>
        requires planned { IsPlanned (D.disk disk) (stands parts) (values batch.commands.items) (Body 0) }
        requires plan { IsPlan (stands parts) (values batch.commands.items) plan }
        requires first { batch.first ≡ parts.number + 1 }
        requires history { LeadsTo (stands parts) parts.history }
        requires begun { IsSetAside (D.disk disk) (stands parts) parts.place.idle begun }
        requires room { HasRoom begun }
        ensures { result ≡ record {
          disk = disk;
          standing = stands parts;
          idle = parts.place.idle;
          history = parts.history;
          begun = option_map view_of begun;
          commands = values batch.commands.items;
          phase = Body 0;
        } }
    {
        Writing {
            disk,
            parts,
            begun,
            batch,
            plan,
            phase: Phase::Body(0),
        }
    }

    /// The disk as it is now.
    pub fn disk_ref(&self) -> &D
        ensures { result.now ≡ self.now.disk }
    {
        &self.disk
    }

    /// Gives up the batch and returns the disk, to be recovered again.
    pub fn disk(self) -> D
        ensures { result ≡ self.disk }
    {
        let Writing {
            disk,
            parts: _,
            begun: _,
            batch: _,
            plan: _,
            phase: _,
        } = self;
        disk
    }

    /// Makes one disk call: the sectors of the body in order, a sync, the open gate, a sync.
    pub fn step(self) -> Progress<D>
        ensures call { StepMakes D.disk (calls_left self) result (D.disk self.disk) }
        // A power stop at any moment of it leaves the state before the batch or the state after it.
        ensures any_moment { IsUnderway D.disk self → LeavesOnly (D.disk self.disk) (D.disk (stepped_disk result))
            (KeptEither (D.disk self.disk).sectors self.standing.number self.standing.state self.commands) }
        ensures underway { IsUnderway D.disk self → IfMore result (λ w. IsUnderway D.disk w) }
        // Every image has the batch.
        ensures durable { IsUnderway D.disk self → IfDone result (λ journal _. IsAtRest (D.disk journal.disk) journal.standing journal.idle
            × EachMeans (D.disk journal.disk) journal.standing.number journal.standing.state) }
        // A paused checkpoint does not change.
        ensures beside { IsBeside (D.disk self.disk) self.standing self.begun → IfMore result (λ w.
            IsBeside (D.disk w.disk) w.standing w.begun) }
        ensures paused { IsUnderway D.disk self → IsBeside (D.disk self.disk) self.standing self.begun → IfDone result (λ journal _.
            IsPaused (D.disk journal.disk) journal.standing journal.begun) }
        // Each run that has this batch underway continues: every image since a moment of the run has all commands
        // acknowledged by then.
        ensures run { (r : Run) → IsRunWriting D.disk r self → HasStepped D.disk r result }
        ensures more { IfMore result (IsBatchMoved self) }
        ensures done { IfDone result (IsBatchDone self) }
    {
        let Writing {
            mut disk,
            mut parts,
            begun,
            batch,
            plan,
            phase,
        } = self;
        if let Err(fault) = make(&mut disk, &parts.place, &plan.body, phase) {
            return Progress::Failed(disk, fault);
        }
        match phase.next(plan.body.sectors) {
            Some(phase) => Progress::More(Writing {
                disk,
                parts,
                begun,
                batch,
                plan,
                phase,
            }),
            None => {
                let Plan { body, next } = plan;
                parts.place.used += body.span;
                parts.number += batch.commands.len() as u64;
                parts.state = next;
                parts.history = parts.history.with_batch(&batch);
                let begun = owing(begun, body, parts.place.epoch + 1, &batch);
                Progress::Done(Journal::at_rest(disk, parts, begun), Written { batch })
            }
        }
    }
}
