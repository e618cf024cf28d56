//! A begun checkpoint: what it writes into the other area, and how far it is.

ghost use Rattle.std.specs.Prelude.{◌≡◌, ◌≤◌, ◌<◌, ◌+◌, ◌*◌, true, List, [], ◌∷◌, length, IfOk, OnOk};
ghost use Rattle.std.specs.VecDeque.{deque_capacity};
ghost use Rattle.iol_disk.specs.Disk.{Disk};
ghost use Rattle.iol_journal.specs.BegunParts.{log_of, commands_owed, view_of, IsBegun, IsOwing, AreOwing, HasRoom, AreSame};
ghost use Rattle.iol_journal.specs.Checkpoints.{target, new_begun, log_after, owed_after};
ghost use Rattle.iol_journal.specs.Drafts.{stage_after};
ghost use Rattle.iol_journal.specs.Pauses.{calls_of};
ghost use Rattle.iol_journal.specs.Parts.{stands};
ghost use Rattle.iol_layout.specs.Geometry.{IsGeometry};
ghost use Rattle.iol_layout.specs.Layout.{geometry_for, is_renewed, renewed, record_sectors};
ghost use Rattle.iol_layout.specs.Standings.{IsResting};
ghost use Rattle.iol_layout.specs.Body.{values};
ghost use Rattle.iol_layout.specs.Meaning.{Standing};
ghost use Rattle.iol_journal.specs.declared.begun.OwedBatch.{OwedBatch};
ghost use Rattle.iol_layout.specs.declared.body.TheConstants.{EPOCH_OCTETS};
ghost use Rattle.iol_layout.specs.declared.header.TheConstants.{LAST_NUMBER};

use crate::batch::Batch;
use crate::history::History;
use crate::parts::Parts;
use crate::phase::Phase;
use crate::stage::CheckpointStage;
use iol_layout::{AreaPlan, EncodedBatch, Header};
use std::alloc::AllocError;
use std::collections::VecDeque;

/// A batch that was written after the checkpoint was begun, encoded for the other area.
#[derive(Drop)]
pub struct OwedBatch {
    pub body: EncodedBatch,
    // its commands
    pub batch: History,
}

/// A begun checkpoint.
#[derive(Drop)]
pub struct Begun {
    pub plan: AreaPlan,
    pub stage: CheckpointStage,
    // the slots of the other area that carried batches take, and the number and the state after them
    pub used: usize,
    pub carried: History,
    // the batches that are still to be carried, oldest first
    pub owed: VecDeque<OwedBatch>,
}

impl Begun {
    /// Creates a checkpoint of a journal with these parts, before its first disk call. After the checkpoint no slot is used.
    ///
    /// # Errors
    /// Out of memory.
    pub fn new(parts: &Parts) -> Result<Begun, AllocError>
        requires geometry { IsGeometry (geometry_for parts.now.place.layout) }
        requires used { is_renewed parts.now.place.layout ≡ true → 0 < parts.now.place.used }
        requires epoch { parts.now.place.epoch ≤ LAST_NUMBER + 2 }
        requires ports { length parts.now.state ≡ parts.now.place.layout.ports }
        ensures view { IfOk result (λ b. view_of b ≡ new_begun (stands parts.now) parts.now.place.idle) }
        ensures begun { IfOk result (λ b. (d : Disk) → IsResting d (stands parts.now) → IsBegun d (stands parts.now) b) }
        // It makes at most one disk call for each slot, one for each sector of a port's record, and nine more.
        ensures at_most { IfOk result (λ b. length (calls_of (stands parts.now) (view_of b))
            ≤ (renewed parts.now.place.layout).slots + record_sectors (renewed parts.now.place.layout) + 9) }
    {
        let layout = parts.place.layout.renewed();
        let header = Header {
            epoch: parts.place.epoch + 1,
            base: parts.number,
            version: Some(layout.version()),
        };
        let area = parts.place.area.other();
        let plan = AreaPlan::of(parts.alloc, layout, area, header, &parts.state)?;
        Ok(Begun {
            plan,
            stage: CheckpointStage::first(parts.place.idle),
            used: 0,
            carried: History::begun(parts.number, &parts.state),
            owed: VecDeque::new(parts.alloc),
        })
    }

    // The number of sectors of the first owed batch, or 0 if none is owed.
    fn first_sectors(&self) -> usize
        ensures some { (first : OwedBatch) (behind : List OwedBatch) → self.now.owed.items ≡ first ∷ behind
            → result ≡ first.body.sectors }
        ensures none { self.now.owed.items ≡ [] → result ≡ 0 }
    {
        match self.owed.front() {
            Some(first) => first.body.sectors,
            None => 0,
        }
    }

    /// The stage after the next disk call, in an area of `slots` slots.
    pub fn next_stage(&self, slots: usize) -> Option<CheckpointStage>
        requires few { slots ≤ 256 }
        requires begun { (d : Disk) × (s : Standing) × IsBegun d s self.now × (slots ≡ (renewed s.layout).slots) }
        ensures { (d : Disk) (s : Standing) → IsBegun d s self.now → slots ≡ (renewed s.layout).slots
            → result ≡ stage_after (target s (log_of self.now)) (commands_owed self.now.owed.items) self.now.stage }
    {
        let sectors = self.first_sectors();
        self.stage
            .next(slots, self.plan.records.len(), sectors, self.owed.len())
    }

    /// The checkpoint after its disk call, at the stage `next`, in an area of `slots` slots: a batch whose open gate is durable
    /// is carried.
    pub fn moved_to(self, next: CheckpointStage, slots: usize) -> Begun
        requires few { slots ≤ 256 }
        requires begun { (d : Disk) × (s : Standing) × IsBegun d s self × (slots ≡ (renewed s.layout).slots) }
        ensures plan { result.plan ≡ self.plan }
        ensures log { log_of result ≡ log_after (log_of self) (commands_owed self.owed.items) self.stage }
        ensures owed { result.owed.items ≡ owed_after self.owed.items self.stage }
        ensures stage { result.stage ≡ next }
    {
        let Begun {
            plan,
            stage,
            used,
            carried,
            mut owed,
        } = self;
        match stage {
            CheckpointStage::Carry(Phase::SyncGate) => {
                let Some(first) = owed.pop_front() else {
                    unreachable!()
                };
                Begun {
                    plan,
                    stage: next,
                    used: used + first.body.span,
                    carried: carried.behind(&first.batch),
                    owed,
                }
            }
            _ => Begun {
                plan,
                stage: next,
                used,
                carried,
                owed,
            },
        }
    }

    // Adds a batch that was just written to the owed ones, under the epoch of the other area.
    fn owing(self, body: EncodedBatch, epoch: u64, batch: &Batch) -> Begun
        requires room { length self.owed.items < deque_capacity self.owed }
        requires octets { EPOCH_OCTETS ≤ length body.octets.items }
        ensures { IsOwing self body epoch (values batch.now.commands.items) result }
    {
        let Begun {
            plan,
            stage,
            used,
            carried,
            mut owed,
        } = self;
        owed.push_back_reserved(OwedBatch {
            body: body.under(epoch),
            batch: History::of(batch),
        });
        Begun {
            plan,
            stage: stage.owing(),
            used,
            carried,
            owed,
        }
    }
}

/// Adds a batch that was just written to the owed ones of the paused checkpoint, if one is paused.
pub fn owing(begun: Option<Begun>, body: EncodedBatch, epoch: u64, batch: &Batch) -> Option<Begun>
    requires room { HasRoom begun }
    requires octets { EPOCH_OCTETS ≤ length body.octets.items }
    ensures { AreOwing begun body epoch (values batch.now.commands.items) result }
{
    match begun {
        Some(begun) => Some(begun.owing(body, epoch, batch)),
        None => None,
    }
}

/// Reserves capacity for one more owed batch, if a checkpoint is paused.
///
/// # Errors
/// Out of memory; the checkpoint does not change.
pub fn make_room(begun: &mut Option<Begun>) -> Result<(), AllocError>
    ensures same { AreSame begun.old begun.new }
    ensures room { OnOk result (HasRoom begun.new) }
{
    match begun {
        Some(begun) => begun.owed.reserve(1),
        None => Ok(()),
    }
}
