//! A journal at rest, and which batches it takes.

use crate::batch::Batch;
use crate::begun::{Begun, make_room};
use crate::parts::Parts;
use crate::plan::Plan;
use crate::refusal::BeginCause;
use crate::writing::Writing;
use iol_disk::SectorDisk;
use iol_layout::{BODY_HEAD_OCTETS, BODY_OCTETS};
use std::alloc::AllocError;
use std::marker::Model;

/// A journal at rest: all its commands are durable. It owns its disk, and keeps the state that the disk means. A checkpoint of it
/// may be paused.
#[derive(Drop)]
pub struct Journal<D: SectorDisk> {
    pub(crate) disk: D,
    pub(crate) parts: Parts,
    // the paused checkpoint
    pub(crate) begun: Option<Begun>,
}

impl<D: SectorDisk> Model for Journal<D> {
    ghost use Rattle.std.specs.Option.{option_map};
    ghost use Rattle.iol_journal.specs.BegunParts.{view_of, IsSetAside};
    ghost use Rattle.iol_journal.specs.Journals.{JournalView};
    ghost use Rattle.iol_layout.specs.Standings.{IsResting};
    ghost use Rattle.iol_journal.specs.Parts.{stands};
    ghost use Rattle.iol_journal.specs.Planned.{LeadsTo};

    ghost Value = { JournalView D };

    ghost view = { λ j. record {
      disk = j.disk;
      standing = stands j.parts;
      idle = j.parts.place.idle;
      history = j.parts.history;
      begun = option_map view_of j.begun;
    } };

    ghost invariant = { λ j. IsResting (D.disk j.disk) (stands j.parts) × LeadsTo (stands j.parts) j.parts.history
        × IsSetAside (D.disk j.disk) (stands j.parts) j.parts.place.idle j.begun };
}

/// Why a checkpoint was not begun, with the unchanged journal.
#[derive(Drop)]
pub struct CheckpointFault<D: SectorDisk> {
    pub cause: AllocError,
    pub journal: Journal<D>,
}

/// Why a batch was not begun, with the unchanged journal and batch.
#[derive(Drop)]
pub struct BeginFault<D: SectorDisk> {
    pub cause: BeginCause,
    pub journal: Journal<D>,
    pub batch: Batch,
}

impl<D: SectorDisk> Journal<D> {
    ghost use Rattle.std.specs.Prelude.{◌≡◌, ◌≤◌, ◌<◌, ◌+◌, ◌*◌, ◌++◌, ℕ, nat_lt, nat_le, true, false, List, length, None, is_some};
    ghost use Rattle.std.specs.Prelude.{IfOk, IfErr, OnOk};
    ghost use Rattle.std.specs.Option.{option_map};
    ghost use Rattle.iol_journal.specs.BegunParts.{view_of, IsSetAside};
    ghost use Rattle.iol_journal.specs.Pauses.{IsPaused, IsBeside};
    ghost use Rattle.iol_journal.specs.Begin.{batch_refusal, room_in, IsBatchRefusal};
    ghost use Rattle.iol_journal.specs.Phases.{IsAtRest};
    ghost use Rattle.iol_journal.specs.Underway.{IsUnderway};
    ghost use Rattle.iol_journal.specs.Batches.{batch_calls};
    ghost use Rattle.iol_journal.specs.Runs.{Run, with_batch_begun};
    ghost use Rattle.iol_journal.specs.Running.{IsRunAtRest, IsRunWriting};
    ghost use Rattle.iol_types.specs.Command.{CommandValue};
    ghost use Rattle.iol_layout.specs.Layout.{is_renewed, renewed};
    ghost use Rattle.iol_layout.specs.Standings.{IsResting, free_slots};
    ghost use Rattle.iol_journal.specs.Parts.{stands};
    ghost use Rattle.iol_layout.specs.Body.{values};
    ghost use Rattle.iol_journal.specs.Journals.{calls_left, writing_of};
    ghost use Rattle.iol_journal.specs.Planned.{IsPlan, IsPlanned, LeadsTo};
    ghost use Rattle.iol_layout.specs.Body.{slots_of, slots_for};
    ghost use Rattle.iol_layout.specs.declared.body.TheConstants.{MOST_RECORD_OCTETS};
    ghost use Rattle.iol_disk.specs.declared.slot.TheConstants.{BODY_SECTORS};
    ghost use Rattle.iol_layout.specs.declared.header.TheConstants.{LAST_NUMBER};
    ghost use Rattle.iol_journal.specs.declared.phase.Phase.TheVariants.{Body};

    // Creates a journal at rest from these parts, with this checkpoint paused.
    pub(crate) fn at_rest(disk: D, parts: Parts, begun: Option<Begun>) -> Journal<D>
        requires resting { IsResting (D.disk disk) (stands parts) }
        requires history { LeadsTo (stands parts) parts.history }
        requires begun { IsSetAside (D.disk disk) (stands parts) parts.place.idle begun }
        ensures disk { result.disk ≡ disk }
        ensures standing { result.standing ≡ stands parts }
        ensures idle { result.idle ≡ parts.place.idle }
        ensures history { result.history ≡ parts.history }
        ensures begun { result.begun ≡ option_map view_of begun }
    {
        Journal { disk, parts, begun }
    }

    /// The number of commands on its disk.
    pub fn number(&self) -> u64
        ensures number { result ≡ self.now.standing.number }
        ensures bound { result ≤ LAST_NUMBER }
        // What it has done since its recovery leads to its number and state.
        ensures leads { LeadsTo self.now.standing self.now.history }
    {
        self.parts.number
    }

    /// Whether a slot is free; in an older layout none is. If none is free, a checkpoint comes before the next batch.
    pub fn has_free_slot(&self) -> bool
        ensures free { result ≡ nat_lt 0 (free_slots self.now.standing) }
        ensures used { result ≡ false → is_renewed self.now.standing.layout ≡ true → 0 < self.now.standing.used }
    {
        0 < self.parts.place.free_slots()
    }

    /// Whether it has the newest layout. If its layout is an older one, a checkpoint comes before all else and writes the newest
    /// one.
    pub fn is_renewed(&self) -> bool
        ensures { result ≡ is_renewed self.now.standing.layout }
    {
        self.parts.place.layout.is_renewed()
    }

    /// Whether at least half of the slots are used: a checkpoint begun then can end before the other slots are full.
    pub fn is_half_used(&self) -> bool
        ensures half { result ≡ nat_le self.now.standing.layout.slots (2 * self.now.standing.used) }
        ensures used { result ≡ true → 0 < self.now.standing.used }
    {
        self.parts.place.layout.slots() <= 2 * self.parts.place.used
    }

    /// Whether a checkpoint is paused.
    pub fn is_paused(&self) -> bool
        ensures { result ≡ is_some self.now.begun }
    {
        self.begun.is_some()
    }

    /// The number of record octets that fit the free slots, or one slot if none is free: 8,192 for each slot, less 22.
    pub fn room(&self) -> usize
        ensures room { result ≡ room_in self.now.standing }
        ensures least { MOST_RECORD_OCTETS ≤ result }
        // Records with at most this number of octets fit an area, in the newest layout.
        ensures fits { (octets : ℕ) → octets ≤ result → slots_of octets ≤ (renewed self.now.standing.layout).slots }
    {
        let free = self.parts.place.free_slots();
        BODY_OCTETS * free.max(1) - BODY_HEAD_OCTETS
    }

    /// The disk as it is now.
    pub fn disk_ref(&self) -> &D
        ensures { result.now ≡ self.now.disk }
    {
        &self.disk
    }

    /// Gives up the journal and returns the disk, to be recovered again.
    pub fn disk(self) -> D
        ensures { result ≡ self.disk }
    {
        let Journal {
            disk,
            parts: _,
            begun: _,
        } = self;
        disk
    }

    /// Prepares a batch to be written. Its steps then allocate no memory. If a checkpoint is paused, the batch is kept, to be
    /// carried into the other area.
    ///
    /// # Errors
    /// `TooLarge`, then `NeedsCheckpoint`, then `Memory` or `Misfit`; the journal and the batch are returned.
    pub fn begin(self, batch: Batch) -> Result<Writing<D>, BeginFault<D>>
        ensures begun { IfOk result (λ w. w ≡ writing_of self (values batch.commands.items)) }
        // Its steps make these disk calls: at most 16 for each slot, and three more.
        ensures calls { IfOk result (λ w. calls_left w ≡ batch_calls self.standing (values batch.commands.items)) }
        ensures at_most { IfOk result (λ w. length (calls_left w) ≤ BODY_SECTORS * slots_for (values batch.commands.items) + 3) }
        // A command takes at most one slot, so there are at most 16 for each command, and three more.
        ensures few { IfOk result (λ w. length (calls_left w) ≤ BODY_SECTORS * length (values batch.commands.items) + 3) }
        // It does not change what the disk means.
        ensures underway { IsAtRest (D.disk self.disk) self.standing self.idle → IfOk result (λ w. IsUnderway D.disk w) }
        ensures beside { IfOk result (λ w. IsPaused (D.disk self.disk) self.standing self.begun
            → IsBeside (D.disk w.disk) w.standing w.begun) }
        // Each run of the journal continues as one whose first queued commands are underway.
        ensures run { IfOk result (λ w. (r : Run) (behind : List CommandValue) → r.queued ≡ values batch.commands.items ++ behind
            → IsRunAtRest D.disk r self → IsRunWriting D.disk (with_batch_begun r (values batch.commands.items) behind) w) }
        ensures follows { OnOk result (batch_refusal self.standing batch.first (values batch.commands.items) ≡ None) }
        ensures cause { IfErr result (λ fault. IsBatchRefusal self.standing batch.first (values batch.commands.items) fault.cause) }
        // If too few slots are free, a checkpoint can be made.
        ensures used { IfErr result (λ fault. fault.cause ≡ BeginCause.NeedsCheckpoint → is_renewed self.standing.layout ≡ true
            → 0 < self.standing.used) }
        ensures back { IfErr result (λ fault. (fault.journal ≡ self) × (fault.batch ≡ batch)) }
    {
        match self.plan(&batch) {
            Ok(plan) => self.begin_planned(batch, plan),
            Err(cause) => Err(BeginFault {
                cause,
                journal: self,
                batch,
            }),
        }
    }

    // Prepares a planned batch.
    fn begin_planned(self, batch: Batch, plan: Plan) -> Result<Writing<D>, BeginFault<D>>
        requires planned { IsPlanned (D.disk self.disk) self.standing (values batch.commands.items) (Body 0) }
        requires plan { IsPlan self.standing (values batch.commands.items) plan }
        requires first { batch.first ≡ self.standing.number + 1 }
        ensures begun { IfOk result (λ w. w ≡ writing_of self (values batch.commands.items)) }
        ensures beside { IfOk result (λ w. IsPaused (D.disk self.disk) self.standing self.begun
            → IsBeside (D.disk w.disk) w.standing w.begun) }
        ensures back { IfErr result (λ fault. (fault.cause ≡ BeginCause.Memory) × (fault.journal ≡ self) × (fault.batch ≡ batch)) }
    {
        let Journal {
            disk,
            parts,
            mut begun,
        } = self;
        match make_room(&mut begun) {
            Ok(()) => Ok(Writing::begun(disk, parts, begun, batch, plan)),
            Err(error) => Err(BeginFault {
                cause: error.into(),
                journal: Journal::at_rest(disk, parts, begun),
                batch,
            }),
        }
    }

    // Plans what the batch writes, and the state after it.
    fn plan(&self, batch: &Batch) -> Result<Plan, BeginCause>
        ensures planned { IfOk result (λ plan. IsPlanned (D.disk self.now.disk) self.now.standing (values batch.now.commands.items) (Body 0)
            × IsPlan self.now.standing (values batch.now.commands.items) plan
            × (batch.now.first ≡ self.now.standing.number + 1)) }
        ensures few { OnOk result (slots_for (values batch.now.commands.items) ≤ length (values batch.now.commands.items)) }
        ensures follows { OnOk result (batch_refusal self.now.standing batch.now.first (values batch.now.commands.items) ≡ None) }
        ensures cause { IfErr result (IsBatchRefusal self.now.standing batch.now.first (values batch.now.commands.items)) }
        ensures used { IfErr result (λ cause. cause ≡ BeginCause.NeedsCheckpoint → is_renewed self.now.standing.layout ≡ true
            → 0 < self.now.standing.used) }
    {
        Plan::of(&self.parts, batch)
    }
}
