//! What a batch writes.

use crate::batch::{Batch, apply_all, span_within};
use crate::parts::Parts;
use crate::refusal::BeginCause;
use iol_layout::{EncodedBatch, LAST_NUMBER};
use iol_types::MasterState;

/// What a batch writes, and the state after it.
#[derive(Drop)]
pub struct Plan {
    pub body: EncodedBatch,
    pub next: MasterState,
}

impl Plan {
    ghost use Rattle.std.specs.Prelude.{◌≡◌, ◌≤◌, ◌<◌, ◌+◌, length, true, None, IfOk, IfErr, OnOk};
    ghost use Rattle.iol_journal.specs.Begin.{batch_refusal, IsBatchRefusal};
    ghost use Rattle.iol_journal.specs.Parts.{stands};
    ghost use Rattle.iol_journal.specs.Planned.{CanFollow, IsPlan};
    ghost use Rattle.iol_layout.specs.Body.{slots_for, values};
    ghost use Rattle.iol_layout.specs.Geometry.{IsGeometry};
    ghost use Rattle.iol_layout.specs.Layout.{geometry_for, is_renewed};

    /// Plans what the batch writes into the free slots of a journal with these parts.
    ///
    /// # Errors
    /// `TooLarge`, then `NeedsCheckpoint`, then `Memory` or `Misfit`.
    pub fn of(parts: &Parts, batch: &Batch) -> Result<Plan, BeginCause>
        requires geometry { IsGeometry (geometry_for parts.now.place.layout) }
        requires within { parts.now.place.used ≤ parts.now.place.layout.slots }
        requires bound { parts.now.number ≤ LAST_NUMBER }
        ensures plan { IfOk result (IsPlan (stands parts.now) (values batch.now.commands.items)) }
        ensures can_follow { OnOk result (CanFollow (stands parts.now) (values batch.now.commands.items)) }
        ensures first { OnOk result (batch.now.first ≡ parts.now.number + 1) }
        ensures follows { OnOk result (batch_refusal (stands parts.now) batch.now.first (values batch.now.commands.items) ≡ None) }
        ensures few { OnOk result (slots_for (values batch.now.commands.items) ≤ length (values batch.now.commands.items)) }
        ensures cause { IfErr result (IsBatchRefusal (stands parts.now) batch.now.first (values batch.now.commands.items)) }
        // If too few slots are free in the newest layout, at least one is used.
        ensures used { IfErr result (λ cause. cause ≡ BeginCause.NeedsCheckpoint → is_renewed parts.now.place.layout ≡ true
            → 0 < parts.now.place.used) }
    {
        let slots = parts.place.layout.renewed().slots();
        let Some(span) = span_within(slots, &batch.commands) else {
            return Err(BeginCause::TooLarge);
        };
        if parts.place.free_slots() < span {
            return Err(BeginCause::NeedsCheckpoint);
        }
        let body = EncodedBatch::of(parts.alloc, parts.place.epoch, batch.first, &batch.commands)?;
        let mut next = parts.state.copy()?;
        let count = batch.commands.len() as u64;
        let number = parts.number;
        if count == 0 || batch.first != number + 1 || LAST_NUMBER - number < count {
            return Err(BeginCause::Misfit);
        }
        if apply_all(&mut next, &batch.commands)? {
            Ok(Plan { body, next })
        } else {
            Err(BeginCause::Misfit)
        }
    }
}
