//! The checkpoint of a journal at rest: a new one, or the paused one.

use crate::begun::Begun;
use crate::checkpointing::Checkpointing;
use crate::journal::{CheckpointFault, Journal};
use iol_disk::SectorDisk;
use std::alloc::AllocError;

impl<D: SectorDisk> Journal<D> {
    ghost use Rattle.std.specs.Prelude.{◌≡◌, ◌≤◌, ◌<◌, ◌+◌, ◌*◌, true, [], length, Some, None, is_some, IfOk, IfErr};
    ghost use Rattle.iol_journal.specs.BegunParts.{view_of, IsBegun};
    ghost use Rattle.iol_journal.specs.Checkpoints.{checkpointed, checkpoint_calls, new_begun};
    ghost use Rattle.iol_journal.specs.CheckpointViews.{checkpoint_of, stages_left, IsCheckpointUnderway};
    ghost use Rattle.iol_journal.specs.Pauses.{calls_of, IsPaused};
    ghost use Rattle.iol_journal.specs.CheckpointRuns.{IsRunCheckpointing};
    ghost use Rattle.iol_journal.specs.Runs.{Run};
    ghost use Rattle.iol_journal.specs.Running.{IsRunAtRest};
    ghost use Rattle.iol_journal.specs.Phases.{IsAtRest};
    ghost use Rattle.iol_layout.specs.Layout.{is_renewed, renewed, record_sectors};

    /// Prepares a checkpoint, which writes the newest layout and frees all slots except those of batches written while it is
    /// paused. If a checkpoint is paused, continues that one without allocating. The steps allocate no memory.
    ///
    /// # Errors
    /// Out of memory, only if none is paused; the journal is returned.
    pub fn checkpoint(self) -> Result<Checkpointing<D>, CheckpointFault<D>>
        requires { self.begun ≡ None → is_renewed self.standing.layout ≡ true → 0 < self.standing.used }
        ensures begun { IfOk result (λ c. c ≡ checkpoint_of self) }
        // A new one makes these disk calls: at most one for each slot, one for each sector of a port's record, and nine more.
        ensures calls { self.begun ≡ None
            → IfOk result (λ c. stages_left c ≡ checkpoint_calls (checkpointed self.standing) [] self.idle) }
        ensures at_most { self.begun ≡ None
            → IfOk result (λ c. length (stages_left c)
            ≤ (renewed self.standing.layout).slots + record_sectors (renewed self.standing.layout) + 9) }
        // A continued one carries batches that take no more slots than an area has, with at most 19 calls for each slot.
        ensures carrying { IfOk result (λ c.
            length (stages_left c) ≤ 20 * (renewed self.standing.layout).slots + record_sectors (renewed self.standing.layout) + 9) }
        // It does not change what the disk means.
        ensures underway { IsAtRest (D.disk self.disk) self.standing self.idle → IsPaused (D.disk self.disk) self.standing self.begun
            → IfOk result (λ c. IsCheckpointUnderway D.disk c) }
        // Each run of the journal continues.
        ensures run { IfOk result (λ c. (r : Run) → IsRunAtRest D.disk r self → IsRunCheckpointing D.disk r c) }
        ensures back { IfErr result (λ fault. fault.journal ≡ self) }
        // A continued one needs no memory.
        ensures memory { IfErr result (λ fault. self.begun ≡ None) }
    {
        if self.begun.is_some() {
            return Ok(self.go_on());
        }
        match self.new_checkpoint() {
            Ok(begun) => Ok(self.with_checkpoint(begun)),
            Err(cause) => Err(CheckpointFault {
                cause,
                journal: self,
            }),
        }
    }

    // Continues the paused checkpoint.
    fn go_on(self) -> Checkpointing<D>
        requires { is_some self.begun ≡ true }
        ensures begun { result ≡ checkpoint_of self }
        ensures carrying { length (stages_left result)
            ≤ 20 * (renewed self.standing.layout).slots + record_sectors (renewed self.standing.layout) + 9 }
    {
        let Journal { disk, parts, begun } = self;
        let Some(begun) = begun else { unreachable!() };
        Checkpointing::of(disk, parts, begun)
    }

    // Starts this checkpoint.
    fn with_checkpoint(self, begun: Begun) -> Checkpointing<D>
        requires { IsBegun (D.disk self.disk) self.standing begun }
        ensures { result ≡ record { disk = self.disk; standing = self.standing; history = self.history; begun = view_of begun } }
    {
        let Journal {
            disk,
            parts,
            begun: _,
        } = self;
        Checkpointing::of(disk, parts, begun)
    }

    // Creates a new checkpoint.
    fn new_checkpoint(&self) -> Result<Begun, AllocError>
        requires { is_renewed self.now.standing.layout ≡ true → 0 < self.now.standing.used }
        ensures begun { IfOk result (IsBegun (D.disk self.now.disk) self.now.standing) }
        ensures view { IfOk result (λ b. view_of b ≡ new_begun self.now.standing self.now.idle) }
        ensures at_most { IfOk result (λ b. length (calls_of self.now.standing (view_of b))
            ≤ (renewed self.now.standing.layout).slots + record_sectors (renewed self.now.standing.layout) + 9) }
    {
        Begun::new(&self.parts)
    }
}
