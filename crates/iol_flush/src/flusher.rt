//! The flusher, and its calls.

ghost use Rattle.std.specs.Prelude.{◌≡◌, ◌≤◌, ◌⊎◌, true};
ghost use Rattle.iol_flush.specs.Stages.{need_of, names_batch, names_disk, room_of, disk_of, failure_of};
ghost use Rattle.iol_flush.specs.Stages.{FitsArea, HasHistory, HasFewCalls, IsInStep};
ghost use Rattle.iol_flush.specs.Steps.{IsDiskStep, IsGift, HasGivenUp, IsPublished, IsEnd, IsWithdrawn};
ghost use Rattle.iol_flush.specs.Flushing.{KeepsRun, IsSound};
ghost use Rattle.iol_flush.specs.declared.need.Need.TheVariants as need;
ghost use Rattle.iol_flush.specs.declared.stage.FlushStage.TheVariants as stage;

use crate::disk_call::make_call;
use crate::fault::{FlushFault, GiveFault};
use crate::need::Need;
use crate::stage::FlushStage;
use core::mem::replace_with;
use iol_disk::{DiskFault, SectorDisk};
use iol_front::{Committed, Name, Publisher};
use iol_journal::{Batch, Journal, MOST_RECORD_OCTETS, Written};
use std::marker::Model;

/// Writes batches to the disk and publishes them. Contracts see it as the record `FlusherView` of `specs/Stages.antt`: its stage,
/// and the published list.
pub struct Flusher<D: SectorDisk, F: Name> {
    stage: FlushStage<D>,
    publisher: Publisher<F>,
}

impl<D: SectorDisk, F: Name> Model for Flusher<D, F> {
    ghost use Rattle.iol_flush.specs.Stages.{FlusherView, IsInStep, HasFewCalls};

    ghost Value = { FlusherView D };

    ghost view = { λ f. record { stage = f.stage; published = f.publisher } };

    ghost invariant = { λ f. IsInStep F.front.start f.stage f.publisher × HasFewCalls f.stage };
}

/// What a flusher returns when it ends.
#[derive(Drop)]
pub enum FlushEnd<D: SectorDisk, F: Name> {
    /// The journal at rest, and the publisher. A durable batch that was not published yet is missing from the publisher's list. A
    /// checkpoint that was begun is paused in the journal.
    Closed(Journal<D>, Publisher<F>),
    /// A batch was given and is not yet durable, or a checkpoint that cannot be paused is being written. The disk may be recovered
    /// again.
    Midway(D),
    /// A disk call failed. Stop using a disk after a failed sync: many systems drop the pages of a failed sync and report success
    /// for the next one. After another fault the disk may be recovered again.
    Faulted(D, DiskFault),
}

impl<D: SectorDisk, F: Name> Flusher<D, F> {
    /// Creates a flusher from a journal and the publisher of its list.
    pub fn new(journal: Journal<D>, publisher: Publisher<F>) -> Flusher<D, F>
        requires list { HasHistory F.front.start publisher journal.history }
        ensures { result ≡ record { stage = stage.Resting journal; published = publisher } }
    {
        let _number = journal.number();
        Flusher {
            stage: FlushStage::Resting(journal),
            publisher,
        }
    }

    /// Returns the call that the flusher needs next.
    pub fn needs(&self) -> Need
        ensures need { result ≡ need_of self.now.stage }
        // The journal's list is the published list followed by the batch that is still to be published.
        ensures in_step { IsInStep F.front.start self.now.stage self.now.published }
        ensures few { HasFewCalls self.now.stage }
    {
        self.stage.needs()
    }

    /// The number of record octets that a batch given now may have: the capacity of the free slots of the journal at rest, or of
    /// one slot, 8,170, if none is free or at another stage.
    pub fn room(&self) -> usize
        ensures room { result ≡ room_of self.now.stage }
        ensures least { MOST_RECORD_OCTETS ≤ result }
        // A batch with at most this number of octets fits the area.
        ensures fits { FitsArea self.now.stage result }
    {
        match &self.stage {
            FlushStage::Resting(journal) => journal.room(),
            _ => MOST_RECORD_OCTETS,
        }
    }

    /// The disk as it is now.
    pub fn disk_ref(&self) -> &D
        ensures { result.now ≡ disk_of self.now.stage }
    {
        self.stage.disk_ref()
    }

    /// The fault of the disk call that failed, if one has.
    pub fn failed(&self) -> Option<DiskFault>
        ensures { result ≡ failure_of self.now.stage }
    {
        self.stage.failed()
    }

    /// Accepts a batch to be written. No disk call is made yet.
    ///
    /// # Errors
    /// `Stopped` with the batch if a disk call has failed; nothing changes.
    pub fn give(&mut self, batch: Batch) -> Result<(), GiveFault>
        requires { (names_batch (need_of self.old.stage) ≡ true) ⊎ (need_of self.old.stage ≡ need.Stopped) }
        ensures gift { IsGift self.old.stage batch self.new.stage result }
        ensures published { self.new.published ≡ self.old.published }
    {
        replace_with(&mut self.stage, batch, with_batch)
    }

    /// Takes back the given batch if no disk call was made for it, for example because memory stays short. The journal is then at
    /// rest. It allocates no memory.
    pub fn withdraw(&mut self) -> Option<Batch>
        ensures withdrawn { IsWithdrawn self.old.stage self.new.stage result }
        ensures published { self.new.published ≡ self.old.published }
    {
        replace_with(&mut self.stage, (), without_batch)
    }

    /// Makes the journal's next disk call: of the given batch or, if too few slots are free for it, of a checkpoint. If no batch
    /// was given, the call belongs to the checkpoint that is due, which is then paused, if possible, until the next call.
    ///
    /// # Errors
    /// `Stopped` if an earlier disk call failed, `Memory` if out of memory, and `Misfit` if the batch does not follow the journal
    /// or is too large: nothing changes. `Disk` if this call fails.
    pub fn disk_step(&mut self) -> Result<(), FlushFault>
        requires { (names_disk (need_of self.old.stage) ≡ true) ⊎ (need_of self.old.stage ≡ need.Stopped) }
        ensures step { IsDiskStep D.disk self.old.stage self.new.stage result }
        ensures published { self.new.published ≡ self.old.published }
        // The batch or checkpoint that is then being written has few disk calls left.
        ensures few { HasFewCalls self.new.stage }
        // Each run of the journal continues: every image since a moment of the run has all commands acknowledged by then.
        ensures run { KeepsRun D.disk self.old.stage self.new.stage }
        // If each image was kept before, each is still kept.
        ensures sound { IsSound D.disk self.old.stage → IsSound D.disk self.new.stage }
    {
        replace_with(&mut self.stage, (), make_call)
    }

    /// Publishes the durable batch. It allocates no memory.
    ///
    /// # Errors
    /// `Stopped` if a disk call has failed; nothing changes.
    pub fn publish(&mut self) -> Result<Committed<F>, FlushFault>
        requires { (need_of self.old.stage ≡ need.Publish) ⊎ (need_of self.old.stage ≡ need.Stopped) }
        ensures { IsPublished self.old self.new result }
    {
        match replace_with(&mut self.stage, (), take_written) {
            Some(written) => Ok(self.publisher.publish(written)),
            None => Err(FlushFault::Stopped),
        }
    }

    /// Ends the flusher and returns what it holds.
    pub fn end(self) -> FlushEnd<D, F>
        ensures end { IsEnd self result }
        ensures in_step { IsInStep F.front.start self.stage self.published }
    {
        let Flusher { stage, publisher } = self;
        match stage {
            FlushStage::Resting(journal) => FlushEnd::Closed(journal, publisher),
            FlushStage::Publishing(journal, written) => {
                let _batch = written.into_batch();
                FlushEnd::Closed(journal, publisher)
            }
            FlushStage::Opening(checkpointing) => FlushEnd::Midway(checkpointing.disk()),
            FlushStage::Given(journal, _batch) => FlushEnd::Midway(journal.disk()),
            FlushStage::Checkpointing(checkpointing, _batch) => FlushEnd::Midway(
                checkpointing.disk(),
            ),
            FlushStage::Writing(writing) => FlushEnd::Midway(writing.disk()),
            FlushStage::Failed(disk, fault) => FlushEnd::Faulted(disk, fault),
        }
    }
}

// Returns the stage after a batch is given, or refuses the batch if a disk call has failed.
fn with_batch<D: SectorDisk>(
    stage: FlushStage<D>,
    batch: Batch,
) -> (FlushStage<D>, Result<(), GiveFault>)
    requires { (names_batch (need_of stage) ≡ true) ⊎ (need_of stage ≡ need.Stopped) }
    ensures { IsGift stage batch result.0 result.1 }
{
    match stage {
        FlushStage::Resting(journal) => (FlushStage::Given(journal, batch), Ok(())),
        FlushStage::Failed(disk, fault) => {
            (
                FlushStage::Failed(disk, fault),
                Err(GiveFault::Stopped(batch)),
            )
        }
        _ => unreachable!(),
    }
}

// Returns the stage without the batch for which no disk call was made, and that batch.
fn without_batch<D: SectorDisk>(stage: FlushStage<D>, _call: ()) -> (FlushStage<D>, Option<Batch>)
    ensures { IsWithdrawn stage result.0 result.1 }
{
    match stage {
        FlushStage::Given(journal, batch) => (FlushStage::Resting(journal), Some(batch)),
        other => (other, None),
    }
}

// Returns the stage without the durable batch, and that batch.
fn take_written<D: SectorDisk>(stage: FlushStage<D>, _call: ()) -> (FlushStage<D>, Option<Written>)
    requires { (need_of stage ≡ need.Publish) ⊎ (need_of stage ≡ need.Stopped) }
    ensures { HasGivenUp stage result.0 result.1 }
{
    match stage {
        FlushStage::Publishing(journal, written) => (FlushStage::Resting(journal), Some(written)),
        FlushStage::Failed(disk, fault) => (FlushStage::Failed(disk, fault), None),
        _ => unreachable!(),
    }
}
