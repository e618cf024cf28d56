//! The stages of a flusher.

ghost use Rattle.std.specs.Prelude.{◌≡◌};
ghost use Rattle.iol_flush.specs.Stages.{is_due, need_of, disk_of, failure_of};
ghost use Rattle.iol_flush.specs.declared.stage.FlushStage.TheVariants.{Resting};

use crate::need::Need;
use iol_disk::{DiskFault, SectorDisk};
use iol_journal::{Batch, Checkpointing, Journal, Writing, Written};

/// How far a flusher is with a batch or a checkpoint.
pub enum FlushStage<D: SectorDisk> {
    /// All given batches are published. A checkpoint may be paused.
    Resting(Journal<D>),
    /// A checkpoint that cannot be paused is being written, because it writes another layout or the gate of the other area is
    /// written. No batch waits.
    Opening(Checkpointing<D>),
    /// A batch was given, and none of its disk calls is made yet.
    Given(Journal<D>, Batch),
    /// Too few slots were free for the batch, so a checkpoint is being written first.
    Checkpointing(Checkpointing<D>, Batch),
    /// The batch is being written.
    Writing(Writing<D>),
    /// The batch is durable but not yet published.
    Publishing(Journal<D>, Written),
    /// A disk call has failed.
    Failed(D, DiskFault),
}

impl<D: SectorDisk> FlushStage<D> {
    // Returns the call that is needed next.
    pub(crate) fn needs(&self) -> Need
        ensures { result ≡ need_of self.now }
    {
        match self {
            FlushStage::Resting(journal) => need_at_rest(journal),
            FlushStage::Opening(_) | FlushStage::Given(..) => Need::Disk,
            FlushStage::Checkpointing(..) | FlushStage::Writing(_) => Need::Disk,
            FlushStage::Publishing(..) => Need::Publish,
            FlushStage::Failed(..) => Need::Stopped,
        }
    }

    // The disk as it is now.
    pub(crate) fn disk_ref(&self) -> &D
        ensures { result.now ≡ disk_of self.now }
    {
        match self {
            FlushStage::Resting(journal)
            | FlushStage::Given(journal, _)
            | FlushStage::Publishing(journal, _) => journal.disk_ref(),
            FlushStage::Opening(checkpointing) | FlushStage::Checkpointing(checkpointing, _) => {
                checkpointing.disk_ref()
            }
            FlushStage::Writing(writing) => writing.disk_ref(),
            FlushStage::Failed(disk, _) => disk,
        }
    }

    // The fault of the disk call that failed, if one has.
    pub(crate) fn failed(&self) -> Option<DiskFault>
        ensures { result ≡ failure_of self.now }
    {
        match self {
            FlushStage::Failed(_, fault) => Some(*fault),
            _ => None,
        }
    }
}

// Returns the call that is needed while the journal is at rest.
fn need_at_rest<D: SectorDisk>(journal: &Journal<D>) -> Need
    ensures { result ≡ need_of (Resting journal.now) }
{
    if !is_due(journal) {
        Need::Batch
    } else if journal.is_renewed() {
        Need::BatchOrDisk
    } else {
        Need::Disk
    }
}

// Whether a checkpoint is due: one is paused and must continue, or a new one must begin because the layout is an older one or half
// of the slots are used.
fn is_due<D: SectorDisk>(journal: &Journal<D>) -> bool
    ensures { result ≡ is_due journal.now }
{
    !journal.is_renewed() || journal.is_paused() || journal.is_half_used()
}
