//! One disk call of a flusher's journal.

ghost use Rattle.std.specs.Prelude.{◌≡◌, ◌<◌, ◌⊎◌, true, false};
ghost use Rattle.iol_journal.specs.Begin.{fits_no_area, wants_checkpoint};
ghost use Rattle.iol_journal.specs.Layout.{is_renewed};
ghost use Rattle.iol_journal.specs.Body.{values};
ghost use Rattle.iol_flush.specs.Stages.{HasFewCalls, is_due, names_disk, need_of};
ghost use Rattle.iol_flush.specs.Steps.{IsDiskStep, IsLeftPaused};
ghost use Rattle.iol_flush.specs.Flushing.{KeepsRun, IsSound};
ghost use Rattle.iol_flush.specs.declared.need.Need.TheVariants as need;
ghost use Rattle.iol_flush.specs.declared.stage.FlushStage.TheVariants as stage;

use crate::fault::FlushFault;
use crate::stage::FlushStage;
use iol_disk::SectorDisk;
use iol_journal::{
    Batch, BeginCause, BeginFault, CheckpointFault, CheckpointProgress, Checkpointing, Journal,
    Progress, Writing,
};

// Makes the next disk call, unless an earlier one failed.
pub(crate) fn make_call<D: SectorDisk>(
    stage: FlushStage<D>,
    _call: (),
) -> (FlushStage<D>, Result<(), FlushFault>)
    requires needs { (names_disk (need_of stage) ≡ true) ⊎ (need_of stage ≡ need.Stopped) }
    requires few { HasFewCalls stage }
    ensures step { IsDiskStep D.disk stage result.0 result.1 }
    ensures few { HasFewCalls result.0 }
    ensures run { KeepsRun D.disk stage result.0 }
    ensures sound { IsSound D.disk stage → IsSound D.disk result.0 }
{
    match stage {
        FlushStage::Resting(journal) => go_on(journal),
        FlushStage::Opening(checkpointing) => advance(checkpointing),
        FlushStage::Given(journal, batch) => begin(journal, batch),
        FlushStage::Checkpointing(checkpointing, batch) => checkpoint(checkpointing, batch),
        FlushStage::Writing(writing) => write(writing),
        FlushStage::Failed(disk, fault) => (
            FlushStage::Failed(disk, fault),
            Err(FlushFault::Stopped),
        ),
        FlushStage::Publishing(..) => unreachable!(),
    }
}

// Makes the next disk call of the due checkpoint while no batch is given.
fn go_on<D: SectorDisk>(journal: Journal<D>) -> (FlushStage<D>, Result<(), FlushFault>)
    requires due { is_due journal ≡ true }
    ensures step { IsDiskStep D.disk (stage.Resting journal) result.0 result.1 }
    ensures few { HasFewCalls result.0 }
    ensures run { KeepsRun D.disk (stage.Resting journal) result.0 }
    ensures sound { IsSound D.disk (stage.Resting journal) → IsSound D.disk result.0 }
{
    let _half = journal.is_half_used();
    match journal.checkpoint() {
        Ok(checkpointing) => advance(checkpointing),
        Err(fault) => {
            let CheckpointFault { cause: _, journal } = fault;
            (FlushStage::Resting(journal), Err(FlushFault::Memory))
        }
    }
}

// Makes the next disk call of a checkpoint while no batch waits for it.
fn advance<D: SectorDisk>(
    checkpointing: Checkpointing<D>,
) -> (FlushStage<D>, Result<(), FlushFault>)
    requires few { HasFewCalls (stage.Opening checkpointing) }
    ensures step { IsDiskStep D.disk (stage.Opening checkpointing) result.0 result.1 }
    ensures few { HasFewCalls result.0 }
    ensures run { KeepsRun D.disk (stage.Opening checkpointing) result.0 }
    ensures sound { IsSound D.disk (stage.Opening checkpointing) → IsSound D.disk result.0 }
{
    match checkpointing.step() {
        CheckpointProgress::More(more) => (set_aside(more), Ok(())),
        CheckpointProgress::Done(journal) => (FlushStage::Resting(journal), Ok(())),
        CheckpointProgress::Failed(disk, fault) => {
            (
                FlushStage::Failed(disk, fault),
                Err(FlushFault::Disk(fault)),
            )
        }
    }
}

// Pauses a checkpoint if possible, so that a batch may come before its next disk call.
fn set_aside<D: SectorDisk>(checkpointing: Checkpointing<D>) -> FlushStage<D>
    requires few { HasFewCalls (stage.Opening checkpointing) }
    ensures aside { IsLeftPaused checkpointing result }
    ensures few { HasFewCalls result }
    ensures run { KeepsRun D.disk (stage.Opening checkpointing) result }
    ensures sound { IsSound D.disk (stage.Opening checkpointing) → IsSound D.disk result }
{
    if checkpointing.can_pause() {
        FlushStage::Resting(checkpointing.pause())
    } else {
        FlushStage::Opening(checkpointing)
    }
}

// Makes the first disk call of a batch or, if too few slots are free for it, the next one of a
// checkpoint before it.
fn begin<D: SectorDisk>(
    journal: Journal<D>,
    batch: Batch,
) -> (FlushStage<D>, Result<(), FlushFault>)
    ensures step { IsDiskStep D.disk (stage.Given journal batch) result.0 result.1 }
    ensures few { HasFewCalls result.0 }
    ensures run { KeepsRun D.disk (stage.Given journal batch) result.0 }
    ensures sound { IsSound D.disk (stage.Given journal batch) → IsSound D.disk result.0 }
{
    match journal.begin(batch) {
        Ok(writing) => write(writing),
        Err(fault) => {
            let BeginFault {
                cause,
                journal,
                batch,
            } = fault;
            match cause {
                BeginCause::NeedsCheckpoint => begin_checkpoint(journal, batch),
                BeginCause::Memory => (FlushStage::Given(journal, batch), Err(FlushFault::Memory)),
                BeginCause::TooLarge => (
                    FlushStage::Given(journal, batch),
                    Err(FlushFault::Misfit),
                ),
                BeginCause::Misfit => (FlushStage::Given(journal, batch), Err(FlushFault::Misfit)),
            }
        }
    }
}

// Makes the next disk call of a checkpoint, because too few slots are free for the batch.
fn begin_checkpoint<D: SectorDisk>(
    journal: Journal<D>,
    batch: Batch,
) -> (FlushStage<D>, Result<(), FlushFault>)
    requires wanted { wants_checkpoint journal.standing (values batch.commands.items) ≡ true }
    requires small { fits_no_area journal.standing (values batch.commands.items) ≡ false }
    requires used { is_renewed journal.standing.layout ≡ true → 0 < journal.standing.used }
    ensures step { IsDiskStep D.disk (stage.Given journal batch) result.0 result.1 }
    ensures few { HasFewCalls result.0 }
    ensures run { KeepsRun D.disk (stage.Given journal batch) result.0 }
    ensures sound { IsSound D.disk (stage.Given journal batch) → IsSound D.disk result.0 }
{
    match journal.checkpoint() {
        Ok(checkpointing) => checkpoint(checkpointing, batch),
        Err(fault) => {
            let CheckpointFault { cause: _, journal } = fault;
            (FlushStage::Given(journal, batch), Err(FlushFault::Memory))
        }
    }
}

// Makes the next disk call of a checkpoint while a batch waits for it.
fn checkpoint<D: SectorDisk>(
    checkpointing: Checkpointing<D>,
    batch: Batch,
) -> (FlushStage<D>, Result<(), FlushFault>)
    requires few { HasFewCalls (stage.Checkpointing checkpointing batch) }
    ensures step { IsDiskStep D.disk (stage.Checkpointing checkpointing batch) result.0 result.1 }
    ensures few { HasFewCalls result.0 }
    ensures run { KeepsRun D.disk (stage.Checkpointing checkpointing batch) result.0 }
    ensures sound { IsSound D.disk (stage.Checkpointing checkpointing batch) → IsSound D.disk result.0 }
{
    match checkpointing.step() {
        CheckpointProgress::More(more) => (FlushStage::Checkpointing(more, batch), Ok(())),
        CheckpointProgress::Done(journal) => (FlushStage::Given(journal, batch), Ok(())),
        CheckpointProgress::Failed(disk, fault) => {
            (
                FlushStage::Failed(disk, fault),
                Err(FlushFault::Disk(fault)),
            )
        }
    }
}

// Makes the next disk call of a batch.
fn write<D: SectorDisk>(writing: Writing<D>) -> (FlushStage<D>, Result<(), FlushFault>)
    requires few { HasFewCalls (stage.Writing writing) }
    ensures step { IsDiskStep D.disk (stage.Writing writing) result.0 result.1 }
    ensures few { HasFewCalls result.0 }
    ensures run { KeepsRun D.disk (stage.Writing writing) result.0 }
    ensures sound { IsSound D.disk (stage.Writing writing) → IsSound D.disk result.0 }
{
    match writing.step() {
        Progress::More(more) => (FlushStage::Writing(more), Ok(())),
        Progress::Done(journal, written) => (FlushStage::Publishing(journal, written), Ok(())),
        Progress::Failed(disk, fault) => {
            (
                FlushStage::Failed(disk, fault),
                Err(FlushFault::Disk(fault)),
            )
        }
    }
}
