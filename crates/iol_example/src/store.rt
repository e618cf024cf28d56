//! A store of commands on any disk, for one writer.

ghost use Rattle.std.specs.Prelude.{◌≡◌, ◌+◌, ◌<◌, ℕ, List, [], ◌∷◌, IfOk, IfErr};
ghost use Rattle.iol_types.specs.Command.{CommandValue, value_of};
ghost use Rattle.iol_types.specs.State.{State, after, empty_state};
ghost use Rattle.iol_disk.specs.Content.{IsImage};
ghost use Rattle.iol_disk.specs.Moments.{LeavesOnly};
ghost use Rattle.iol_journal.specs.Pauses.{IsBeside};
ghost use Rattle.iol_journal.specs.Journals.{calls_left};
ghost use Rattle.iol_journal.specs.Standings.{with_batch};
ghost use Rattle.iol_journal.specs.Kept.{KeptMeans, KeptEither, EachMeans};
ghost use Rattle.iol_journal.specs.Meaning.{standing_in};
ghost use Rattle.iol_disk.specs.Disk.{Shows};
ghost use Rattle.iol_journal.specs.Reading.{SaysWhy};
ghost use Rattle.iol_journal.specs.Recovery.{recovered_disk};
ghost use Rattle.iol_journal.specs.Runs.{Run, with_batch_begun, with_batch_written};
ghost use Rattle.iol_journal.specs.Running.{IsRunAtRest, IsRunWriting};
ghost use Rattle.iol_journal.specs.Underway.{IsUnderway};
ghost use Rattle.iol_example.specs.Store.{
  Rests,
  RestsAt,
  IsCreateFault,
  left_disk,
  IfRefused,
  IsRefusal,
  LeavesRun,
  freeing_calls,
  with_slot,
  write_calls,
  MakesCalls,
};

use iol_disk::{DiskFault, SectorDisk};
use iol_journal::{
    Batch, BeginCause, CheckpointProgress, FormatFault, Geometry, Journal, Progress, RecoverCause,
    RecoverFault, Writing, format,
};
use iol_types::{Command, MasterState};
use std::alloc::Global;

/// Why a store was not created.
#[derive(Clone, Copy)]
pub enum CreateFault {
    /// The disk was not formatted.
    Format(FormatFault),
    /// The disk was formatted, but not recovered.
    Recover(RecoverCause),
}

/// Why a command was not written.
#[derive(Drop)]
pub enum WriteFault<D: SectorDisk> {
    /// The command was refused, and the store continues without it.
    Refused(Journal<D>, BeginCause),
    /// A call of the disk failed. Stop using a disk after a failed sync: many systems drop the pages of a failed sync
    /// and report success for the next one. After another fault, open the disk again; it then has the command or does
    /// not have it.
    Failed(D, DiskFault),
}

/// Formats a disk for the ports and slots of a geometry, and opens it.
///
/// # Errors
/// `Format`, or `Recover` if the disk was formatted.
pub fn create<D: SectorDisk + Drop>(
    alloc: Global,
    mut disk: D,
    geometry: Geometry,
) -> Result<Journal<D>, CreateFault>
    // The store is at rest with no command, and each image says so.
    ensures empty { IfOk result (RestsAt D.disk 0 (empty_state geometry.ports)) }
    ensures cause { IfErr result (IsCreateFault (D.disk disk) geometry) }
{
    if let Err(fault) = format(alloc, &mut disk, geometry) {
        return Err(CreateFault::Format(fault));
    }
    match open(alloc, disk) {
        Ok((journal, _)) => Ok(journal),
        Err(fault) => Err(CreateFault::Recover(fault.cause)),
    }
}

/// Opens the store on a disk, and returns it with the state after its commands.
///
/// # Errors
/// The first cause in the order of reading; the disk is returned.
pub fn open<D: SectorDisk + Drop>(
    alloc: Global,
    disk: D,
) -> Result<(Journal<D>, MasterState), RecoverFault<D>>
    // If each image means this number and state, these are found.
    ensures means { (number : ℕ) (state : State) → EachMeans (D.disk disk) number state
        → IfOk result (λ found. RestsAt D.disk number state found.0) }
    ensures state { IfOk result (λ found. found.1 ≡ found.0.standing.state) }
    ensures cause { IfErr result (λ fault. Shows (D.disk disk) (λ image. SaysWhy (standing_in (D.disk disk).sectors image) fault.cause)) }
    // No image is added.
    ensures any_moment { LeavesOnly (D.disk disk) (D.disk (recovered_disk result)) (IsImage (D.disk disk).content) }
{
    Journal::recover(alloc, disk)
}

/// Makes a command durable, after a checkpoint if no slot is free.
///
/// # Errors
/// `Refused` with the cause, or `Failed`.
pub fn write<D: SectorDisk + Drop>(
    alloc: Global,
    journal: Journal<D>,
    command: Command,
) -> Result<Journal<D>, WriteFault<D>>
    // A power stop at any moment leaves the state before the command, or the state after it.
    ensures any_moment { Rests D.disk journal → LeavesOnly (D.disk journal.disk) (D.disk (left_disk result))
        (KeptEither (D.disk journal.disk).sectors journal.standing.number journal.standing.state (value_of command ∷ [])) }
    // The command follows those before it, on any disk.
    ensures written { IfOk result (λ behind. (behind.standing.number ≡ journal.standing.number + 1)
        × (behind.standing.state ≡ after journal.standing.state (value_of command ∷ []))) }
    // Each image has the command.
    ensures durable { Rests D.disk journal
        → IfOk result (RestsAt D.disk (journal.standing.number + 1) (after journal.standing.state (value_of command ∷ []))) }
    // These disk calls are made, up to one that failed: its failure was counted, and its fault is returned.
    ensures calls { MakesCalls D.disk (write_calls journal (value_of command)) (D.disk journal.disk) result }
    // Out of memory, or the batch of the command is refused in the standing of the journal.
    ensures cause { IfRefused result (λ back cause. IsRefusal back.standing (value_of command) cause) }
    // Each image means what it meant before.
    ensures refused { Rests D.disk journal
        → IfRefused result (λ back _. RestsAt D.disk journal.standing.number journal.standing.state back) }
    // Each run with the command queued continues: from any moment on, each image holds all commands acknowledged by
    // then.
    ensures run { (r : Run) (behind : List CommandValue) → r.queued ≡ value_of command ∷ behind → IsRunAtRest D.disk r journal
        → LeavesRun D.disk r (with_batch_written (with_batch_begun r (value_of command ∷ []) behind)) result }
{
    let journal = with_free_slot(journal)?;
    let Ok(commands) = Vec::from_array(alloc, [command]) else {
        return Err(WriteFault::Refused(journal, BeginCause::Memory));
    };
    let first = journal.number() + 1;
    match journal.begin(Batch { first, commands }) {
        Ok(writing) => finish(writing),
        Err(fault) => Err(WriteFault::Refused(fault.journal, fault.cause)),
    }
}

// Returns the journal with a free slot: if there is none, a checkpoint frees all.
fn with_free_slot<D: SectorDisk + Drop>(journal: Journal<D>) -> Result<Journal<D>, WriteFault<D>>
    ensures any_moment { Rests D.disk journal → LeavesOnly (D.disk journal.disk) (D.disk (left_disk result))
        (KeptMeans (D.disk journal.disk).sectors journal.standing.number journal.standing.state) }
    ensures same { IfOk result (λ freed. (freed.standing.number ≡ journal.standing.number)
        × (freed.standing.state ≡ journal.standing.state)) }
    ensures slot { IfOk result (λ freed. freed.standing ≡ with_slot journal) }
    ensures calls { MakesCalls D.disk (freeing_calls journal) (D.disk journal.disk) result }
    ensures rests { Rests D.disk journal → IfOk result (Rests D.disk) }
    ensures refused { IfRefused result (λ back cause. (back ≡ journal) × (cause ≡ BeginCause.Memory)) }
    ensures run { (r : Run) → IsRunAtRest D.disk r journal → LeavesRun D.disk r r result }
{
    if journal.has_free_slot() {
        return Ok(journal);
    }
    let mut checkpointing = match journal.checkpoint() {
        Ok(checkpointing) => checkpointing,
        Err(fault) => return Err(WriteFault::Refused(fault.journal, BeginCause::Memory)),
    };
    loop {
        match checkpointing.step() {
            CheckpointProgress::More(next) => checkpointing = next,
            CheckpointProgress::Done(journal) => return Ok(journal),
            CheckpointProgress::Failed(disk, fault) => return Err(WriteFault::Failed(disk, fault)),
        }
    }
}

// Makes the disk calls of a batch.
fn finish<D: SectorDisk + Drop>(mut writing: Writing<D>) -> Result<Journal<D>, WriteFault<D>>
    ensures any_moment { IsUnderway D.disk writing → LeavesOnly (D.disk writing.disk) (D.disk (left_disk result))
        (KeptEither (D.disk writing.disk).sectors writing.standing.number writing.standing.state writing.commands) }
    ensures done { IfOk result (λ behind. behind.standing ≡ with_batch writing.standing writing.commands) }
    ensures calls { MakesCalls D.disk (calls_left writing) (D.disk writing.disk) result }
    ensures rests { IsUnderway D.disk writing → IsBeside (D.disk writing.disk) writing.standing writing.begun
        → IfOk result (Rests D.disk) }
    ensures taken { IfRefused result (λ _ _. ⊥) }
    ensures run { (r : Run) → IsRunWriting D.disk r writing → LeavesRun D.disk r (with_batch_written r) result }
{
    loop {
        match writing.step() {
            Progress::More(next) => writing = next,
            Progress::Done(journal, written) => {
                let _batch = written.into_batch();
                return Ok(journal);
            }
            Progress::Failed(disk, fault) => return Err(WriteFault::Failed(disk, fault)),
        }
    }
}
