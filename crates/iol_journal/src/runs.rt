//! Laws of runs, for proofs only: no code calls them. Proofs of other crates cite them from `proofs/RunLaws.antt`,
//! `proofs/RunSteps.antt` and `proofs/StretchLaws.antt`, under the same names.

ghost use Rattle.std.specs.Prelude.{◌≡◌, ◌≤◌, ◌<◌, ℕ, ◌+◌, true, IsTrue, List, [], ◌++◌, length, take};
ghost use Rattle.iol_types.specs.Command.{CommandValue};
ghost use Rattle.iol_types.specs.State.{State, after, legal};
ghost use Rattle.iol_disk.specs.Content.{Image, EachImage, IsImageSince, clock};
ghost use Rattle.iol_disk.specs.Disk.{Disk};
ghost use Rattle.iol_disk.specs.Moments.{LeavesOnly};
ghost use Rattle.iol_journal.specs.CheckpointRuns.{IsRunCheckpointing};
ghost use Rattle.iol_journal.specs.CheckpointViews.{CheckpointingView};
ghost use Rattle.iol_journal.specs.Journals.{JournalView, WritingView};
ghost use Rattle.iol_layout.specs.Kept.{KeptMeans, KeptEither, EachMeans};
ghost use Rattle.iol_journal.specs.Runs.{Run, HasPrefix, IsRun, accepted, number_of, state_of, begun, with_mark, with_commands};
ghost use Rattle.iol_journal.specs.Running.{IsRunAtRest, IsRunWriting};
ghost use Rattle.iol_journal.specs.Stretches.{Stretch, commands_in, disk_after, AreStretches};

use iol_disk::SectorDisk;

/// If each image means a number and a state, a run begins with them.
pub fn run_begins()
    ensures { (d : Disk) (number : ℕ) (state : State) → EachMeans d number state → IsRun d (begun (clock d.content) number state) }
{}

/// A run accepts more commands if each passes in the state that it meets.
pub fn accepts()
    ensures { (d : Disk) (r : Run) (commands : List CommandValue) → legal (after r.start (accepted r)) commands ≡ true
        → IsRun d r → IsRun d (with_commands r commands) }
{}

/// Written commands may be acknowledged: every image since then has them.
pub fn marked()
    ensures { (d : Disk) (r : Run) (acknowledged : ℕ) → acknowledged ≤ number_of r
        → (IsTrue d.honest → EachImage d.content (KeptEither d.sectors (number_of r) (state_of r) r.underway))
        → IsRun d r → IsRun d (with_mark r (record { clock = clock d.content; acknowledged = acknowledged })) }
{}

/// Written commands may be acknowledged while the journal is at rest.
pub fn marked_at_rest<D: SectorDisk>()
    ensures { (r : Run) (j : JournalView D) (acknowledged : ℕ) → acknowledged ≤ number_of r → IsRunAtRest D.disk r j
        → IsRunAtRest D.disk (with_mark r (record { clock = clock (D.disk j.disk).content; acknowledged = acknowledged })) j }
{}

/// Written commands may be acknowledged while the next batch is being written.
pub fn marked_underway<D: SectorDisk>()
    ensures { (r : Run) (w : WritingView D) (acknowledged : ℕ) → acknowledged ≤ number_of r → IsRunWriting D.disk r w
        → IsRunWriting D.disk (with_mark r (record { clock = clock (D.disk w.disk).content; acknowledged = acknowledged })) w }
{}

/// Written commands may be acknowledged while a checkpoint is being written.
pub fn marked_checkpointing<D: SectorDisk>()
    ensures { (r : Run) (c : CheckpointingView D) (acknowledged : ℕ) → acknowledged ≤ number_of r → IsRunCheckpointing D.disk r c
        → IsRunCheckpointing D.disk (with_mark r (record { clock = clock (D.disk c.disk).content; acknowledged = acknowledged })) c }
{}

/// The disk calls of a checkpoint keep a run.
pub fn checkpoint_stays()
    ensures { (old new : Disk) (r : Run) → LeavesOnly old new (KeptMeans old.sectors (number_of r) (state_of r)) → IsRun old r
        → IsRun new r }
{}

/// Batches and checkpoints in any number and order keep a run.
pub fn stretches_keep_a_run()
    ensures { (old : Disk) (r : Run) (stretches : List Stretch) → r.underway ≡ [] → r.queued ≡ []
        → AreStretches old (number_of r) (state_of r) stretches
        → IsRun old r → IsRun (disk_after old stretches) (record r { written = r.written ++ commands_in stretches }) }
{}

/// For batches and checkpoints in any number and order, the last of which need not have ended: every image since
/// the beginning of one has the commands of those before it, and after them only the next ones, in order.
pub fn stretches_keep_what_is_written()
    ensures { (old : Disk) (number : ℕ) (state : State) (stretches : List Stretch) → AreStretches old number state stretches
        → (k : ℕ) → k < length stretches → IsTrue old.honest → (image : Image)
        → IsImageSince (clock (disk_after old (take k stretches)).content) (disk_after old stretches).content image
        → HasPrefix old.sectors number state (commands_in stretches) (number + length (commands_in (take k stretches))) image }
{}
