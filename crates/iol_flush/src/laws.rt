//! Laws of a flusher, for proofs only: no code calls them. They say what a flusher does to a run of its journal apart from its disk
//! calls, and how soon a batch is published. Proofs of other crates cite them from `proofs/RunLaws.antt` and `proofs/Turns.antt`,
//! under the same names.

ghost use Rattle.std.specs.Prelude.{◌≡◌, ◌≤◌, ◌<◌, ◌⊎◌, ℕ, ◌+◌, ◌*◌, true, false, List, ◌∷◌, ◌++◌, length, Result, Ok, None, is_some};
ghost use Rattle.iol_types.specs.Command.{CommandValue};
ghost use Rattle.iol_types.specs.State.{State, after, legal};
ghost use Rattle.iol_disk.specs.Content.{clock};
ghost use Rattle.iol_front.specs.Fronts.{CommittedView};
ghost use Rattle.iol_journal.specs.Journals.{JournalView};
ghost use Rattle.iol_journal.specs.Body.{values};
ghost use Rattle.iol_journal.specs.Layout.{is_renewed};
ghost use Rattle.iol_journal.specs.Runs.{Mark};
ghost use Rattle.iol_journal.specs.declared.batch.Batch.{Batch};
ghost use Rattle.iol_flush.specs.Flushing.{AreFirst, IsFlushing, GoesOn, HoldsBy};
ghost use Rattle.iol_flush.specs.Stages.{FlusherView, HasFewCalls, disk_of, need_of};
ghost use Rattle.iol_flush.specs.Steps.{HasTaken, HasPublished, IsDiskStep, IsUnfit};
ghost use Rattle.iol_flush.specs.Turns.{calls_needed};
ghost use Rattle.iol_flush.specs.declared.fault.FlushFault.{FlushFault};
ghost use Rattle.iol_flush.specs.declared.need.Need.TheVariants as need;
ghost use Rattle.iol_flush.specs.declared.stage.FlushStage.{FlushStage};
ghost use Rattle.iol_flush.specs.declared.stage.FlushStage.TheVariants.{Resting};

use iol_disk::SectorDisk;

/// A run continues over a moment at which no more is acknowledged than at the moment before.
pub fn marked_later<D: SectorDisk>()
    ensures { (number : ℕ) (state : State) (published waiting : List CommandValue) (mark : Mark) (marks : List Mark) (stage : FlushStage D)
        → IsFlushing D.disk number state published waiting (mark ∷ marks) stage
        → IsFlushing D.disk number state published waiting
        (record { clock = clock (D.disk (disk_of stage)).content; acknowledged = mark.acknowledged } ∷ mark ∷ marks) stage }
{}

/// A run continues if the given batch is the first of the waiting commands.
pub fn gives<D: SectorDisk>()
    ensures { (number : ℕ) (state : State) (published waiting : List CommandValue) (marks : List Mark) (old new : FlushStage D)
        (batch : Batch)
        → HasTaken old batch new → AreFirst (values batch.commands.items) waiting
        → IsFlushing D.disk number state published waiting marks old → IsFlushing D.disk number state published waiting marks new }
{}

/// A published batch was the first of the waiting commands, and is then removed from them.
pub fn publishes<D: SectorDisk>()
    ensures { (number : ℕ) (state : State) (published waiting : List CommandValue) (marks : List Mark) (old : FlushStage D)
        (list : List CommandValue)
        (new : FlusherView D) (committed : CommittedView)
        → HasPublished old list new committed → IsFlushing D.disk number state published waiting marks old
        → (behind : List CommandValue) × (waiting ≡ committed.commands ++ behind)
        × IsFlushing D.disk number state (published ++ committed.commands) behind marks new.stage }
{}

/// Every image since a moment has all commands acknowledged by then, and after them only the next ones, in order.
pub fn holds<D: SectorDisk>()
    ensures { (number : ℕ) (state : State) (published waiting : List CommandValue) (marks : List Mark) (stage : FlushStage D)
        → IsFlushing D.disk number state published waiting marks stage
        → HoldsBy (D.disk (disk_of stage)) number state (published ++ waiting) marks }
{}

/// Commands may be added to the waiting ones if each passes in the state that it meets.
pub fn accepts_more<D: SectorDisk>()
    ensures { (number : ℕ) (state : State) (published waiting : List CommandValue) (marks : List Mark) (stage : FlushStage D)
        (commands : List CommandValue)
        → legal (after state (published ++ waiting)) commands ≡ true
        → IsFlushing D.disk number state published waiting marks stage
        → IsFlushing D.disk number state published (waiting ++ commands) marks stage }
{}

/// Published commands may be acknowledged while the journal is at rest.
pub fn acknowledges<D: SectorDisk>()
    ensures { (number : ℕ) (state : State) (published waiting : List CommandValue) (marks : List Mark) (acknowledged : ℕ)
        (j : JournalView D)
        → acknowledged ≤ number + length published
        → IsFlushing D.disk number state published waiting marks (Resting j)
        → IsFlushing D.disk number state published waiting
        (record { clock = clock (D.disk j.disk).content; acknowledged = acknowledged } ∷ marks) (Resting j) }
{}

/// Each disk call made for a batch reduces the number of calls that the batch still needs.
pub fn advances<D: SectorDisk>()
    ensures { (old new : FlushStage D) → 1 ≤ calls_needed old → HasFewCalls old → HasFewCalls new → IsDiskStep D.disk old new (Ok tt)
        → calls_needed new + 1 ≤ calls_needed old }
{}

/// A batch that follows the journal and is not too large is never refused as `Misfit`.
pub fn is_fit<D: SectorDisk>()
    ensures { (stage : FlushStage D) → GoesOn stage → IsUnfit stage → ⊥ }
{}

/// After a disk call, a batch that is still to be begun follows the journal.
pub fn goes_on<D: SectorDisk>()
    ensures { (old new : FlushStage D) (answer : Result Unit FlushFault) → IsDiskStep D.disk old new answer → GoesOn old → GoesOn new }
{}

/// While the journal is at rest in the newest layout, the flusher needs a batch, or also a disk call exactly if a checkpoint is
/// paused or half of the slots are used. It needs only a disk call exactly if the layout is an older one.
pub fn due_at_half<D: SectorDisk>()
    ensures batch { (j : JournalView D) → need_of (Resting j) ≡ need.Batch → is_renewed j.standing.layout ≡ true
        → (j.begun ≡ None) × (2 * j.standing.used < j.standing.layout.slots) }
    ensures either { (j : JournalView D) → need_of (Resting j) ≡ need.BatchOrDisk → is_renewed j.standing.layout ≡ true
        → (is_some j.begun ≡ true) ⊎ (j.standing.layout.slots ≤ 2 * j.standing.used) }
    ensures renewed { (j : JournalView D) → is_renewed j.standing.layout ≡ true → need_of (Resting j) ≡ need.Disk → ⊥ }
    ensures older { (j : JournalView D) → is_renewed j.standing.layout ≡ false → need_of (Resting j) ≡ need.Disk }
{}
