//! Laws of journals, for proofs only: no code calls them. Proofs of other crates cite them from `proofs/JournalLaws.antt`, under
//! the same names.

ghost use Rattle.std.specs.Prelude.{◌≡◌, ◌<◌, ◌⊎◌, ◌+◌, ℕ, true, false, IsTrue, List, Some, None};
ghost use Rattle.iol_types.specs.Command.{CommandValue};
ghost use Rattle.iol_disk.specs.Content.{EachImage};
ghost use Rattle.iol_disk.specs.Disk.{Disk};
ghost use Rattle.iol_layout.specs.Layout.{is_renewed};
ghost use Rattle.iol_journal.specs.Begin.{follows, fits_no_area, wants_checkpoint, batch_refusal};
ghost use Rattle.iol_journal.specs.CheckpointViews.{CheckpointingView, IsCheckpointUnderway};
ghost use Rattle.iol_journal.specs.Journals.{WritingView};
ghost use Rattle.iol_layout.specs.Kept.{KeptEither, EachMeans};
ghost use Rattle.iol_layout.specs.Meaning.{Standing};
ghost use Rattle.iol_journal.specs.Phases.{IsAtRest};
ghost use Rattle.iol_journal.specs.Underway.{IsUnderway};
ghost use Rattle.iol_layout.specs.declared.idle.Idle.{Idle};

use crate::refusal::BeginCause;
use iol_disk::SectorDisk;

/// While a batch is being written, each image of an honest disk is kept, and means the state before the batch or the state after
/// it.
pub fn underway_means_either<D: SectorDisk>()
    ensures { (w : WritingView D) → IsUnderway D.disk w → IsTrue (D.disk w.disk).honest
        → EachImage (D.disk w.disk).content
        (KeptEither (D.disk w.disk).sectors w.standing.number w.standing.state w.commands) }
{}

/// While a checkpoint is being written, each image of an honest disk is kept, and means the journal's number and state.
pub fn checkpoint_means_its_state<D: SectorDisk>()
    ensures { (c : CheckpointingView D) → IsCheckpointUnderway D.disk c → EachMeans (D.disk c.disk) c.standing.number c.standing.state }
{}

/// Each image of a disk on which a journal is at rest is kept, and means the journal's number and state.
pub fn rest_means_its_state()
    ensures { (d : Disk) (s : Standing) (idle : Idle) → IsAtRest d s idle → EachMeans d s.number s.state }
{}

/// A batch that is not too large and follows the journal is refused only if too few slots are free, and then a checkpoint can be
/// made.
pub fn following_batch_wants_a_slot()
    ensures { (s : Standing) (first : ℕ) (commands : List CommandValue) → fits_no_area s commands ≡ false
        → follows s first commands ≡ true
        → (batch_refusal s first commands ≡ None)
        ⊎ ((batch_refusal s first commands ≡ Some BeginCause.NeedsCheckpoint) × (wants_checkpoint s commands ≡ true)
        × (is_renewed s.layout ≡ true → 0 < s.used)) }
{}
