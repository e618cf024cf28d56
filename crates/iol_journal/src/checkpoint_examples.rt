//! Worked values from docs/FORMATS.md that the check computes: they catch a number that is wrong both in a definition and in
//! the code.

ghost use Rattle.std.specs.Prelude.{◌≡◌, [], ◌∷◌, length, true, false};
ghost use Rattle.iol_types.specs.Command.{Configure};
ghost use Rattle.iol_types.specs.Examples.{example_config};
ghost use Rattle.iol_disk.specs.Calls.{write, sync};
ghost use Rattle.iol_journal.specs.Checkpoints.{checkpointed, checkpoint_calls, next_stage, with_batches};
ghost use Rattle.iol_journal.specs.Drafts.{can_pause, may_pause, owing};
ghost use Rattle.iol_layout.specs.Examples.{standing_of, older_standing_of};
ghost use Rattle.iol_journal.specs.Expected.{carrying_checkpoint, checkpoint_of_two_by_four};
ghost use Rattle.iol_layout.specs.Header.{header_octets};
ghost use Rattle.iol_record.specs.declared.version.Version.TheVariants.{Two};

use crate::phase::Phase;
use crate::stage::CheckpointStage;
use iol_layout::Idle;

/// The disk calls of a checkpoint into area B, with 2 ports that were never configured and 3 slots: 12, and two more if the
/// header of B is not older. A checkpoint of a journal in version 1, whose areas have 4 slots, makes the same calls, because
/// it writes version 2.
pub fn a_checkpoint()
    ensures older { checkpoint_calls (checkpointed (standing_of 3 4)) [] Idle.Older ≡ checkpoint_of_two_by_four }
    ensures closed { checkpoint_calls (checkpointed (standing_of 3 4)) [] Idle.Closed
        ≡ write 91 (header_octets Two 0 0) ∷ sync ∷ checkpoint_of_two_by_four }
    ensures migration { checkpoint_calls (checkpointed (older_standing_of 1 4)) [] Idle.Older ≡ checkpoint_of_two_by_four }
    ensures twelve { length checkpoint_of_two_by_four ≡ 12 }
{}

/// The disk calls of that checkpoint if a batch was written while it was paused: four more.
#[tactic(auto, unfolding(iol_layout::specs::Body::body_octets, iol_layout::specs::Octets::padded))]
pub fn a_carried_batch()
    ensures calls { checkpoint_calls (checkpointed (standing_of 2 4)) ((Configure 1 example_config ∷ []) ∷ []) Idle.Older
        ≡ carrying_checkpoint }
    ensures sixteen { length carrying_checkpoint ≡ 16 }
    // It takes the first slot of area B.
    ensures used { (with_batches (checkpointed (standing_of 2 4)) ((Configure 1 example_config ∷ []) ∷ [])).used ≡ 1 }
    ensures number { (with_batches (checkpointed (standing_of 2 4)) ((Configure 1 example_config ∷ []) ∷ [])).number ≡ 5 }
{}

/// A checkpoint can be paused until the gate of the other area is written, unless it writes another version. A batch written
/// meanwhile is carried before that gate is opened.
pub fn pauses()
    ensures first { can_pause CheckpointStage.ClearHeader ≡ true }
    ensures carried { can_pause (CheckpointStage.Carry Phase.Gate) ≡ true }
    ensures closed { can_pause CheckpointStage.OpenGate ≡ true }
    ensures open { can_pause CheckpointStage.SyncOpen ≡ false }
    ensures newest { may_pause (standing_of 2 4) CheckpointStage.CloseGate ≡ true }
    ensures written { may_pause (standing_of 2 4) CheckpointStage.SyncOpen ≡ false }
    ensures migration { may_pause (older_standing_of 2 4) CheckpointStage.CloseGate ≡ false }
    ensures before_the_records { owing (CheckpointStage.WriteRecord 1) ≡ CheckpointStage.WriteRecord 1 }
    ensures before_the_gate { owing CheckpointStage.OpenGate ≡ CheckpointStage.Carry (Phase.Body 0) }
    ensures after_the_last { next_stage 4 2 1 1 (CheckpointStage.Carry Phase.SyncGate) ≡ Some CheckpointStage.OpenGate }
    ensures after_another { next_stage 4 2 1 2 (CheckpointStage.Carry Phase.SyncGate) ≡ Some (CheckpointStage.Carry (Phase.Body 0)) }
{}
