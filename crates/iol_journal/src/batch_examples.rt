//! Worked values from docs/FORMATS.md that the check computes: they catch a number that is wrong both in a definition and in the code.

ghost use Rattle.std.specs.Prelude.{◌≡◌, [], ◌∷◌, replicate};
ghost use Rattle.iol_types.specs.Command.{Configure};
ghost use Rattle.iol_types.specs.Examples.{example_config};
ghost use Rattle.iol_disk.specs.Calls.{write, sync};
ghost use Rattle.iol_journal.specs.Batches.{batch_calls};
ghost use Rattle.iol_layout.specs.Examples.{first_body, first_standing, standing_of, older_standing_of};
ghost use Rattle.iol_disk.specs.Gate.{open_gate};
ghost use Rattle.iol_types.specs.State.{State};
ghost use Rattle.iol_journal.specs.Begin.{batch_refusal, room_in};

use crate::refusal::BeginCause;

/// The record octets that fit the free slots of 3: 8,192 for each, less a head of 22. If none is free, those of one slot; in an older
/// layout none is free.
pub fn rooms()
    ensures all_free { room_in (standing_of 0 9) ≡ 24554 }
    ensures two_free { room_in (standing_of 1 9) ≡ 16362 }
    ensures one_free { room_in (standing_of 2 9) ≡ 8170 }
    ensures none_free { room_in (standing_of 3 9) ≡ 8170 }
    ensures older { room_in (older_standing_of 0 9) ≡ 8170 }
{}

/// The disk calls of the first batch, a Configure of port 1: one sector of the body, a sync, the open gate, a sync.
#[tactic(auto, unfolding(iol_layout::specs::Body::body_octets, iol_layout::specs::Octets::padded))]
pub fn the_first_batch()
    ensures { (state : State) → batch_calls (first_standing state) (Configure 1 example_config ∷ [])
        ≡ write 39 first_body ∷ sync ∷ write 38 open_gate ∷ sync ∷ [] }
{}

/// The order in which batches are refused, and the last number. In an older layout no batch is written.
pub fn refusals()
    ensures too_large { batch_refusal (standing_of 3 9) 10 (replicate 65 (Configure 1 example_config)) ≡ Some BeginCause.TooLarge }
    ensures no_slot { batch_refusal (standing_of 3 9) 10 [] ≡ Some BeginCause.NeedsCheckpoint }
    ensures empty { batch_refusal (standing_of 2 9) 10 [] ≡ Some BeginCause.Misfit }
    ensures other_number { batch_refusal (standing_of 2 9) 11 (Configure 1 example_config ∷ []) ≡ Some BeginCause.Misfit }
    ensures no_port { batch_refusal (standing_of 2 9) 10 (Configure 3 example_config ∷ []) ≡ Some BeginCause.Misfit }
    ensures taken { batch_refusal (standing_of 2 9) 10 (replicate 64 (Configure 1 example_config)) ≡ None }
    ensures older { batch_refusal (older_standing_of 0 9) 10 (Configure 1 example_config ∷ []) ≡ Some BeginCause.NeedsCheckpoint }
    ensures older_and_too_large { batch_refusal (older_standing_of 0 9) 10 (replicate 65 (Configure 1 example_config))
        ≡ Some BeginCause.TooLarge }
    ensures last { batch_refusal (standing_of 0 4611686018427387903) 4611686018427387904 (Configure 1 example_config ∷ []) ≡ None }
    ensures past_the_last { batch_refusal (standing_of 0 4611686018427387904) 4611686018427387905 (Configure 1 example_config ∷ [])
        ≡ Some BeginCause.Misfit }
{}
