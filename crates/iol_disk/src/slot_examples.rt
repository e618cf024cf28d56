//! Facts stated with literal values; no code calls them.

ghost use Rattle.std.specs.Prelude.{◌≡◌, ◌≢◌, ◌<◌, ◌++◌, ◌∷◌, [], ℕ, false, replicate, slice_index, slice_set};
ghost use Rattle.iol_disk.specs.Gate.{is_open, open_gate, closed_gate};

/// An open gate is the octets A5 5A four times, then 504 zeros.
#[tactic(auto, unfolding(crate::specs::Gate::open_gate))]
pub fn an_open_gate()
    ensures { open_gate ≡ (0xA5 ∷ 0x5A ∷ 0xA5 ∷ 0x5A ∷ 0xA5 ∷ 0x5A ∷ 0xA5 ∷ 0x5A ∷ []) ++ replicate 504 0 }
{}

/// A closed gate is 512 zeros.
#[tactic(auto, unfolding(crate::specs::Gate::closed_gate))]
pub fn a_closed_gate()
    ensures { closed_gate ≡ replicate 512 0 }
{}

/// A gate with another octet in its mark is closed.
pub fn a_gate_with_another_octet_in_its_mark()
    ensures { (place octet : ℕ) → place < 8 → octet ≢ slice_index open_gate place
        → is_open (slice_set open_gate place octet) ≡ false }
{}
