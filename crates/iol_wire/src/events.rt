//! The events that were not taken yet.

ghost use Rattle.std.specs.Prelude.{◌≡◌, ◌∷◌, []};
ghost use Rattle.iol_wire.specs.Events.{kept};

use arrayvec::ArrayVec;

/// The most events that are kept until they are taken.
pub const KEPT_EVENTS: usize = 16;

// Keeps an event after the others, if there is space for it.
pub(crate) fn keep(events: &mut ArrayVec<u16, KEPT_EVENTS>, code: u16)
    ensures { events.new.items ≡ kept events.old.items (code ∷ []) }
{
    if !events.is_full() {
        events.push(code);
    }
}
