//! The result of a turn of the flusher.

ghost use Rattle.std.specs.Prelude.{◌≡◌, ◌∷◌, []};
ghost use Rattle.iol_engine.specs.Events.{event_of, told_of};

use iol_engine::Event;

/// The result of a turn of the flusher.
#[derive(Clone, Copy, Debug, PartialEq, Eq)]
pub enum Turned {
    /// It took a batch, made a disk call, published or acknowledged.
    Made,
    /// There was nothing to do, or a disk call had failed before.
    Idle,
    /// It was out of memory. Nothing changed, and the next turn tries again.
    Waited,
}

/// A turn of the flusher: its result, and the event that it reports, if there is one.
#[derive(Drop)]
pub struct Turn {
    pub turned: Turned,
    pub event: Option<Event>,
}

impl Turn {
    // Makes a turn that reports nothing.
    pub(crate) fn silent(turned: Turned) -> Turn
        ensures { (result.turned ≡ turned) × (told_of result.event ≡ []) }
    {
        Turn {
            turned,
            event: None,
        }
    }

    // Makes a turn that did something, and reports this event.
    pub(crate) fn telling(event: Event) -> Turn
        ensures { (result.turned ≡ Turned.Made) × (told_of result.event ≡ event_of event ∷ []) }
    {
        Turn {
            turned: Turned::Made,
            event: Some(event),
        }
    }
}
