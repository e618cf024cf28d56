//! The events that an engine has reported, as a value without octets.

ghost use Rattle.std.specs.Prelude.{◌≡◌, ◌++◌, List, []};
ghost use Rattle.std.specs.Borrow.{ftrue};
ghost use Rattle.iol_core.specs.Events as trace;

use crate::event::Event;
use std::marker::Model;

/// The events that an engine has reported, the first one first. The list is ghost state: only contracts see it, and an engine that
/// runs for ever needs no memory for it.
#[derive(Drop)]
pub struct Trail {
    pub ghost told: { List trace.Event },
}

impl Model for Trail {
    ghost also_owns = { λ _. ftrue };
}

// A trail owns nothing, so another thread may have it.
unsafe impl Send for Trail {}

// What a trail is made of.
#[derive(Clone, Copy, Drop)]
enum Source<'a> {
    // No event.
    Nothing,
    // A trail, and the events that follow it, if there are any.
    Followed(&'a Trail, &'a Option<Event>, &'a Option<Event>),
}

impl Trail {
    ghost use Rattle.iol_engine.specs.Events.{told_of};
    ghost use Rattle.iol_engine.specs.Trail.{trail_of};

    // Makes a trail without events.
    pub(crate) fn new() -> Trail
        ensures { result.told ≡ [] }
    {
        Trail::read_off(&Source::Nothing)
    }

    // Makes the trail that has these events after those of this one.
    pub(crate) fn followed_by(&self, called: &Option<Event>, status: &Option<Event>) -> Trail
        ensures { result.told ≡ self.now.told ++ (told_of called.now ++ told_of status.now) }
    {
        Trail::read_off(&Source::Followed(self, called, status))
    }

    // Makes a trail. The proof is by hand, since no code can set ghost state.
    fn read_off(_source: &Source<'_>) -> Trail
        ensures { result ≡ trail_of _source.now }
    {
        Trail {}
    }
}
