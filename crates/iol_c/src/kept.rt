//! A session in a box that is known by its address.

ghost use Rattle.std.specs.Prelude.{◌≡◌, MatchOption, true, false};
ghost use Rattle.iol_handed.specs.Sessions.{SessionView, ended};

use crate::apart::Apart;
use iol_front::Name;
use iol_handed::Session;
use std::alloc::Global;
use std::marker::Model;

/// A box with a session, or none.
pub(crate) struct Kept<F: Name> {
    pub(crate) at: *mut Session<F>,
    pub(crate) is_open: bool,
    pub(crate) ghost session: { SessionView },
}

impl<F: Name> Model for Kept<F> {
    ghost use Rattle.iol_c.specs.Boxes.{boxed_at};
    ghost use Rattle.iol_handed.specs.Sessions.{ended};
    ghost use Rattle.iol_handed.specs.contracts.session.Session.{the_row};

    ghost also_owns = { λ k. boxed_at (the_row F.row F.Name) ended k.is_open k.at k.session };
}

impl<F: Name> Kept<F> {
    /// Makes a value without a box.
    pub(crate) fn none() -> Kept<F>
        ensures { (result.is_open ≡ false) × (result.session ≡ ended) }
    {
        Kept {
            at: std::ptr::null_mut(),
            is_open: false,
        }
    }

    /// Keeps this box.
    pub(crate) fn of(session: Apart<Session<F>, Global>) -> Kept<F>
        ensures { (result.is_open ≡ true) × (result.session ≡ session.value) }
    {
        let Apart { at, alloc: _ } = session;
        Kept { at, is_open: true }
    }

    /// Returns the box, if there is one.
    pub(crate) fn into_apart(self, alloc: Global) -> Option<Apart<Session<F>, Global>>
        ensures { MatchOption result ((self.is_open ≡ false) × (self.session ≡ ended))
            (λ session. (self.is_open ≡ true) × (session.value ≡ self.session)) }
    {
        let Kept { at, is_open } = self;
        if is_open {
            Some(Apart { at, alloc })
        } else {
            None
        }
    }
}
