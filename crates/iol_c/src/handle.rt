//! The handle that C keeps of a master.

ghost use Rattle.std.specs.Prelude.{◌≡◌, false, true};
ghost use Rattle.iol_c.specs.Hosting.{Begins, Hosts, IsMade, IsOpened};
ghost use Rattle.iol_handed.specs.Sessions.{SessionView, ended};

use crate::codes::{MEMORY, OK, OPENED, code_of};
use crate::hosting::{make, serve};
use crate::kept::Kept;
use iol_handed::{Ask, FoundJournal, Opening, Session, SessionAnswer, UnknownFlash};
use std::alloc::Global;
use std::marker::{Brand, Model};

/// The handle that C keeps of a master: zeros, or the address of a session under the name of some front (`struct iolm`).
#[repr(C)]
#[derive(Drop)]
pub struct Handle {
    at: *mut u8,
    pub is_open: bool,
    pub ghost session: { SessionView },
}

impl Model for Handle {
    ghost use Rattle.iol_c.specs.Handles.{handle_owns};

    ghost also_owns = { λ h. handle_owns h.is_open h.at h.session };
}

impl Handle {
    /// Makes a handle with no session.
    pub(crate) fn none() -> Handle
        ensures { (result.is_open ≡ false) × (result.session ≡ ended) }
    {
        Handle {
            at: std::ptr::null_mut(),
            is_open: false,
        }
    }

    /// Makes a handle with a new session: a master over what was found, or an ended session if nothing was found. The session's name
    /// is that of the front of what was found. If memory runs out, there is no session, and what was found is returned as the opening
    /// that found it.
    pub(crate) fn make(
        alloc: Global,
        found: Option<FoundJournal<UnknownFlash>>,
    ) -> (Handle, Option<Opening<UnknownFlash>>)
        ensures { IsMade found result.0.is_open result.0.session result.1 }
    {
        let (kept, back) = make::<Brand>(alloc, found);
        let Kept { at, is_open } = kept;
        let handle = Handle {
            at: at as *mut u8,
            is_open,
        };
        (handle, back)
    }

    // Has the session serve a request.
    fn serve(self, alloc: Global, ask: Ask) -> (Handle, SessionAnswer)
        ensures { Hosts ask self.is_open self.session result.0.is_open result.0.session result.1 }
    {
        let Handle { at, is_open } = self;
        let kept = Kept {
            at: at as *mut Session<Brand>,
            is_open,
        };
        let (kept, answer) = serve::<Brand>(kept, alloc, ask);
        let Kept { at, is_open } = kept;
        let handle = Handle {
            at: at as *mut u8,
            is_open,
        };
        (handle, answer)
    }

    /// Has the session serve a request.
    pub(crate) fn ask(&mut self, alloc: Global, ask: Ask) -> SessionAnswer
        ensures { Hosts ask self.old.is_open self.old.session self.new.is_open self.new.session result }
    {
        let (after, answer) = std::mem::replace(self, Handle::none()).serve(alloc, ask);
        *self = after;
        answer
    }

    /// Ends the session, if there is one.
    pub(crate) fn close(&mut self, alloc: Global)
        ensures { (self.new.is_open ≡ false) × (self.new.session ≡ ended) }
    {
        let _closed = self.ask(alloc, Ask::End);
    }

    /// Opens a flash in a new session, and returns whether there was memory for one.
    pub(crate) fn open(&mut self, alloc: Global, flash: Opening<UnknownFlash>) -> bool
        ensures { IsOpened result flash self.new.is_open self.new.session }
    {
        self.close(alloc);
        *self = Handle::room(alloc);
        code_of(self.ask(alloc, Ask::Open(flash))) == OK
    }

    // Makes a handle with a new session, or with none if memory runs out.
    fn room(alloc: Global) -> Handle
        ensures { result.session ≡ ended }
    {
        let (room, _nothing) = Handle::make(alloc, None);
        room
    }

    /// Begins a master with what the session has found, and returns the code of the answer. If memory runs out, the session continues
    /// to open the flash.
    pub(crate) fn begin(&mut self, alloc: Global, found: FoundJournal<UnknownFlash>) -> u32
        requires open { self.old.is_open ≡ true }
        ensures begins { Begins found self.new.is_open self.new.session result }
    {
        let (begun, back) = Handle::make(alloc, Some(found));
        match back {
            None => {
                self.close(alloc);
                *self = begun;
                OPENED
            }
            Some(flash) => {
                let _opening = self.ask(alloc, Ask::Open(flash));
                MEMORY
            }
        }
    }
}
