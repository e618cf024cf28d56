//! A session: a flash that is being opened, or a master over it.

use crate::flash::UnknownFlash;
use crate::master::HandedMaster;
use crate::opening::Opening;
use iol_front::Name;
use std::marker::Model;
use std::mem::ManuallyDrop;

// The stage of a session.
#[derive(Drop)]
pub(crate) enum SessionStage<F: Name> {
    // A flash is being opened.
    Opening(Opening<UnknownFlash>),
    // A master runs; `Ask::End` ends it.
    Running(ManuallyDrop<HandedMaster<UnknownFlash, F>>),
    // There is neither a flash nor a master.
    Ended,
}

/// A flash that is being opened, or a master over it under the name of its front. A contract sees the record `SessionView` of
/// `specs/Sessions.antt`.
#[derive(Drop)]
pub struct Session<F: Name> {
    pub(crate) stage: SessionStage<F>,
}

impl<F: Name> Model for Session<F> {
    ghost use Rattle.iol_handed.specs.Sessions.{SessionView};
    ghost use Rattle.iol_handed.specs.Stages.{seen};

    ghost Value = { SessionView };

    ghost view = { λ s. seen s.stage };
}
