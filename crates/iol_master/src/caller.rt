//! The callers that wait for a change, and their answers.

ghost use Rattle.std.specs.Prelude.{◌≡◌};
ghost use Rattle.iol_types.specs.Command.{command_of};
ghost use Rattle.iol_master.specs.Receipts.{StandsAt};

use crossbeam_channel::Sender;
use iol_front::{Name, Pass};
use iol_types::Change;
use std::alloc::Global;
use std::marker::Model;

/// Evidence that a change is durable: it has this number in the list that the pass has seen. A contract sees the record
/// `NoticeView` of `specs/Receipts.antt`.
#[derive(Drop)]
pub(crate) struct Notice<F: Name> {
    number: u64,
    change: Change,
    pass: Pass<F>,
}

impl<F: Name> Model for Notice<F> {
    ghost use Rattle.iol_types.specs.Command.{command_of};
    ghost use Rattle.iol_master.specs.Receipts.{NoticeView, StandsAt};

    ghost Value = { NoticeView };

    ghost view = { λ n. record { number = n.number; change = n.change; seen = n.pass } };

    ghost invariant = { λ n. StandsAt F.front.start n.pass n.number (command_of n.change) };
}

impl<F: Name> Notice<F> {
    // Makes a notice of a change that has this number in the list that the pass has seen.
    pub(crate) fn new(number: u64, change: Change, pass: Pass<F>) -> Notice<F>
        requires { StandsAt F.front.start pass number (command_of change) }
        ensures { result ≡ record { number = number; change = change; seen = pass } }
    {
        Notice {
            number,
            change,
            pass,
        }
    }

    // Returns the number, the change and the pass.
    pub(crate) fn into_parts(self) -> (u64, Change, Pass<F>)
        ensures parts { self ≡ record { number = result.0; change = result.1; seen = result.2 } }
        ensures stands { StandsAt F.front.start result.2 result.0 (command_of result.1) }
    {
        let Notice {
            number,
            change,
            pass,
        } = self;
        (number, change, pass)
    }
}

/// The answer to a waiting caller.
#[derive(Drop)]
pub(crate) enum CallerAnswer<F: Name> {
    // Its change is durable.
    Durable(Notice<F>),
    // Its change is not written: the flusher was out of memory for a second.
    Unwritten,
}

/// A caller that waits for its change, with the pass that is to see the change, and the channel for the answer. If it is dropped
/// without an answer, the disk has failed, and the client's call returns `Unsure`.
#[derive(Drop)]
pub(crate) struct Caller<F: Name> {
    pub(crate) change: Change,
    pub(crate) pass: Pass<F>,
    pub(crate) answers: Sender<CallerAnswer<F>, Global>,
}
