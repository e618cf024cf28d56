//! The events of a run.

ghost use Rattle.std.specs.Prelude.{◌≡◌, ◌∷◌, []};
ghost use Rattle.iol_types.specs.Command.{command_of};
ghost use Rattle.iol_engine.specs.Events.{event_of};
ghost use Rattle.iol_engine.specs.Submitted.{submit_told};

use crate::said::Said;
use crate::told_work::ToldWork;
use arrayvec::ArrayVec;
use iol_core::{SubmitFault, Ticket};
use iol_link::{ISDU_OCTETS, PAGE_OCTETS};
use iol_port::PortStatus;
use iol_types::{Change, PortId};
use std::alloc::{AllocError, Global};

/// The octets that a port has sent to its device, and those of the device's answer.
#[derive(Drop)]
pub struct Exchanged {
    pub request: ArrayVec<u8, ISDU_OCTETS>,
    pub answer: ArrayVec<u8, ISDU_OCTETS>,
}

impl Exchanged {
    /// Makes a buffer for an exchange, without octets.
    ///
    /// # Errors
    /// Out of memory.
    pub fn room(alloc: Global) -> Result<Box<Exchanged>, AllocError> {
        let octets = Exchanged {
            request: ArrayVec::new(),
            answer: ArrayVec::new(),
        };
        Ok(Box::new(alloc, octets)?)
    }

    // Moves these octets into a buffer that was allocated before.
    pub(crate) fn put(self, mut room: Box<Exchanged>) -> Box<Exchanged>
        ensures { result.value ≡ self }
    {
        let _ = Box::replace(&mut room, self);
        room
    }
}

/// An event in a master. It is small, since a run keeps all of its events: the octets of an exchange are in a box.
#[derive(Drop)]
pub enum Event {
    /// A command was accepted under this number.
    Accepted {
        number: u64,
        said: Said,
    },
    /// A command was refused.
    Refused(SubmitFault),
    /// A port has read Direct Parameter page 1 of its device, on this connection of its link.
    Page {
        port: PortId,
        connection: u64,
        octets: [u8; PAGE_OCTETS],
    },
    /// A port has exchanged these octets with its device, on this connection of its link.
    Exchange {
        port: PortId,
        connection: u64,
        octets: Box<Exchanged>,
    },
    /// A port has lost its device while it read the page, or after it sent the request in these octets, which have no answer.
    Lost {
        port: PortId,
        connection: u64,
        octets: Option<Box<Exchanged>>,
    },
    /// The core has given a port its work.
    Attended {
        port: PortId,
        work: ToldWork,
    },
    /// The status of a port has changed.
    Status {
        port: PortId,
        status: PortStatus,
    },
    /// All commands up to this number are durable.
    Acknowledged {
        number: u64,
    },
    /// A disk call failed.
    DiskFailed,
}

impl Event {
    /// Returns the event that reports the answer to a client's change: it was accepted, or refused.
    pub fn of_answer(change: &Change, answer: &Result<Ticket, SubmitFault>) -> Event
        ensures { event_of result ∷ [] ≡ submit_told (command_of change.now) answer.now }
    {
        match answer {
            Ok(ticket) => Event::Accepted {
                number: ticket.number(),
                said: Said::of(&change.command()),
            },
            Err(fault) => Event::Refused(*fault),
        }
    }
}
