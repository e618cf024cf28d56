//! What a link answered to a call that was made outside the engine, as a link of its own.

ghost use Rattle.std.specs.Prelude.{◌≡◌, ◌+◌, ◌↔◌, min, true, IsTrue, None};
ghost use Rattle.iol_link.specs.Link.{last_connection};
ghost use Rattle.iol_engine.specs.Answered.{FitsWant, is_silent, without_octets};

use arrayvec::ArrayVec;
use iol_link::{DeviceLink, ISDU_OCTETS, Lost, PAGE_OCTETS};
use iol_port::Want;

/// The answer of a link to what the engine wanted of it.
#[derive(Drop)]
pub enum Answered {
    /// The engine wanted nothing.
    Nothing,
    /// Direct Parameter page 1 of the device.
    Page([u8; PAGE_OCTETS]),
    /// The device's answer to the request.
    Octets(ArrayVec<u8, ISDU_OCTETS>),
    /// The device was lost.
    Gone,
}

/// What a link answered on one connection: an event of its device, if there was one, and the answer to what the engine wanted.
/// A `Handed` is a link itself, whose calls give this answer.
#[derive(Drop)]
pub struct Handed {
    connection: u64,
    event: Option<u16>,
    answer: Answered,
    ghost last: { connection ≡ last_connection → (event ≡ None) × (is_silent answer ≡ true) },
}

impl Handed {
    /// Makes a link that gives this answer on this connection. On the last connection a device answers nothing.
    pub fn new(connection: u64, event: Option<u16>, answer: Answered) -> Handed
        ensures connection { result.connection ≡ connection }
        ensures event { (connection ≡ last_connection → ⊥) → result.event ≡ event }
        ensures answer { (connection ≡ last_connection → ⊥) → result.answer ≡ answer }
        ensures last { connection ≡ last_connection → result.answer ≡ without_octets answer }
    {
        if connection == u64::MAX {
            Handed {
                connection,
                event: None,
                answer: silent(answer),
            }
        } else {
            Handed {
                connection,
                event,
                answer,
            }
        }
    }

    // Returns the number of its connection.
    pub(crate) fn number(&self) -> u64
        ensures { result ≡ self.now.connection }
    {
        self.connection
    }

    // Whether the answer fits what the engine wants.
    pub(crate) fn fits(&self, want: &Want) -> bool
        ensures { IsTrue result ↔ FitsWant want.now self.now.answer }
    {
        matches!(
            (want, &self.answer),
            (Want::Page, Answered::Page(_) | Answered::Gone)
                | (Want::Answer(_), Answered::Octets(_) | Answered::Gone)
                | (Want::Nothing, Answered::Nothing)
        )
    }

    // Loses the device.
    fn lose(&mut self) -> Lost
        ensures { self.new.connection ≡ min (self.old.connection + 1) last_connection }
    {
        self.event = None;
        self.answer = Answered::Gone;
        self.connection = self.connection.saturating_add(1);
        Lost
    }
}

// Drops the octets of an answer, as on the last connection.
fn silent(answer: Answered) -> Answered
    ensures silent { is_silent result ≡ true }
    ensures without { result ≡ without_octets answer }
{
    match answer {
        Answered::Nothing => Answered::Nothing,
        Answered::Page(_) | Answered::Octets(_) | Answered::Gone => Answered::Gone,
    }
}

impl DeviceLink for Handed {
    ghost use Rattle.iol_engine.specs.Handed.{handed_number, Hands};

    ghost number = { handed_number };

    ghost device = { handed_number };

    ghost steps = { Hands };

    fn connection(&self) -> u64 {
        self.connection
    }

    fn take_event(&mut self) -> Option<u16> {
        self.event.take()
    }

    fn read_page(&mut self) -> Result<[u8; PAGE_OCTETS], Lost> {
        match &self.answer {
            Answered::Page(octets) => Ok(*octets),
            _ => Err(self.lose()),
        }
    }

    fn exchange(&mut self, _request: &[u8]) -> Result<ArrayVec<u8, ISDU_OCTETS>, Lost> {
        match std::mem::replace(&mut self.answer, Answered::Nothing) {
            Answered::Octets(octets) => Ok(octets),
            _ => Err(self.lose()),
        }
    }
}
