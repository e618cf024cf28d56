//! A link to the devices of a port over a transport.

ghost use Rattle.std.specs.Prelude.{◌≡◌, ◌≢◌, ◌+◌, ◌<◌, ◌⊎◌, [], List, ℕ, MatchOption, IsErr};
ghost use Rattle.std.specs.Option.{option_map};
ghost use Rattle.iol_wire.specs.Requests.{Page, Isdu, asked_of};
ghost use Rattle.iol_wire.specs.declared.transport.Position.TheVariants.{LineStart};
ghost use Rattle.iol_wire.specs.Hearing.{Hears};
ghost use Rattle.iol_wire.specs.Transport.{TransportCall, Run};
ghost use Rattle.iol_wire.specs.Events.{kept};
ghost use Rattle.iol_wire.specs.Wire.{wire_of, transport_of, lost, octets_of, AskStep};

use crate::events::{KEPT_EVENTS, keep};
use crate::line::{Line, Reply};
use crate::reading::read_line;
use crate::stream::{LineStream, Unended};
use crate::transport::Transport;
use crate::writing::{Request, request_line};
use arrayvec::ArrayVec;
use iol_link::{DeviceLink, ISDU_OCTETS, Lost, PAGE_OCTETS};

/// A link to the devices of a port through a driver, which is sent and sends lines of ASCII over a
/// transport (docs/FORMATS.md, "Lines of a driver").
///
/// Requests are numbered from 1. The answer to a request is a line that has the number of the
/// request and is of its kind. Events before it are kept, at most 16, until they are taken, oldest
/// first; answers to earlier requests are dropped. At anything else, and if the transport fails,
/// the device is `Lost`, and the next connection begins without events. The rest of a line that did
/// not end is dropped later. An ISDU request of over 238 octets is `Lost`, and nothing is sent; so
/// is each request after number 2^64 - 1.
///
/// Its relation says which calls it makes of the transport. That a single device answers on a
/// connection is guaranteed by the driver. A call takes as long as its transport takes.
#[derive(Drop)]
pub struct WireLink<T: Transport> {
    stream: LineStream<T>,
    number: u64,
    connection: u64,
    events: ArrayVec<u16, KEPT_EVENTS>,
}

impl<T: Transport> WireLink<T> {
    /// Creates a link on connection 0, before its first request.
    pub fn new(transport: T) -> WireLink<T>
        ensures { wire_of result ≡ record { position = LineStart; number = 0; connection = 0; events = [] } }
    {
        WireLink {
            stream: LineStream::new(transport),
            number: 0,
            connection: 0,
            events: ArrayVec::new(),
        }
    }

    /// Returns the transport.
    pub fn into_transport(self) -> T
        ensures { result ≡ transport_of self }
    {
        let WireLink {
            stream,
            number: _,
            connection: _,
            events: _,
        } = self;
        stream.into_transport()
    }

    // Sends a request and returns the answer of the driver; `None` if no answer to it came.
    fn ask(&mut self, request: Request<'_>) -> Option<Reply>
        requires { self.old.connection < 18446744073709551615 }
        ensures connection { self.new.connection ≡ self.old.connection }
        ensures step { (calls : List TransportCall) × Run T.moves (transport_of self.old) calls (transport_of self.new)
            × AskStep (wire_of self.old) (asked_of request.entry) calls result (wire_of self.new) }
    {
        if self.number == u64::MAX {
            return None;
        }
        let number = self.number + 1;
        let line = match request_line(number, request) {
            Some(line) => line,
            None => return None,
        };
        match self.stream.connect() {
            Ok(()) => {}
            Err(_) => return None,
        }
        self.number = number;
        match self.stream.send(line.as_slice()) {
            Ok(()) => self.hear(number),
            Err(_) => None,
        }
    }

    // Receives the answer to the request with this number, and keeps the events before it.
    fn hear(&mut self, number: u64) -> Option<Reply>
        ensures number { self.new.number ≡ self.old.number }
        ensures connection { self.new.connection ≡ self.old.connection }
        ensures heard { (calls : List TransportCall) × (codes : List ℕ)
            × Run T.moves (transport_of self.old) calls (transport_of self.new)
            × Hears number self.old.stream.position calls result codes self.new.stream.position
            × (self.new.events.items ≡ kept self.old.events.items codes) }
    {
        match self.stream.skip_rest() {
            Ok(()) => {}
            Err(Unended) => return None,
        }
        for _ in 0..u64::MAX {
            let line = match self.stream.next_line() {
                Ok(line) => line,
                Err(Unended) => return None,
            };
            match read_line(line.as_slice()) {
                Line::Event(code) => keep(&mut self.events, code),
                Line::Answer {
                    number: earlier,
                    reply: _,
                } if earlier < number => {}
                Line::Answer {
                    number: same,
                    reply,
                } if same == number => return Some(reply),
                _ => return None,
            }
        }
        None
    }

    // Ends the connection, because the device is lost; the next connection begins.
    fn lose(&mut self) -> Lost
        requires { self.old.connection < 18446744073709551615 }
        ensures wire { wire_of self.new ≡ lost (wire_of self.old) }
        ensures transport { transport_of self.new ≡ transport_of self.old }
    {
        self.connection += 1;
        self.events.clear();
        Lost
    }
}

fn page_in(reply: Option<Reply>) -> Option<[u8; PAGE_OCTETS]>
    ensures { result ≡ octets_of Page reply }
{
    match reply {
        Some(Reply::Page(page)) => Some(page),
        _ => None,
    }
}

fn isdu_in(reply: Option<Reply>) -> Option<ArrayVec<u8, ISDU_OCTETS>>
    ensures { (request : List ℕ) → option_map (λ octets. octets.items) result ≡ octets_of (Isdu request) reply }
{
    match reply {
        Some(Reply::Isdu(octets)) => Some(octets),
        _ => None,
    }
}

impl<T: Transport> DeviceLink for WireLink<T> {
    ghost use Rattle.iol_wire.specs.Wire.{LinkSteps};

    ghost number = { λ link. link.connection };

    ghost device = { λ link. link.connection };

    ghost steps = { LinkSteps T.moves };

    fn connection(&self) -> u64 {
        self.connection
    }

    fn take_event(&mut self) -> Option<u16> {
        if self.connection == u64::MAX {
            return None;
        }
        self.events.pop_at(0)
    }

    fn read_page(&mut self) -> Result<[u8; PAGE_OCTETS], Lost> {
        if self.connection == u64::MAX {
            return Err(Lost);
        }
        match page_in(self.ask(Request::Page)) {
            Some(page) => Ok(page),
            None => Err(self.lose()),
        }
    }

    fn exchange(&mut self, request: &[u8]) -> Result<ArrayVec<u8, ISDU_OCTETS>, Lost> {
        if self.connection == u64::MAX {
            return Err(Lost);
        }
        match isdu_in(self.ask(Request::Isdu(request))) {
            Some(octets) => Ok(octets),
            None => Err(self.lose()),
        }
    }
}
