//! What the lines before an event have reported.
ghost use Rattle.std.specs.Prelude.{◌≡◌};
ghost use Rattle.iol_engine.specs.Events.{event_of};
ghost use Rattle.iol_explain.specs.Telling.{after, first, known_after, known_at, known_for, port_of};

use crate::known::Known;
use iol_commands::lost_port;
use iol_engine::Event;
use iol_run::Stamped;
use iol_types::{PORTS, PortId};

// The number of places in an array indexed by port numbers. No port has number 0.
const NUMBERS: usize = PORTS as usize + 1;

// What was reported: the number of disk calls, the port whose device was just lost, and what is known of each port.
#[derive(Drop)]
pub(crate) struct Telling {
    pub(crate) calls: usize,
    pub(crate) lost: Option<PortId>,
    // what is known of each port, at the index of its number
    ports: [Known; NUMBERS],
}

impl Telling {
    // Returns what was reported before the first event: nothing.
    pub(crate) fn first() -> Telling
        ensures { result ≡ first }
    {
        Telling {
            calls: 0,
            lost: None,
            ports: [Known::blank(); NUMBERS],
        }
    }

    // Returns what is known of the port of an exchange, of work or of a status, and a blank for any other event.
    pub(crate) fn known_for(&self, event: &Event) -> Known
        ensures { result ≡ known_for self.now.ports (event_of event.now) }
    {
        match port_of(event) {
            Some(port) => self.known_at(port),
            None => Known::blank(),
        }
    }

    // Returns what is known of a port.
    fn known_at(&self, port: PortId) -> Known
        ensures { result ≡ known_at self.now.ports port }
    {
        match self.ports.get(usize::from(port.number())) {
            Some(known) => *known,
            None => Known::blank(),
        }
    }

    // Notes that one more event is reported, after this number of disk calls.
    pub(crate) fn tell(&mut self, calls: usize, stamped: &Stamped)
        ensures { self.new ≡ after self.old calls stamped.now }
    {
        let event = &stamped.event;
        self.calls = calls;
        self.lost = lost_port(event);
        if let Some(port) = port_of(event) {
            let known = known_after(self.known_at(port), event);
            self.ports[usize::from(port.number())] = known;
        }
    }
}

// Returns the port of an event, if the event changes what is known of that port.
fn port_of(event: &Event) -> Option<PortId>
    ensures { result ≡ port_of (event_of event.now) }
{
    match event {
        Event::Exchange { port, .. } | Event::Attended { port, .. } | Event::Status { port, .. } =>
            Some(*port),
        _ => None,
    }
}

// Returns what is known of a port after an event of it.
fn known_after(known: Known, event: &Event) -> Known
    ensures { result ≡ known_after known (event_of event.now) }
{
    match event {
        Event::Exchange { octets, .. } => {
            known.heard(octets.request.as_slice(), octets.answer.as_slice())
        }
        Event::Attended { work, .. } => known.attended(work),
        Event::Status { status, .. } => known.started(*status),
        _ => known,
    }
}
