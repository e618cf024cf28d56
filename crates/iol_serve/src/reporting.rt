//! The thread that reports what is new.

ghost use Rattle.std.specs.Prelude.{◌↔◌, IsTrue};
ghost use Rattle.iol_master.specs.declared.news.News.TheVariants.{Status};
ghost use Rattle.iol_serve.specs.News.{IsTold, Tells};

use crate::printing::Printer;
use iol_answers::Event;
use iol_front::Name;
use iol_master::{Client, Known, News};
use iol_port::PortStatus;
use iol_requests::Spelling;
use iol_types::PortId;
use std::alloc::{AllocError, Global};
use std::sync::Wait;
use std::time::Clock;

/// A client that prints an event for what is new to it.
#[derive(Drop)]
pub(crate) struct Reporter<F: Name> {
    client: Client<F>,
    known: Known,
    // the status of each port in its last event, port 1 first
    told: Vec<PortStatus>,
    spelling: Spelling,
}

impl<F: Name> Reporter<F> {
    // Makes a reporter of a master that starts with this number of ports, after the command with this number.
    pub(crate) fn new(
        alloc: Global,
        client: Client<F>,
        ports: u8,
        number: u64,
        spelling: Spelling,
    ) -> Result<Reporter<F>, AllocError> {
        Ok(Reporter {
            client,
            known: Known::new(alloc, ports, number)?,
            told: vec![in alloc; PortStatus::Off; usize::from(ports)]?,
            spelling,
        })
    }

    // Returns the event that reports what is new. There is none if a port looks again for a device that it has lost, or if it has
    // the status of its last event.
    fn event_of(&mut self, news: News) -> Option<Event>
        ensures { Tells self.old.told.items news result self.new.told.items }
    {
        match news {
            News::Durable { number } => Some(Event::Durable { number }),
            News::Status { port, status } => self.status_event(port, status),
        }
    }

    // Returns the event that reports a new status of a port, if it gets one. The port's last event is then this one.
    fn status_event(&mut self, port: PortId, status: PortStatus) -> Option<Event>
        ensures { Tells self.old.told.items (Status port status) result self.new.told.items }
    {
        let place = port.place();
        let last = self.told.get(place)?;
        if !is_told(*last, status) {
            return None;
        }
        self.told[place] = status;
        Some(Event::Status { port, status })
    }
}

// Returns whether a status gets an event, after the status of the port's last event.
fn is_told(last: PortStatus, status: PortStatus) -> bool
    ensures { IsTrue result ↔ IsTold last status }
{
    match (last, status) {
        (PortStatus::Lost, PortStatus::Starting) => false,
        _ => status != last,
    }
}

// Reports what is new until no port makes a step any more and nothing is new. Returns the reporter, for what is new after
// that.
pub(crate) fn report_all<F: Name, R: Wait + Clock>(
    rt: &R,
    alloc: Global,
    mut reporter: Reporter<F>,
    printer: &Printer,
) -> Reporter<F> {
    for _ in rt.forever() {
        match reporter.client.news(rt, &mut reporter.known) {
            Some(news) => {
                if let Some(event) = reporter.event_of(news) {
                    printer.event(rt, alloc, reporter.spelling, &event);
                }
            }
            None => return reporter,
        }
    }
    unreachable!()
}
