//! Clients that wait for news: another status of any port, or more durable commands.

ghost use Rattle.std.specs.Prelude.{◌≡◌, IfOk, IfSome, IsTrue, replicate};
ghost use mathlib.Core.List.{IsPrefix};
ghost use Rattle.iol_headline.specs.Statuses.{IsLastReported};
ghost use Rattle.iol_port.specs.declared.status.PortStatus.TheVariants.{Off};
ghost use Rattle.iol_master.specs.News.{IsNew, IsSo, known_after, known_with};
ghost use Rattle.iol_master.specs.declared.news.News.TheVariants.{Status};

use crate::client::Shared;
use crate::guarded::{Guarded, Phase};
use iol_front::{Name, Pass};
use iol_port::PortStatus;
use iol_types::PortId;
use std::alloc::{AllocError, Global};
use std::marker::Model;
use std::sync::Wait;

/// Something new at a master.
#[derive(Clone, Copy, Debug, PartialEq, Eq)]
pub enum News {
    /// A port has this status now.
    Status { port: PortId, status: PortStatus },
    /// All commands up to this number are durable.
    Durable { number: u64 },
}

/// What is known of a master: the status that was reported last of each port, and the number of the last durable command. A
/// contract sees the record `KnownView` of `specs/News.antt`.
#[derive(Drop)]
pub struct Known {
    statuses: Vec<PortStatus>,
    number: u64,
    // The place of the port that is compared first: the one after the port that was reported last, so that no port is passed over.
    next: usize,
}

impl Model for Known {
    ghost use Rattle.iol_master.specs.News.{KnownView};

    ghost Value = { KnownView };

    ghost view = { λ k. record { statuses = k.statuses.items; number = k.number } };
}

impl Known {
    /// Returns what is known of a master that starts with `ports` ports, after the command with this number: all ports are off.
    ///
    /// # Errors
    /// Out of memory.
    pub fn new(alloc: Global, ports: u8, number: u64) -> Result<Known, AllocError>
        ensures { IfOk result (λ known. known ≡ record { statuses = replicate ports Off; number = number }) }
    {
        let statuses = vec![in alloc; PortStatus::Off; usize::from(ports)]?;
        Ok(Known {
            statuses,
            number,
            next: 0,
        })
    }

    // Returns whether the status is another than the one known of the port.
    fn is_new(&self, port: PortId, status: PortStatus) -> bool
        ensures { IsTrue result → IsNew self.now (Status port status) }
    {
        let Some(last) = self.statuses.get(port.place()) else {
            return false;
        };
        if status == *last {
            return false;
        }
        true
    }

    // Adds news to what is known.
    fn learn(&mut self, news: &News)
        ensures { self.new ≡ known_with self.old news.now }
    {
        match news {
            News::Status { port, status } => {
                let place = port.place();
                if place < self.statuses.len() {
                    self.statuses[place] = *status;
                }
                self.next = place + 1;
            }
            News::Durable { number } => self.number = *number,
        }
    }
}

// The reason why nothing is reported.
#[derive(Clone, Copy)]
enum Silence {
    // Nothing is new so far.
    SoFar,
    // Nothing is new, and no port makes a step any more.
    Ended,
}

impl<F: Name> Guarded<F> {
    // Returns what is new. The pass has then seen each command that is reported as durable.
    fn news(&self, pass: &mut Pass<F>, known: &Known) -> Result<News, Silence>
        ensures kept { IsPrefix pass.old pass.new }
        ensures new { IfOk result (IsNew known.now) }
        ensures so { IfOk result (IsSo F.front.start pass.new) }
    {
        let number = pass.look();
        if known.number < number {
            return Ok(News::Durable { number });
        }
        match self.changed(known) {
            Some((port, status)) => Ok(News::Status { port, status }),
            None if self.phase() == Phase::Closed => Err(Silence::Ended),
            None => Err(Silence::SoFar),
        }
    }

    // Returns the first port whose status is another than the known one, with its status. The search starts after the port that was
    // reported last.
    fn changed(&self, known: &Known) -> Option<(PortId, PortStatus)>
        ensures new { IfSome result (λ found. IsNew known.now (Status found.0 found.1)) }
        ensures reported { IfSome result (λ found. IsLastReported F.front.start found.0 found.1) }
    {
        let ports = known.statuses.len();
        match self.changed_among(known, known.next, ports) {
            Some(changed) => Some(changed),
            None => self.changed_among(known, 0, ports),
        }
    }

    // Returns the first port from one place up to another whose status is another than the known one, with its status.
    fn changed_among(&self, known: &Known, from: usize, to: usize) -> Option<(PortId, PortStatus)>
        ensures new { IfSome result (λ found. IsNew known.now (Status found.0 found.1)) }
        ensures reported { IfSome result (λ found. IsLastReported F.front.start found.0 found.1) }
    {
        for place in from..to {
            if let Some(changed) = self.changed_at(known, place) {
                return Some(changed);
            }
        }
        None
    }

    // Returns the port at a place and its status, if that is another than the known one.
    fn changed_at(&self, known: &Known, place: usize) -> Option<(PortId, PortStatus)>
        ensures new { IfSome result (λ found. IsNew known.now (Status found.0 found.1)) }
        ensures reported { IfSome result (λ found. IsLastReported F.front.start found.0 found.1) }
    {
        let port = PortId::new(u8::try_from(place).ok()?.checked_add(1)?)?;
        let status = self.status(port)?;
        if known.is_new(port, status) {
            Some((port, status))
        } else {
            None
        }
    }
}

// Waits until something is new, and returns it, or `None` if the master has ended and nothing is new.
pub(crate) fn wait_for_news<F: Name, R: Wait>(
    rt: &R,
    shared: &Shared<F>,
    pass: &mut Pass<F>,
    known: &mut Known,
) -> Option<News>
    ensures kept { IsPrefix pass.old pass.new }
    ensures new { IfSome result (IsNew known.old) }
    ensures so { IfSome result (IsSo F.front.start pass.new) }
    ensures known { known.new ≡ known_after known.old result }
{
    for _ in rt.forever() {
        let guarded = shared.guarded.lock(rt);
        match guarded.news(pass, known) {
            Ok(news) => {
                known.learn(&news);
                return Some(news);
            }
            Err(Silence::Ended) => return None,
            Err(Silence::SoFar) => drop(shared.reported.wait(rt, guarded)),
        }
    }
    unreachable!()
}
