//! A simulated link: several devices, one after another, at one port.

ghost use Rattle.std.specs.Prelude.{◌≡◌, ◌<◌, Ok, Err, length, is_some, OnOk, OnErr, IfErr, IsSome, IfSome, slice_get, slice_set};
ghost use Rattle.std.specs.Option.{option_copied, option_map};
ghost use Rattle.iol_sim.specs.Device.{Device, change_of};

use crate::device::SimDevice;
use crate::refusal::Refusal;
use crate::visit::Visit;
use arrayvec::ArrayVec;
use iol_link::{DeviceLink, ISDU_OCTETS, Lost, PAGE_OCTETS};
use iol_types::Key;
use std::marker::Model;

/// A link to simulated devices, which visit its port one after another. A device stays until it has
/// answered the number of calls that its [`Visit`] says; the next call is `Lost`, and the next device
/// is present. After the last device, and on the last connection, every call is `Lost` and no event is
/// reported. A contract sees the record `Sim` of `specs/SimLink.antt`.
#[derive(Drop)]
pub struct SimLink {
    visits: Vec<Visit>,
    place: usize,
    connection: u64,
}

impl Model for SimLink {
    ghost use Rattle.std.specs.Prelude.{◌≤◌, length};
    ghost use Rattle.iol_sim.specs.SimLink.{Sim};

    ghost Value = { Sim };

    ghost view = { λ s. record { visits = s.visits.items; place = s.place; connection = s.connection } };

    ghost invariant = { λ s. s.place ≤ length s.visits.items };
}

impl SimLink {
    ghost use Rattle.iol_sim.specs.SimLink.{present, answering, after_loss};

    /// Creates a link to the devices of these visits, on connection 0. The device of the first visit is
    /// present.
    pub fn new(visits: Vec<Visit>) -> SimLink
        ensures { result ≡ record { visits = visits.items; place = 0; connection = 0 } }
    {
        SimLink {
            visits,
            place: 0,
            connection: 0,
        }
    }

    /// The visits in their order, including those that are over.
    pub fn visits(&self) -> &[Visit]
        ensures { result.now ≡ self.now.visits }
    {
        self.visits.as_slice()
    }

    /// The device of the visit at a place, counted from 0, even if the visit is over.
    pub fn device(&self, place: usize) -> Option<&SimDevice>
        ensures { option_copied result
            ≡ option_map (λ visit. visit.device) (slice_get self.now.visits place) }
    {
        match self.visits.get(place) {
            Some(visit) => Some(visit.device()),
            None => None,
        }
    }

    /// The place of the present visit, or the number of visits if the last one is over.
    pub fn place(&self) -> usize
        ensures { result ≡ self.now.place }
    {
        self.place
    }

    /// Returns the link on this connection.
    pub fn at_connection(self, connection: u64) -> SimLink
        ensures { result ≡ record self { connection = connection } }
    {
        let mut link = self;
        link.connection = connection;
        link
    }

    /// Gives a parameter another value at the device of the visit at a place, counted from 0, as
    /// [`SimDevice::change`](crate::SimDevice::change) says.
    ///
    /// # Errors
    /// Those of [`SimDevice::change`](crate::SimDevice::change); the link is then unchanged.
    pub fn change(&mut self, place: usize, key: Key, octets: &[u8]) -> Result<(), Refusal>
        requires { place < length self.old.visits }
        ensures visit { IfSome (slice_get self.old.visits place) (λ visit.
            OnOk result ((device : Device) × (change_of visit.device key octets.now ≡ Ok device)
            × (self.new ≡ record self.old { visits = slice_set self.old.visits place (record visit { device = device }) }))) }
        ensures refusal { IfSome (slice_get self.old.visits place) (λ visit.
            IfErr result (λ refusal. change_of visit.device key octets.now ≡ Err refusal)) }
        ensures kept { OnErr result (self.new ≡ self.old) }
    {
        self.visits[place].change(key, octets)
    }

    // The visit whose device answers the next call, or `None` if no device does.
    fn answering(&self) -> Option<&Visit>
        ensures visit { option_copied result ≡ answering self.now }
        ensures found { is_some result ≡ is_some (answering self.now) }
        ensures there { IsSome result → self.now.place < length self.now.visits }
    {
        if self.connection == u64::MAX {
            return None;
        }
        match self.visits.get(self.place) {
            Some(visit) if visit.has_answer() => Some(visit),
            _ => None,
        }
    }

    // Marks the present device as lost, and makes the next one present.
    fn lose(&mut self) -> Lost
        ensures { self.new ≡ after_loss self.old }
    {
        if self.connection < u64::MAX {
            if let Some(visit) = self.visits.get_mut(self.place) {
                visit.lose();
                self.place += 1;
            }
            self.connection += 1;
        }
        Lost
    }
}

impl DeviceLink for SimLink {
    ghost use Rattle.iol_sim.specs.SimLink.{SimStep};

    ghost number = { λ sim. sim.connection };

    ghost device = { λ sim. sim.place };

    ghost steps = { SimStep };

    fn connection(&self) -> u64 {
        self.connection
    }

    fn take_event(&mut self) -> Option<u16> {
        if self.connection == u64::MAX {
            return None;
        }
        match self.visits.get_mut(self.place) {
            Some(visit) => visit.take_event(),
            None => None,
        }
    }

    fn read_page(&mut self) -> Result<[u8; PAGE_OCTETS], Lost> {
        if self.answering().is_none() {
            return Err(self.lose());
        }
        Ok(self.visits[self.place].page())
    }

    fn exchange(&mut self, request: &[u8]) -> Result<ArrayVec<u8, ISDU_OCTETS>, Lost> {
        if self.answering().is_none() {
            return Err(self.lose());
        }
        Ok(self.visits[self.place].exchange(request))
    }
}
