//! The visit of a device at a port.

ghost use Rattle.std.specs.Prelude.{◌≡◌, Ok, Err, OnOk, OnErr, IfErr};
ghost use Rattle.iol_sim.specs.Device.{Device, Answers, page_of, told, after_told, lost_device, change_of};
ghost use Rattle.iol_sim.specs.SimLink.{one_fewer, is_now};

use crate::device::SimDevice;
use crate::refusal::Refusal;
use arrayvec::ArrayVec;
use iol_link::{ISDU_OCTETS, PAGE_OCTETS};
use iol_types::Key;
use std::marker::Model;

/// The visit of a device at the port of a [`SimLink`](crate::SimLink): the device, the number of
/// calls that it answers until it is lost, and the number after which it requests an upload. A
/// contract sees the record `VisitValue` of `specs/SimLink.antt`, which counts the calls that are
/// left.
#[derive(Drop)]
pub struct Visit {
    device: SimDevice,
    answers: Option<u64>,
    event: Option<u64>,
}

impl Model for Visit {
    ghost use Rattle.iol_sim.specs.SimLink.{VisitValue};

    ghost Value = { VisitValue };

    ghost view = { λ v. record { device = v.device; answers = v.answers; event = v.event } };
}

impl Visit {
    ghost use Rattle.iol_sim.specs.SimLink.{visit_of, after_answer, has_answer, raised_in_time};

    /// Creates a visit of this device. `answers` is the number of calls, `read_page` and `exchange`,
    /// that it answers before it is lost: 0 means that it is lost at once, `None` that it never is.
    /// `event` is the number of answered calls after which it requests an upload: 0 means from its
    /// arrival, `None` means never.
    pub fn new(device: SimDevice, answers: Option<u64>, event: Option<u64>) -> Visit
        ensures { result ≡ visit_of device answers event }
    {
        let mut visit = Visit {
            device,
            answers,
            event,
        };
        visit.raise_in_time();
        visit
    }

    /// The device.
    pub fn device(&self) -> &SimDevice
        ensures { result.now ≡ self.now.device }
    {
        &self.device
    }

    // Makes the device request an upload if it is time.
    fn raise_in_time(&mut self)
        ensures { self.new ≡ raised_in_time self.old }
    {
        if is_now(self.event) {
            self.device.raise();
            self.event = None;
        }
    }

    // Counts an answered call.
    fn count(&mut self)
        ensures { self.new ≡ after_answer self.old self.old.device }
    {
        self.answers = one_fewer(self.answers);
        self.event = one_fewer(self.event);
        self.raise_in_time();
    }

    /// Whether the device answers another call.
    pub fn has_answer(&self) -> bool
        ensures { result ≡ has_answer self.now }
    {
        !is_now(self.answers)
    }

    /// The page of the device. It counts as an answered call.
    pub fn page(&mut self) -> [u8; PAGE_OCTETS]
        ensures page { result ≡ page_of self.old.device }
        ensures counted { self.new ≡ after_answer self.old self.old.device }
    {
        let page = self.device.page();
        self.count();
        page
    }

    /// The answer of the device to a request. It counts as an answered call.
    pub fn exchange(&mut self, request: &[u8]) -> ArrayVec<u8, ISDU_OCTETS>
        ensures { (device : Device) × Answers self.old.device request.now result.items device
            × (self.new ≡ after_answer self.old device) }
    {
        let answer = self.device.answer(request);
        self.count();
        answer
    }

    /// Takes the pending event of the device and returns its EventCode, or `None` if no event is
    /// pending.
    pub fn take_event(&mut self) -> Option<u16>
        ensures event { result ≡ told self.old.device }
        ensures told { self.new ≡ record self.old { device = after_told self.old.device } }
    {
        self.device.take_event()
    }

    /// Marks the device as lost.
    pub fn lose(&mut self)
        ensures { self.new ≡ record self.old { device = lost_device self.old.device } }
    {
        self.device.lose();
    }

    /// Gives a parameter another value at the device itself, as [`SimDevice::change`] says.
    ///
    /// # Errors
    /// Those of [`SimDevice::change`]; the device is then unchanged.
    pub fn change(&mut self, key: Key, octets: &[u8]) -> Result<(), Refusal>
        ensures changed { OnOk result (change_of self.old.device key octets.now ≡ Ok self.new.device) }
        ensures rest { self.new ≡ record self.old { device = self.new.device } }
        ensures refusal { IfErr result (λ refusal. change_of self.old.device key octets.now ≡ Err refusal) }
        ensures kept { OnErr result (self.new ≡ self.old) }
    {
        self.device.change(key, octets)
    }
}

// Whether no call is left until this point.
fn is_now(calls: Option<u64>) -> bool
    ensures { result ≡ is_now calls }
{
    calls == Some(0)
}

// Counts one answered call; at 0 the number stays.
fn one_fewer(calls: Option<u64>) -> Option<u64>
    ensures { result ≡ one_fewer calls }
{
    match calls {
        Some(count) => Some(count.saturating_sub(1)),
        None => None,
    }
}
