//! The core, and the parts that its calls share.

ghost use Rattle.std.specs.Prelude.{◌≡◌, ◌≤◌, ◌+◌, [], length, replicate, slice_get, slice_set, None, IfOk, Some};
ghost use Rattle.std.specs.VecDeque.{deque_capacity};
ghost use Rattle.iol_types.specs.Command.{value_of};
ghost use Rattle.iol_journal.specs.Body.{values};
ghost use Rattle.iol_types.specs.State.{after, check};
ghost use Rattle.iol_core.specs.Core.{IsCore, FitsAt, live, live_number, out_at, permit_at, with_permit};
ghost use Rattle.iol_core.specs.Submit.{is_stopped, writes_no_more, stopped_by, queue_fault, queued};

use crate::permit::Grant;
use crate::stop::StopCause;
use crate::ticket::{SubmitFault, Ticket};
use iol_front::{Name, Pass};
use iol_journal::LAST_NUMBER;
use iol_types::{Command, MasterState, PortId};
use std::alloc::{AllocError, Global};
use std::collections::VecDeque;
use std::marker::Model;

/// The largest number of waiting commands, those in flight included.
pub const QUEUE_COMMANDS: usize = 64;

/// The durable state, the commands that wait for the disk, and the permits that are out. Contracts see it as the record `CoreView`
/// of `specs/Core.antt`, of which `IsCore` always holds.
#[derive(Drop)]
pub struct Core<F: Name> {
    pub(crate) alloc: Global,
    pub(crate) durable: MasterState,
    // the durable state after the commands of the queue
    live: MasterState,
    pub(crate) number: u64,
    pub(crate) queue: VecDeque<Command>,
    pub(crate) flight: usize,
    // a place for each port
    permits: Vec<Option<Grant>>,
    stopped: Option<StopCause>,
    pub(crate) pass: Pass<F>,
}

impl<F: Name> Model for Core<F> {
    ghost use Rattle.std.specs.Prelude.{◌≡◌, ◌≤◌};
    ghost use Rattle.std.specs.VecDeque.{deque_capacity};
    ghost use Rattle.iol_types.specs.State.{after};
    ghost use Rattle.iol_journal.specs.Body.{values};
    ghost use Rattle.iol_core.specs.Core.{CoreView, IsCore};
    ghost use Rattle.iol_core.specs.declared.core_value.TheConstants.{QUEUE_COMMANDS};

    ghost Value = { CoreView };

    ghost view = { λ c. record {
      durable = c.durable;
      number = c.number;
      queue = values c.queue.items;
      flight = c.flight;
      permits = c.permits.items;
      stopped = c.stopped;
      seen = c.pass;
    } };

    ghost invariant = { λ c. IsCore F.front.start (record {
      durable = c.durable;
      number = c.number;
      queue = values c.queue.items;
      flight = c.flight;
      permits = c.permits.items;
      stopped = c.stopped;
      seen = c.pass;
    })
        × (c.live ≡ after c.durable (values c.queue.items)) × (QUEUE_COMMANDS ≤ deque_capacity c.queue) };
}

impl<F: Name> Core<F> {
    /// Creates a core over a durable state: the start state of the pass's front after the commands that the pass has seen. Nothing
    /// waits and no permit is out.
    ///
    /// # Errors
    /// `AllocError` if out of memory.
    pub fn new(alloc: Global, state: MasterState, pass: Pass<F>) -> Result<Core<F>, AllocError>
        requires { state ≡ after F.front.start.state pass }
        ensures { IfOk result (λ core. core ≡ record {
          durable = state;
          number = F.front.start.number + length pass;
          queue = [];
          flight = 0;
          permits = replicate (length state) None;
          stopped = None;
          seen = pass;
        }) }
    {
        let (live, queue, permits) = memory_for(alloc, &state)?;
        let number = pass.count();
        Ok(Core {
            alloc,
            durable: state,
            live,
            number,
            queue,
            flight: 0,
            permits,
            stopped: None,
            pass,
        })
    }

    /// The number of the last waiting command, or of the last durable one if none waits.
    pub fn live_number(&self) -> u64
        ensures number { result ≡ live_number self.now }
        ensures bound { result ≤ LAST_NUMBER }
        ensures core { IsCore F.front.start self.now }
    {
        self.number + self.queue.len() as u64
    }

    /// The durable state.
    pub fn durable(&self) -> &MasterState
        ensures { result.now ≡ self.now.durable }
    {
        &self.durable
    }

    /// The number of the last durable command.
    pub fn number(&self) -> u64
        ensures { result ≡ self.now.number }
    {
        self.number
    }

    /// Returns a pass that has seen what the core's own pass has seen.
    ///
    /// # Errors
    /// `AllocError` if out of memory; nothing changes.
    pub fn pass(&mut self) -> Result<Pass<F>, AllocError>
        ensures same { self.new ≡ self.old }
        ensures pass { IfOk result (λ pass. pass ≡ self.old.seen) }
    {
        self.pass.another()
    }

    /// Stops accepting commands and uploads, for this cause. A failed disk stays the cause, and running out of memory stays the
    /// cause if the core is closed afterwards.
    pub fn stop(&mut self, cause: StopCause)
        ensures { self.new ≡ record self.old { stopped = Some (stopped_by self.old.stopped cause) } }
    {
        self.stopped = Some(cause.after(self.stopped));
    }

    /// The durable state.
    pub fn end(self) -> MasterState
        ensures { result ≡ self.durable }
    {
        let Core { durable, .. } = self;
        durable
    }

    // The live state.
    pub(crate) fn live(&self) -> &MasterState
        ensures state { result.now ≡ live self.now }
        ensures core { IsCore F.front.start self.now }
    {
        &self.live
    }

    // Whether no more commands and uploads are accepted.
    pub(crate) fn is_stopped(&self) -> bool
        ensures { result ≡ is_stopped self.now }
    {
        self.stopped.is_some()
    }

    // Whether nothing more is written.
    pub(crate) fn writes_no_more(&self) -> bool
        ensures { result ≡ writes_no_more self.now.stopped }
    {
        matches!(
            self.stopped,
            Some(StopCause::DiskFailed | StopCause::OutOfMemory)
        )
    }

    // The grant of the port's permit, if one is out.
    pub(crate) fn permit(&self, port: PortId) -> Option<Grant>
        ensures { result ≡ permit_at self.now port }
    {
        permit_in(&self.permits, port.place())
    }

    // Records what the port's permit is for, or with `None` that no permit is out.
    pub(crate) fn set_permit(&mut self, port: PortId, permit: Option<Grant>)
        requires { FitsAt (live self.old) port permit }
        ensures { self.new ≡ with_permit self.old port permit }
    {
        put_permit(&mut self.permits, port.place(), permit);
    }

    // Why the queue accepts no further command, or `None` if it does.
    pub(crate) fn queue_fault(&self) -> Option<SubmitFault>
        ensures { result ≡ queue_fault self.now }
    {
        if QUEUE_COMMANDS <= self.queue.len() {
            Some(SubmitFault::QueueFull)
        } else if LAST_NUMBER <= self.live_number() {
            Some(SubmitFault::Exhausted)
        } else {
            None
        }
    }

    // Appends a command that passes the check. `command` and `same` are equal: one goes to the live state, the other to the queue.
    pub(crate) fn enqueue(&mut self, command: Command, same: Command) -> Ticket
        requires same { value_of same ≡ value_of command }
        requires passes { check (live self.old) (value_of command) ≡ None }
        requires room { queue_fault self.old ≡ None }
        ensures ticket { result ≡ live_number self.old + 1 }
        ensures queued { self.new ≡ queued self.old (value_of command) }
    {
        let Ok(()) = self.queue.push_back(same) else {
            unreachable!()
        };
        self.live.apply(command);
        Ticket::of(self.number + self.queue.len() as u64)
    }
}

// Allocates what a core over a state needs: the live state, the queue, and a place for each port's permit.
fn memory_for(
    alloc: Global,
    state: &MasterState,
) -> Result<(MasterState, VecDeque<Command>, Vec<Option<Grant>>), AllocError>
    ensures live { IfOk result (λ memory. memory.0 ≡ state.now) }
    ensures queue { IfOk result (λ memory. values memory.1.items ≡ []) }
    ensures room { IfOk result (λ memory. QUEUE_COMMANDS ≤ deque_capacity memory.1) }
    ensures permits { IfOk result (λ memory. memory.2.items ≡ replicate (length state.now) None) }
{
    let live = state.copy()?;
    let queue = VecDeque::with_capacity(alloc, QUEUE_COMMANDS)?;
    let permits = vec![in alloc; None; usize::from(state.ports())]?;
    Ok((live, queue, permits))
}

// Returns the permit at a place; `None` if there is no such place.
fn permit_in(permits: &[Option<Grant>], place: usize) -> Option<Grant>
    ensures { result ≡ out_at (slice_get permits.now place) }
{
    match permits.get(place) {
        Some(permit) => *permit,
        None => None,
    }
}

// Writes a permit to a place, if there is such a place.
fn put_permit(permits: &mut Vec<Option<Grant>>, place: usize, permit: Option<Grant>)
    ensures { permits.new.items ≡ slice_set permits.old.items place permit }
{
    if let Some(was) = permits.get_mut(place) {
        *was = permit;
    }
}
