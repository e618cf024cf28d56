//! What the lock guards: the engine, the callers that wait for its commands, and the counts that wake the ports.

ghost use Rattle.std.specs.Prelude.{◌≡◌, ◌++◌, ◌≤◌, [], ◌∷◌, drop, length, map, replicate, take, true, IfErr, IfOk, OnErr, OnOk};
ghost use Rattle.std.specs.Prelude.{None, Some, IsSome, IfNone, IfSome, ◌-◌, slice_get, slice_index};
ghost use Rattle.std.specs.VecDeque.{deque_capacity};
ghost use mathlib.Core.List.{IsPrefix};
ghost use Rattle.iol_types.specs.Command.{command_of, port_asked};
ghost use Rattle.iol_record.specs.declared.encode.TheConstants.{LARGEST_COMMAND_RECORD};
ghost use Rattle.iol_core.specs.Batches.{IsInFlight, IsStranger, IsTake, acknowledged, has_batch};
ghost use Rattle.iol_core.specs.Downloads.{durable_set};
ghost use Rattle.iol_core.specs.Ports.{view_at};
ghost use Rattle.iol_core.specs.Standing.{Stands};
ghost use Rattle.iol_core.specs.Submit.{IsSubmit, stopped_by};
ghost use Rattle.iol_core.specs.declared.stop.StopCause.TheVariants.{Closed, DiskFailed};
ghost use Rattle.iol_core.specs.Events as trace;
ghost use Rattle.iol_engine.specs.Events.{told_of};
ghost use Rattle.iol_engine.specs.HandedSteps.{StepsHanded, status_in};
ghost use Rattle.iol_engine.specs.Submitted.{submit_told};
ghost use Rattle.iol_headline.specs.Lists.{IsLawfulList};
ghost use Rattle.iol_headline.specs.Statuses.{IsLastReported};
ghost use Rattle.iol_master.specs.Callers.{AreCallersOf, asked, ends, given_up};
ghost use Rattle.iol_master.specs.Faults.{IsUnknown};
ghost use Rattle.iol_master.specs.Finding.{is_idle, is_over};
ghost use Rattle.iol_master.specs.Wakes.{AreWoken, woken};
ghost use Rattle.iol_master.specs.declared.guarded.Phase.TheVariants as phase;

use crate::caller::{Caller, CallerAnswer, Notice};
use iol_core::{AckFault, QUEUE_COMMANDS, StopCause, SubmitFault, View};
use iol_engine::{Engine, Exchanged, Handed, PortTold};
use iol_front::{Committed, Name, Pass};
use iol_journal::Batch;
use iol_port::PortStatus;
use iol_types::{Change, PortId};
use std::alloc::{AllocError, Global};
use std::collections::VecDeque;
use std::marker::Model;
use std::sync::Wait;

/// The phase of a run.
#[derive(Clone, Copy, Debug, PartialEq, Eq)]
pub(crate) enum Phase {
    /// Ports are served.
    Running,
    /// Each port is woken once more, and ends once it is settled.
    Ending,
    /// No more commands are accepted; the waiting ones are still written.
    Closed,
}

/// The engine, and for each command of its queue the caller that waits for it, if there is one. A contract sees the record
/// `GuardedView` of `specs/Callers.antt`.
#[derive(Drop)]
pub(crate) struct Guarded<F: Name> {
    engine: Engine<F>,
    callers: VecDeque<Option<Caller<F>>>,
    // the number of times that each port was woken, port 1 first
    wakes: Vec<u64>,
    phase: Phase,
}

impl<F: Name> Model for Guarded<F> {
    ghost use Rattle.std.specs.Prelude.{◌≤◌, map};
    ghost use Rattle.std.specs.VecDeque.{deque_capacity};
    ghost use Rattle.iol_core.specs.declared.core_value.TheConstants.{QUEUE_COMMANDS};
    ghost use Rattle.iol_master.specs.Callers.{AreCallersOf, GuardedView, asked};

    ghost Value = { GuardedView };

    ghost view = { λ g. record { engine = g.engine; callers = map asked g.callers.items; wakes = g.wakes.items; phase = g.phase } };

    ghost invariant = { λ g. AreCallersOf g.engine.core.queue (map asked g.callers.items) × (QUEUE_COMMANDS ≤ deque_capacity g.callers) };
}

impl<F: Name> Guarded<F> {
    // Makes the guarded value of an engine with this number of ports. Nobody waits for its commands, and each port is woken once.
    pub(crate) fn new(alloc: Global, engine: Engine<F>, ports: u8) -> Result<Guarded<F>, AllocError>
        requires { engine.core.queue ≡ [] }
        ensures { IfOk result (λ guarded. guarded ≡ record {
          engine = engine;
          callers = [];
          wakes = replicate ports 1;
          phase = phase.Running;
        }) }
    {
        let callers = VecDeque::with_capacity(alloc, QUEUE_COMMANDS)?;
        let wakes = vec![in alloc; 1; usize::from(ports)]?;
        Ok(Guarded {
            engine,
            callers,
            wakes,
            phase: Phase::Running,
        })
    }

    // Returns the engine, to be read.
    pub(crate) fn engine(&self) -> &Engine<F>
        ensures { result.now ≡ self.now.engine }
    {
        &self.engine
    }

    // Submits a caller's change, as `Core::submit` does. The caller then waits for it, and its port is woken, unless ports are to
    // end.
    pub(crate) fn submit(&mut self, caller: Caller<F>) -> Result<u64, SubmitFault>
        ensures submit { IsSubmit self.old.engine.core (command_of caller.change) self.new.engine.core result }
        ensures reported { self.new.engine.told ≡ self.old.engine.told ++ submit_told (command_of caller.change) result }
        ensures waits { IfOk result (λ _. self.new.callers ≡ self.old.callers ++ Some caller.change ∷ []) }
        ensures woken { IfOk result (λ _. self.new.wakes ≡ woken self.old.phase (port_asked caller.change) self.old.wakes) }
        ensures refused { OnErr result ((self.new.engine.core ≡ self.old.engine.core) × (self.new.callers ≡ self.old.callers)
            × (self.new.wakes ≡ self.old.wakes)) }
        ensures phase { self.new.phase ≡ self.old.phase }
    {
        let ticket = self.engine.submit(caller.change)?;
        wake(self.phase, &mut self.wakes, caller.change.port());
        let Ok(()) = self.callers.push_back(Some(caller)) else {
            unreachable!()
        };
        Ok(ticket.number())
    }

    // Returns the durable state of a port, as `Core::view` does.
    pub(crate) fn view(
        &mut self,
        port: PortId,
        pass: &mut Pass<F>,
    ) -> Result<Option<View>, AllocError>
        ensures view { IfOk result (λ view. view ≡ view_at self.old.engine.core port) }
        ensures memory { OnErr result (IsSome (durable_set self.old.engine.core port)) }
        ensures others { self.new ≡ record self.old {
          engine = record self.old.engine { core = record self.old.engine.core { seen = self.new.engine.core.seen } };
        } }
        // The durable commands that were seen are those of a lawful trace, which is what the engine has reported.
        ensures lawful { IsLawfulList F.front.start self.new.engine.core.number
            (take (self.new.engine.core.number - F.front.start.number) self.new.engine.core.seen) }
        ensures kept { IsPrefix self.old.engine.core.seen self.new.engine.core.seen × IsPrefix pass.old pass.new }
        ensures met { OnOk result (IsPrefix self.new.engine.core.seen pass.new) }
        ensures stands { Stands F.front.start self.new.engine.core.seen self.new.engine.core.number self.new.engine.core.durable }
        ensures unchanged { OnErr result ((self.new ≡ self.old) × (pass.new ≡ pass.old)) }
    {
        let view = self.engine.view(port, pass);
        iol_headline::engine::is_lawful(&self.engine);
        view
    }

    // Shows the pass the durable commands, as `Core::meet` does, and returns the number of the last. They are those of a lawful
    // trace.
    pub(crate) fn meet(&mut self, pass: &mut Pass<F>) -> u64
        ensures lawful { IsLawfulList F.front.start result (take (result - F.front.start.number) self.new.engine.core.seen) }
        ensures kept { IsPrefix pass.old pass.new }
        ensures met { IsPrefix self.new.engine.core.seen pass.new }
        ensures stands { Stands F.front.start self.new.engine.core.seen result self.new.engine.core.durable }
    {
        let number = self.engine.meet(pass);
        iol_headline::engine::is_lawful(&self.engine);
        number
    }

    // Returns the status of a port, which is the one that was reported last, or `None` if there is no such port.
    pub(crate) fn status(&self, port: PortId) -> Option<PortStatus>
        ensures status { result ≡ status_in (slice_get self.now.engine.machines (port - 1)) }
        ensures reported { IfSome result (IsLastReported F.front.start port) }
        ensures unknown { IfNone result (IsUnknown F.front.start.state port) }
    {
        iol_headline::engine::status(&self.engine, port)
    }

    // Makes a step of a port with the answer of its link. If the step accepts a Store, no caller waits for it.
    pub(crate) fn step(
        &mut self,
        port: PortId,
        handed: Handed,
        room: Box<Exchanged>,
    ) -> Result<PortTold, Box<Exchanged>>
        ensures steps { IfOk result (λ told. StepsHanded port handed self.old.engine self.new.engine
            (told_of told.called ++ told_of told.status)) }
        ensures unchanged { OnErr result (self.new ≡ self.old) }
        ensures others { (self.new.wakes ≡ self.old.wakes) × (self.new.phase ≡ self.old.phase) }
    {
        let before = self.engine.live_number();
        let told = self.engine.step_handed(port, handed, room);
        if before < self.engine.live_number() {
            let Ok(()) = self.callers.push_back(None) else {
                unreachable!()
            };
        }
        told
    }

    // Takes a batch of the queue, as `Core::take_batch` does.
    pub(crate) fn take_batch(&mut self, room: usize) -> Result<Option<Batch>, AllocError>
        requires { LARGEST_COMMAND_RECORD ≤ room }
        ensures take { IfOk result (λ batch. IsTake self.old.engine.core room self.new.engine.core batch) }
        ensures callers { self.new.callers ≡ self.old.callers }
        ensures others { (self.new.wakes ≡ self.old.wakes) × (self.new.phase ≡ self.old.phase) }
        ensures unchanged { OnErr result ((has_batch self.old.engine.core ≡ true) × (self.new ≡ self.old)) }
    {
        self.engine.take_batch(room)
    }

    // Acknowledges a batch, as `Core::acknowledge` does. Callers that wait for its commands get their notices, and wait no more.
    pub(crate) fn acknowledge<R: Wait>(
        &mut self,
        rt: &R,
        mut committed: Committed<F>,
    ) -> Result<u64, AckFault<F>>
        ensures acknowledged { IfOk result (λ number. IsInFlight F.front.start self.old.engine.core committed
            × (self.new.engine.core ≡ acknowledged self.old.engine.core self.new.engine.core.seen)
            × (number ≡ self.new.engine.core.number)) }
        ensures reported { OnOk result (self.new.engine.told ≡ self.old.engine.told
            ++ trace.Acknowledged self.new.engine.core.number ∷ []) }
        ensures told { OnOk result (self.new.callers ≡ drop self.old.engine.core.flight self.old.callers) }
        ensures stranger { IfErr result (λ fault. IsStranger F.front.start self.old.engine.core committed fault × (self.new ≡ self.old)) }
    {
        if !self.engine.awaits(&committed) {
            return Err(AckFault::Stranger(committed));
        }
        tell_all(rt, &mut self.callers, &mut committed);
        self.engine.acknowledge(committed)
    }

    // Records that the disk has failed: no caller gets a notice any more, and the calls of waiting clients return `Unsure`.
    pub(crate) fn fail(&mut self)
        ensures core { self.new.engine.core ≡ record self.old.engine.core {
          stopped = Some (stopped_by self.old.engine.core.stopped DiskFailed);
        } }
        ensures reported { self.new.engine.told ≡ self.old.engine.told ++ trace.DiskFailed ∷ [] }
        ensures callers { self.new.callers ≡ replicate (length self.old.callers) None }
        ensures phase { self.new.phase ≡ self.old.phase }
    {
        self.engine.fail();
        let_go(&mut self.callers);
    }

    // Answers all waiting callers that memory ran out. Returns whether the run is to end; if so, nothing more is written.
    pub(crate) fn give_up<R: Wait>(&mut self, rt: &R) -> bool
        ensures core { self.new.engine.core ≡ given_up self.old.phase self.old.engine.core }
        ensures callers { self.new.callers ≡ replicate (length self.old.callers) None }
        ensures reported { self.new.engine.told ≡ self.old.engine.told }
        ensures phase { self.new.phase ≡ self.old.phase }
        ensures ends { result ≡ ends self.old.phase }
    {
        tell_unwritten(rt, &self.callers);
        let_go(&mut self.callers);
        if self.phase == Phase::Running {
            return false;
        }
        self.engine.stop(StopCause::OutOfMemory);
        true
    }

    // Has the ports end once they are settled, after each has been woken.
    pub(crate) fn end_ports(&mut self)
        ensures core { (self.new.engine.core ≡ self.old.engine.core) × (self.new.callers ≡ self.old.callers) }
        ensures phase { self.new.phase ≡ phase.Ending }
        ensures woken { AreWoken self.old.wakes self.new.wakes }
    {
        self.phase = Phase::Ending;
        wake_all(&mut self.wakes);
    }

    // Has the core accept no more commands; the waiting ones are still written.
    pub(crate) fn close(&mut self)
        ensures core { self.new.engine.core ≡ record self.old.engine.core {
          stopped = Some (stopped_by self.old.engine.core.stopped Closed);
        } }
        ensures callers { self.new.callers ≡ self.old.callers }
        ensures phase { self.new.phase ≡ phase.Closed }
    {
        self.engine.stop(StopCause::Closed);
        self.phase = Phase::Closed;
    }

    // Returns the phase of the run.
    pub(crate) fn phase(&self) -> Phase
        ensures { result ≡ self.now.phase }
    {
        self.phase
    }

    // Returns whether nothing waits to be written but more may come: the flusher sleeps.
    pub(crate) fn is_idle(&self) -> bool
        ensures { result ≡ is_idle self.now }
    {
        self.phase != Phase::Closed && self.callers.is_empty()
    }

    // Returns whether nothing waits to be written and no more comes.
    pub(crate) fn is_over(&self) -> bool
        ensures { result ≡ is_over self.now }
    {
        self.phase == Phase::Closed && self.callers.is_empty()
    }

    // Returns the number of times that a port was woken, or 0 if there is no such port.
    pub(crate) fn wakes(&self, port: PortId) -> u64
        ensures { result ≡ slice_index self.now.wakes (port - 1) }
    {
        match self.wakes.get(port.place()) {
            Some(wakes) => *wakes,
            None => 0,
        }
    }
}

// Wakes a port, while ports are served.
fn wake(phase: Phase, wakes: &mut [u64], port: PortId)
    ensures { wakes.new ≡ woken phase port wakes.old }
{
    if phase != Phase::Running {
        return;
    }
    let place = port.place();
    if place < wakes.len() {
        wakes[place] = wakes[place].wrapping_add(1);
    }
}

// Wakes each port.
fn wake_all(wakes: &mut [u64])
    ensures { AreWoken wakes.old wakes.new }
{
    for count in wakes.iter_mut() {
        *count = count.wrapping_add(1);
    }
}

// Answers all waiting callers that memory ran out.
fn tell_unwritten<F: Name, R: Wait>(rt: &R, callers: &VecDeque<Option<Caller<F>>>) {
    for caller in callers.iter().flatten() {
        // A caller that is gone needs no answer.
        let _ = caller.answers.send(rt, CallerAnswer::Unwritten);
    }
}

// Drops the waiting callers, and keeps their places.
fn let_go<F: Name>(callers: &mut VecDeque<Option<Caller<F>>>)
    ensures none { map asked callers.new.items ≡ replicate (length callers.old.items) None }
    ensures room { deque_capacity callers.new ≡ deque_capacity callers.old }
{
    let places = callers.len();
    callers.clear();
    for _ in 0..places {
        let Ok(()) = callers.push_back(None) else {
            unreachable!()
        };
    }
}

// Sends the notices to the callers that wait for the first commands, which are those of a batch.
fn tell_all<F: Name, R: Wait>(
    rt: &R,
    callers: &mut VecDeque<Option<Caller<F>>>,
    committed: &mut Committed<F>,
)
    requires { AreCallersOf committed.old.commands (take (length committed.old.commands) (map asked callers.old.items)) }
    ensures same { committed.new ≡ committed.old }
    ensures left { map asked callers.new.items ≡ drop (length committed.old.commands) (map asked callers.old.items) }
    ensures room { deque_capacity callers.new ≡ deque_capacity callers.old }
{
    for place in 0..committed.len() {
        if let Some(Some(caller)) = callers.pop_front() {
            tell(rt, caller, committed, place);
        }
    }
}

// Sends the notice to a caller that waits for this command of a batch.
fn tell<F: Name, R: Wait>(rt: &R, caller: Caller<F>, committed: &mut Committed<F>, place: usize)
    requires { slice_get committed.old.commands place ≡ Some (command_of caller.change) }
    ensures { committed.new ≡ committed.old }
{
    let Caller {
        change,
        mut pass,
        answers,
    } = caller;
    committed.show(&mut pass);
    let number = committed.first() + place as u64;
    let notice = Notice::new(number, change, pass);
    // A caller that is gone needs no answer.
    let _ = answers.send(rt, CallerAnswer::Durable(notice));
}
