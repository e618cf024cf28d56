//! An engine is the core of a master with the machines of its ports. It has no disk and no links.

ghost use Rattle.std.specs.Prelude.{◌≡◌, ◌≤◌, ◌+◌, ◌-◌, ◌++◌, ◌∷◌, ◌↔◌, [], true, length, map, replicate, slice_get, slice_set, None};
ghost use Rattle.std.specs.Prelude.{IfOk, IfErr, IfSome, IsSome, IsTrue, OnErr, OnOk, Some};
ghost use mathlib.Core.List.{IsPrefix};
ghost use Rattle.iol_types.specs.Command.{command_of};
ghost use Rattle.iol_types.specs.State.{legal};
ghost use Rattle.iol_record.specs.declared.encode.TheConstants.{LARGEST_COMMAND_RECORD};
ghost use Rattle.iol_core.specs.Batches.{IsInFlight, IsStranger, IsTake, acknowledged, has_batch};
ghost use Rattle.iol_core.specs.Core.{IsCore, live_number};
ghost use Rattle.iol_core.specs.declared.core_value.TheConstants.{QUEUE_COMMANDS};
ghost use Rattle.iol_journal.specs.Body.{values};
ghost use Rattle.iol_journal.specs.Numbers.{LAST_NUMBER};
ghost use Rattle.iol_core.specs.Downloads.{durable_set};
ghost use Rattle.iol_core.specs.Ports.{view_at};
ghost use Rattle.iol_core.specs.Standing.{Stands};
ghost use Rattle.iol_core.specs.Submit.{IsSubmit, stopped_by};
ghost use Rattle.iol_core.specs.declared.stop.StopCause.TheVariants as cause;
ghost use Rattle.iol_core.specs.Events as trace;
ghost use Rattle.iol_engine.specs.Answered.{FitsWant};
ghost use Rattle.iol_engine.specs.Engine.{IsEngine, MakesStep};
ghost use Rattle.iol_engine.specs.HandedSteps.{NeverFits, StepsHanded, settled_in, status_in, want_at};
ghost use Rattle.iol_engine.specs.Events.{event_of, told_of};
ghost use Rattle.iol_engine.specs.Ports.{new_machines};
ghost use Rattle.iol_engine.specs.Submitted.{submit_told};
ghost use Rattle.iol_engine.specs.Waits.{waits_at};

use crate::event::{Event, Exchanged};
use crate::handed::Handed;
use crate::port_machines::{end_machines, machines_of};
use crate::port_step::{PortTold, step_port};
use crate::trail::Trail;
use iol_core::{AckFault, Core, StopCause, SubmitFault, Ticket, TicketState, View};
use iol_front::{Committed, Name, Pass};
use iol_journal::Batch;
use iol_link::DeviceLink;
use iol_port::{PortMachine, PortStatus, Want};
use iol_types::{Change, MasterState, PortId};
use std::alloc::{AllocError, Global};
use std::marker::Model;
use std::mem::ManuallyDrop;

/// The core of a master and the machines of its ports, port 1 first. Its type's invariant says that at each moment its reports are a
/// run of each machine, so also each time that a lock around it is taken. A contract sees the record `EngineView` of
/// `specs/Engine.antt`.
#[derive(Drop)]
pub struct Engine<F: Name> {
    core: Core<F>,
    // Machines are not dropped. A machine may hold a permit, which only a call of its core can spend. An engine that is dropped drops
    // the core too, so no permit remains, and the machines' memory is freed when the process ends.
    machines: ManuallyDrop<Vec<PortMachine>>,
    // The number of the connection of each port's link.
    connections: Vec<u64>,
    trail: Trail,
}

impl<F: Name> Model for Engine<F> {
    ghost use Rattle.core.specs.Mem.{manually_drop_value};
    ghost use Rattle.iol_engine.specs.Engine.{EngineView, IsEngine};

    ghost Value = { EngineView };

    ghost view = { λ e. record {
      core = e.core;
      machines = (manually_drop_value e.machines).items;
      connections = e.connections.items;
      told = e.trail.told;
    } };

    ghost invariant = { λ e. IsEngine F.front.start (record {
      core = e.core;
      machines = (manually_drop_value e.machines).items;
      connections = e.connections.items;
      told = e.trail.told;
    }) };
}

impl<F: Name> Engine<F> {
    /// Makes an engine from the state that a front starts with, a pass of it that has seen nothing, and a link for each port.
    ///
    /// # Errors
    /// Out of memory.
    pub fn new<L: DeviceLink>(
        alloc: Global,
        state: MasterState,
        pass: Pass<F>,
        links: &[L],
    ) -> Result<Engine<F>, AllocError>
        requires state { state ≡ F.front.start.state }
        requires pass { pass ≡ [] }
        requires ports { length links.now ≡ length state }
        // No command waits, and no permit is given.
        ensures core { IfOk result (λ engine. engine.core ≡ record {
          durable = state;
          number = F.front.start.number;
          queue = [];
          flight = 0;
          permits = replicate (length state) None;
          stopped = None;
          seen = [];
        }) }
        ensures ports { IfOk result (λ engine. (engine.machines ≡ new_machines (length state))
            × (engine.connections ≡ map L.number links.now)) }
        ensures told { IfOk result (λ engine. engine.told ≡ []) }
    {
        let ports = state.ports();
        let connections = connections_of(alloc, links)?;
        let core = Core::new(alloc, state, pass)?;
        let machines = machines_of(alloc, ports)?;
        Ok(Engine {
            core,
            machines: unsafe { ManuallyDrop::new_unchecked(machines) },
            connections,
            trail: Trail::new(),
        })
    }

    /// Does nothing. Its contract is the invariant: what the engine has reported is what its core and its machines did.
    pub fn is_sound(&self)
        ensures { IsEngine F.front.start self.now }
    {
        let _ = &self.core;
    }

    /// Ends an engine, and returns the durable state. Each permit that a port holds is returned to the core.
    pub fn end(self) -> MasterState
        ensures { result ≡ self.core.durable }
    {
        let Engine {
            core,
            machines,
            connections: _,
            trail: _,
        } = self;
        end_machines(ManuallyDrop::into_inner(machines), core).end()
    }

    /// Returns the number of the last waiting command, or of the last durable one if none waits.
    pub fn live_number(&self) -> u64
        ensures number { result ≡ live_number self.now.core }
        ensures core { IsCore F.front.start self.now.core }
    {
        self.core.live_number()
    }

    /// Returns the durable state.
    pub fn durable(&self) -> &MasterState
        ensures { result.now ≡ self.now.core.durable }
    {
        self.core.durable()
    }

    /// Returns the number of the last durable command.
    pub fn number(&self) -> u64
        ensures { result ≡ self.now.core.number }
    {
        self.core.number()
    }

    /// Takes a client's change, as `Core::submit` does, and reports the answer.
    ///
    /// # Errors
    /// The same as of `Core::submit`.
    pub fn submit(&mut self, change: Change) -> Result<Ticket, SubmitFault>
        ensures submit { IsSubmit self.old.core (command_of change) self.new.core result }
        ensures told { self.new.told ≡ self.old.told ++ submit_told (command_of change) result }
        ensures ports { (self.new.machines ≡ self.old.machines) × (self.new.connections ≡ self.old.connections) }
    {
        let answer = self.core.submit(change);
        let event = Some(Event::of_answer(&change, &answer));
        self.trail = self.trail.followed_by(&event, &None);
        answer
    }

    /// Returns the durable state of a port, as `Core::view` does.
    ///
    /// # Errors
    /// The same as of `Core::view`.
    pub fn view(&mut self, port: PortId, pass: &mut Pass<F>) -> Result<Option<View>, AllocError>
        ensures view { IfOk result (λ view. view ≡ view_at self.old.core port) }
        ensures memory { OnErr result (IsSome (durable_set self.old.core port)) }
        ensures others { self.new ≡ record self.old { core = record self.old.core { seen = self.new.core.seen } } }
        ensures kept { IsPrefix self.old.core.seen self.new.core.seen × IsPrefix pass.old pass.new }
        ensures met { OnOk result (IsPrefix self.new.core.seen pass.new) }
        ensures stands { Stands F.front.start self.new.core.seen self.new.core.number self.new.core.durable }
        ensures unchanged { OnErr result ((self.new ≡ self.old) × (pass.new ≡ pass.old)) }
    {
        self.core.view(port, pass)
    }

    /// Shows each durable command to the pass, as `Core::meet` does, and returns the number of the last one.
    pub fn meet(&mut self, pass: &mut Pass<F>) -> u64
        ensures number { result ≡ self.new.core.number }
        ensures others { self.new ≡ record self.old { core = record self.old.core { seen = self.new.core.seen } } }
        ensures kept { IsPrefix self.old.core.seen self.new.core.seen × IsPrefix pass.old pass.new }
        ensures met { IsPrefix self.new.core.seen pass.new }
        ensures stands { Stands F.front.start self.new.core.seen self.new.core.number self.new.core.durable }
    {
        self.core.meet(pass)
    }

    /// Takes the next batch, as `Core::take_batch` does.
    ///
    /// # Errors
    /// The same as of `Core::take_batch`.
    pub fn take_batch(&mut self, room: usize) -> Result<Option<Batch>, AllocError>
        requires { LARGEST_COMMAND_RECORD ≤ room }
        ensures take { IfOk result (λ batch. IsTake self.old.core room self.new.core batch) }
        ensures legal { IfOk result (λ batch. IfSome batch (λ b. legal self.old.core.durable (values b.commands.items) ≡ true)) }
        ensures bound { IfOk result (λ batch.
            IfSome batch (λ b. (length b.commands.items ≤ QUEUE_COMMANDS) × (b.first + length b.commands.items ≤ LAST_NUMBER + 1))) }
        ensures others { self.new ≡ record self.old { core = self.new.core } }
        ensures unchanged { OnErr result ((has_batch self.old.core ≡ true) × (self.new ≡ self.old)) }
    {
        self.core.take_batch(room)
    }

    /// Whether the core waits for this batch, as `Core::awaits` says.
    pub fn awaits(&self, committed: &Committed<F>) -> bool
        ensures { IsTrue result ↔ IsInFlight F.front.start self.now.core committed.now }
    {
        self.core.awaits(committed)
    }

    /// Takes a durable batch back, as `Core::acknowledge` does, and reports its last number.
    ///
    /// # Errors
    /// The same as of `Core::acknowledge`.
    pub fn acknowledge(&mut self, committed: Committed<F>) -> Result<u64, AckFault<F>>
        ensures acknowledged { IfOk result (λ number. IsInFlight F.front.start self.old.core committed
            × (self.new.core ≡ acknowledged self.old.core self.new.core.seen) × (number ≡ self.new.core.number)) }
        ensures told { OnOk result (self.new.told ≡ self.old.told ++ trace.Acknowledged self.new.core.number ∷ []) }
        ensures ports { (self.new.machines ≡ self.old.machines) × (self.new.connections ≡ self.old.connections) }
        ensures stranger { IfErr result (λ fault. IsStranger F.front.start self.old.core committed fault × (self.new ≡ self.old)) }
    {
        match self.core.acknowledge(committed) {
            Ok(number) => {
                let event = Some(Event::Acknowledged { number });
                self.trail = self.trail.followed_by(&event, &None);
                Ok(number)
            }
            Err(stranger) => Err(stranger),
        }
    }

    /// Stops taking commands, as `Core::stop` does. Nothing is reported.
    pub fn stop(&mut self, cause: StopCause)
        ensures { self.new ≡ record self.old { core = record self.old.core { stopped = Some (stopped_by self.old.core.stopped cause) } } }
    {
        self.core.stop(cause);
    }

    /// Stops taking commands after a failed disk call, and reports that failure.
    pub fn fail(&mut self)
        ensures core { self.new.core ≡ record self.old.core { stopped = Some (stopped_by self.old.core.stopped cause.DiskFailed) } }
        ensures told { self.new.told ≡ self.old.told ++ trace.DiskFailed ∷ [] }
        ensures ports { (self.new.machines ≡ self.old.machines) × (self.new.connections ≡ self.old.connections) }
    {
        self.core.stop(StopCause::DiskFailed);
        let event = Some(Event::DiskFailed);
        self.trail = self.trail.followed_by(&event, &None);
    }

    /// Makes one step of a port with its link, and reports it. The link is on the connection that the engine knows.
    pub fn step<L: DeviceLink>(
        &mut self,
        port: PortId,
        link: &mut L,
        room: Box<Exchanged>,
    ) -> PortTold
        requires there { port ≤ length self.old.machines }
        requires connection { slice_get self.old.connections (port - 1) ≡ Some (L.number link.old) }
        ensures steps { MakesStep L.number L.steps port self.old.core self.new.core self.old.machines self.new.machines link.old link.new
            (told_of result.called ++ told_of result.status) }
        ensures connections { self.new.connections ≡ slice_set self.old.connections (port - 1) (L.number link.new) }
        ensures told { self.new.told ≡ self.old.told ++ (told_of result.called ++ told_of result.status) }
    {
        let place = port.place();
        let told = step_port(&mut self.core, &mut self.machines[place], link, room);
        self.connections[place] = link.connection();
        self.trail = self.trail.followed_by(&told.called, &told.status);
        told
    }
}

impl<F: Name> Engine<F> {
    /// Returns what the engine wants of a port's link, or `Want::Nothing` if the port is not there.
    pub fn want(&self, port: PortId) -> Want
        ensures { result ≡ want_at self.now port }
    {
        match self.machines.get(port.place()) {
            Some(machine) => machine.want(),
            None => Want::Nothing,
        }
    }

    /// Returns the number of the connection of a port's link, if the port is there.
    pub fn connection(&self, port: PortId) -> Option<u64>
        ensures { result ≡ slice_get self.now.connections (port - 1) }
    {
        self.connections.get(port.place()).copied()
    }

    /// Whether a port is settled, or is not there.
    pub fn is_settled(&self, port: PortId) -> bool
        ensures { result ≡ settled_in (slice_get self.now.machines (port - 1)) }
    {
        match self.machines.get(port.place()) {
            Some(machine) => machine.is_settled(),
            None => true,
        }
    }

    /// Returns the status of a port, if the port is there.
    pub fn status(&self, port: PortId) -> Option<PortStatus>
        ensures { result ≡ status_in (slice_get self.now.machines (port - 1)) }
    {
        match self.machines.get(port.place()) {
            Some(machine) => Some(machine.status()),
            None => None,
        }
    }

    /// Whether a port waits for the disk: it has filed its set, and the ticket of that command is `Waiting`. Until that changes, a step of
    /// the port changes nothing.
    pub fn waits(&self, port: PortId) -> bool
        ensures { result ≡ waits_at self.now port }
    {
        match self
            .machines
            .get(port.place())
            .map(|machine| machine.awaits())
        {
            Some(Some(ticket)) => matches!(self.core.ticket(ticket), TicketState::Waiting),
            _ => false,
        }
    }

    /// Makes one step of a port with what its link answered, and reports it.
    ///
    /// # Errors
    /// The port is not there, the answer came on another connection, or it does not fit what is wanted of the link. Then nothing
    /// changes, and the buffer comes back.
    pub fn step_handed(
        &mut self,
        port: PortId,
        handed: Handed,
        room: Box<Exchanged>,
    ) -> Result<PortTold, Box<Exchanged>>
        ensures fits { IfOk result (λ _. FitsWant (want_at self.old port) handed.answer) }
        ensures steps { IfOk result (λ told. StepsHanded port handed self.old self.new (told_of told.called ++ told_of told.status)) }
        ensures refused { OnErr result (NeverFits port handed self.old) }
        ensures unchanged { OnErr result (self.new ≡ self.old) }
    {
        let place = port.place();
        if place < self.machines.len()
            && self.connections[place] == handed.number()
            && handed.fits(&self.want(port))
        {
            let mut handed = handed;
            Ok(self.step(port, &mut handed, room))
        } else {
            Err(room)
        }
    }
}

// Returns the number of the connection of each link.
fn connections_of<L: DeviceLink>(alloc: Global, links: &[L]) -> Result<Vec<u64>, AllocError>
    ensures { IfOk result (λ connections. connections.items ≡ map L.number links.now) }
{
    let mut connections = Vec::with_capacity(alloc, links.len())?;
    for link in links {
        connections.push(link.connection())?;
    }
    Ok(connections)
}
