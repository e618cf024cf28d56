//! An engine, and the flusher that writes its batches to the disk, on one thread.

ghost use Rattle.std.specs.Prelude.{◌≡◌, ◌≤◌, ◌-◌, ◌⊎◌, ◌++◌, true, [], None, Some, is_some, length, map, replicate, slice_get, slice_set};
ghost use Rattle.std.specs.Prelude.{IfOk, IfErr, OnErr};
ghost use Rattle.iol_types.specs.Command.{command_of};
ghost use Rattle.iol_core.specs.Submit.{IsSubmit};
ghost use Rattle.iol_flush.specs.declared.stage.FlushStage.TheVariants as stage;
ghost use Rattle.iol_flush.specs.Stages as flush;
ghost use Rattle.iol_flush.specs.Stages.{need_of, names_batch, names_disk, disk_of};
ghost use Rattle.iol_flush.specs.declared.need.Need.TheVariants as need;
ghost use Rattle.iol_engine.specs.Answered.{FitsWant};
ghost use Rattle.iol_engine.specs.Engine.{MakesStep};
ghost use Rattle.iol_engine.specs.Events.{event_of, told_of};
ghost use Rattle.iol_engine.specs.HandedSteps.{NeverFits, StepsHanded, want_at};
ghost use Rattle.iol_engine.specs.Ports.{new_machines};
ghost use Rattle.iol_run.specs.CoreOnDisk.{IsInStep, KeepsRunning};
ghost use Rattle.iol_run.specs.HandedOnDisk.{engine_in};
ghost use Rattle.iol_run.specs.Steps.{Submits};
ghost use Rattle.iol_run.specs.Turns.{IsTurn, Takes, CallsDisk, Publishes, Serves, failed_core, met_by};

use crate::turn::{Turn, Turned};
use iol_disk::SectorDisk;
use iol_engine::{Engine, Event, Exchanged, Handed, PortTold};
use iol_flush::{FlushEnd, FlushFault, Flusher, Need};
use iol_front::{Committed, Front, Name};
use iol_journal::Journal;
use iol_link::DeviceLink;
use iol_types::{Change, MasterState, PortId};
use std::alloc::Global;
use std::marker::Model;

/// An engine and its flusher. A contract sees the record `EngineOnDiskView` of `specs/EngineOnDisk.antt`.
pub struct EngineOnDisk<D: SectorDisk, F: Name> {
    engine: Engine<F>,
    flusher: Flusher<D, F>,
    // The batch that is published and not yet acknowledged.
    committed: Option<Committed<F>>,
    // The number of disk calls of the flusher so far. Contracts do not see it.
    calls: usize,
}

impl<D: SectorDisk, F: Name> Model for EngineOnDisk<D, F> {
    ghost use Rattle.iol_run.specs.CoreOnDisk.{IsInStep};
    ghost use Rattle.iol_run.specs.EngineOnDisk.{EngineOnDiskView};

    ghost Value = { EngineOnDiskView D };

    ghost view = { λ m. record {
      master = record { core = m.engine.core; flusher = m.flusher; committed = m.committed };
      machines = m.engine.machines;
      connections = m.engine.connections;
    } };

    ghost invariant = { λ m. IsInStep F.front.start m.engine.core m.flusher m.committed };
}

impl<D: SectorDisk, F: Name> EngineOnDisk<D, F> {
    /// Makes the engine and the flusher of a journal that was just recovered, from its state, a front of that number and state, and a
    /// link for each port.
    ///
    /// # Errors
    /// Out of memory. The disk is returned.
    pub fn new<L: DeviceLink>(
        alloc: Global,
        front: Front,
        journal: Journal<D>,
        state: MasterState,
        links: &[L],
    ) -> Result<EngineOnDisk<D, F>, D>
        requires name { front ≡ F.front }
        requires number { front.start.number ≡ journal.history.first }
        requires state { (front.start.state ≡ journal.history.start) × (state ≡ journal.history.start) }
        requires list { journal.history.commands ≡ [] }
        requires ports { length links.now ≡ length state }
        ensures flusher { IfOk result (λ made. made.master.flusher ≡ record { stage = stage.Resting journal; published = [] }) }
        ensures committed { IfOk result (λ made. made.master.committed ≡ None) }
        ensures queue { IfOk result (λ made. made.master.core.queue ≡ []) }
        ensures idle { IfOk result (λ made. (made.master.core.flight ≡ 0) × (made.master.core.stopped ≡ None)) }
        ensures permits { IfOk result (λ made. made.master.core.permits ≡ replicate (length state) None) }
        ensures core { IfOk result (λ made. (made.master.core.number ≡ journal.standing.number)
            × (made.master.core.durable ≡ journal.standing.state)) }
        ensures ports { IfOk result (λ made. (made.machines ≡ new_machines (length state)) × (made.connections ≡ map L.number links.now)) }
        ensures disk { IfErr result (λ disk. disk ≡ journal.disk) }
    {
        let mut publisher = front.publisher::<F>();
        let Ok(pass) = publisher.pass() else {
            return Err(journal.disk());
        };
        match Engine::new(alloc, state, pass, links) {
            Ok(engine) => Ok(EngineOnDisk {
                engine,
                flusher: Flusher::new(journal, publisher),
                committed: None,
                calls: 0,
            }),
            Err(_) => Err(journal.disk()),
        }
    }

    /// Ends the engine and the flusher, and returns the disk and the durable state.
    pub fn end(self) -> (D, MasterState)
        ensures disk { result.0 ≡ disk_of self.master.flusher.stage }
        ensures state { result.1 ≡ self.master.core.durable }
    {
        let EngineOnDisk {
            engine,
            flusher,
            committed: _,
            calls: _,
        } = self;
        let disk = match flusher.end() {
            FlushEnd::Closed(journal, _publisher) => journal.disk(),
            FlushEnd::Midway(disk) => disk,
            FlushEnd::Faulted(disk, _fault) => disk,
        };
        (disk, engine.end())
    }

    /// Takes a client's change, and returns the event that reports the answer.
    pub fn submit(&mut self, change: Change) -> Event
        ensures submits { Submits (command_of change) self.old.master self.new.master (told_of (Some result)) }
        ensures ports { (self.new.machines ≡ self.old.machines) × (self.new.connections ≡ self.old.connections) }
        ensures run { KeepsRunning D.disk F.front.start self.old.master self.new.master }
    {
        let answer = self.engine.submit(change);
        Event::of_answer(&change, &answer)
    }

    /// Makes one step of a port with its link, as `Engine::step` does.
    pub fn step<L: DeviceLink>(
        &mut self,
        port: PortId,
        link: &mut L,
        room: Box<Exchanged>,
    ) -> PortTold
        requires there { port ≤ length self.old.connections }
        requires connection { slice_get self.old.connections (port - 1) ≡ Some (L.number link.old) }
        ensures steps { MakesStep L.number L.steps port self.old.master.core self.new.master.core self.old.machines self.new.machines
            link.old link.new (told_of result.called ++ told_of result.status) }
        ensures connections { self.new.connections ≡ slice_set self.old.connections (port - 1) (L.number link.new) }
        ensures others { (self.new.master.flusher ≡ self.old.master.flusher) × (self.new.master.committed ≡ self.old.master.committed) }
        ensures run { KeepsRunning D.disk F.front.start self.old.master self.new.master }
    {
        // The invariant says that there is a machine for each connection.
        self.engine.is_sound();
        let told = self.engine.step(port, link, room);
        // The contract says that the waiting commands are legal, so also a Store that was just accepted.
        let _number = self.engine.live_number();
        told
    }

    /// Makes one step of a port with what its link answered, as `Engine::step_handed` does.
    ///
    /// # Errors
    /// The port is not there, the answer came on another connection, or it does not fit what is wanted of the link. Then nothing
    /// changes, and the buffer comes back.
    pub fn step_handed(
        &mut self,
        port: PortId,
        handed: Handed,
        room: Box<Exchanged>,
    ) -> Result<PortTold, Box<Exchanged>>
        ensures fits { IfOk result (λ _. FitsWant (want_at (engine_in self.old []) port) handed.answer) }
        ensures steps { IfOk result (λ told. StepsHanded port handed (engine_in self.old [])
            (engine_in self.new (told_of told.called ++ told_of told.status)) (told_of told.called ++ told_of told.status)) }
        ensures others { (self.new.master.flusher ≡ self.old.master.flusher) × (self.new.master.committed ≡ self.old.master.committed) }
        ensures run { KeepsRunning D.disk F.front.start self.old.master self.new.master }
        ensures refused { OnErr result (NeverFits port handed (engine_in self.old [])) }
        ensures unchanged { OnErr result (self.new ≡ self.old) }
    {
        let told = self.engine.step_handed(port, handed, room)?;
        // The contract says that the waiting commands are legal, so also a Store that was just accepted.
        let _number = self.engine.live_number();
        Ok(told)
    }

    /// Stops taking commands after the failure of a disk call that had counted as made. No turn may follow.
    pub fn fail(&mut self)
        ensures core { self.new.master ≡ record self.old.master { core = failed_core self.old.master.core } }
        ensures ports { (self.new.machines ≡ self.old.machines) × (self.new.connections ≡ self.old.connections) }
        ensures run { KeepsRunning D.disk F.front.start self.old.master self.new.master }
    {
        self.engine.fail();
    }

    /// Returns the engine.
    pub fn engine(&self) -> &Engine<F>
        ensures core { result.now.core ≡ self.now.master.core }
        ensures ports { (result.now.machines ≡ self.now.machines) × (result.now.connections ≡ self.now.connections) }
    {
        &self.engine
    }

    /// Returns the disk in its current state.
    pub fn disk_ref(&self) -> &D
        ensures { result.now ≡ disk_of self.now.master.flusher.stage }
    {
        self.flusher.disk_ref()
    }

    // The number of disk calls that the flusher has made, up to 2^64 - 1.
    pub(crate) fn calls(&self) -> usize {
        self.calls
    }

    // Does nothing. Its contract says that the core is in step with its flusher.
    pub(crate) fn is_in_step(&self)
        ensures { IsInStep F.front.start self.now.master.core self.now.master.flusher self.now.master.committed }
    {
        let _ = &self.engine;
    }

    /// Makes one turn of the flusher. It acknowledges the published batch, if there is one. Otherwise it does what the flusher
    /// needs next: it takes a batch of the core, makes one disk call, or publishes the durable batch. While a checkpoint is due, a
    /// batch comes before the checkpoint's next disk call.
    pub fn turn(&mut self) -> Turn
        ensures turn { IsTurn D.disk self.old.master.committed self.old.master self.new.master (told_of result.event) result.turned }
        ensures ports { (self.new.machines ≡ self.old.machines) × (self.new.connections ≡ self.old.connections) }
        ensures run { KeepsRunning D.disk F.front.start self.old.master self.new.master }
        // While a checkpoint is due, a turn always does something.
        ensures idle { result.turned ≡ Turned.Idle
            → (need_of self.old.master.flusher.stage ≡ need.Batch) ⊎ (need_of self.old.master.flusher.stage ≡ need.Stopped) }
    {
        if self.committed.is_some() {
            return self.acknowledge();
        }
        match self.flusher.needs() {
            Need::Batch => self.take(),
            Need::BatchOrDisk => self.take_or_call(),
            Need::Disk => self.call_disk(),
            Need::Publish => self.publish(),
            Need::Stopped => Turn::silent(Turned::Idle),
        }
    }

    // Acknowledges the published batch.
    fn acknowledge(&mut self) -> Turn
        requires { is_some self.old.master.committed ≡ true }
        ensures turn { IsTurn D.disk self.old.master.committed self.old.master self.new.master (told_of result.event) result.turned }
        ensures ports { (self.new.machines ≡ self.old.machines) × (self.new.connections ≡ self.old.connections) }
        ensures run { KeepsRunning D.disk F.front.start self.old.master self.new.master }
    {
        let Some(committed) = self.committed.take() else {
            unreachable!()
        };
        let Ok(number) = self.engine.acknowledge(committed) else {
            unreachable!()
        };
        Turn::telling(Event::Acknowledged { number })
    }

    // Takes a batch of the core, and gives it to the flusher.
    fn take(&mut self) -> Turn
        requires needs { (self.old.master.committed ≡ None) × (names_batch (need_of self.old.master.flusher.stage) ≡ true) }
        requires stands { flush.IsInStep F.front.start self.old.master.flusher.stage self.old.master.flusher.published }
        ensures turn { Takes self.old.master self.new.master (told_of result.event) result.turned }
        ensures ports { (self.new.machines ≡ self.old.machines) × (self.new.connections ≡ self.old.connections) }
        ensures run { KeepsRunning D.disk F.front.start self.old.master self.new.master }
    {
        match self.engine.take_batch(self.flusher.room()) {
            Ok(Some(batch)) => {
                let Ok(()) = self.flusher.give(batch) else {
                    unreachable!()
                };
                Turn::silent(Turned::Made)
            }
            Ok(None) => Turn::silent(Turned::Idle),
            Err(_) => Turn::silent(Turned::Waited),
        }
    }

    // Takes a batch of the core, or, if there is none, makes the next disk call of the checkpoint that is due.
    fn take_or_call(&mut self) -> Turn
        requires needs { (self.old.master.committed ≡ None) × (need_of self.old.master.flusher.stage ≡ need.BatchOrDisk) }
        requires stands { flush.IsInStep F.front.start self.old.master.flusher.stage self.old.master.flusher.published }
        ensures turn { Serves D.disk (met_by self.old.master) self.old.master self.new.master (told_of result.event) result.turned }
        ensures ports { (self.new.machines ≡ self.old.machines) × (self.new.connections ≡ self.old.connections) }
        ensures run { KeepsRunning D.disk F.front.start self.old.master self.new.master }
    {
        let turn = self.take();
        match turn.turned {
            Turned::Idle => self.call_disk(),
            Turned::Made | Turned::Waited => turn,
        }
    }

    // Makes the next disk call.
    fn call_disk(&mut self) -> Turn
        requires { (self.old.master.committed ≡ None) × (names_disk (need_of self.old.master.flusher.stage) ≡ true) }
        ensures turn { CallsDisk D.disk self.old.master self.new.master (told_of result.event) result.turned }
        ensures ports { (self.new.machines ≡ self.old.machines) × (self.new.connections ≡ self.old.connections) }
        ensures run { KeepsRunning D.disk F.front.start self.old.master self.new.master }
    {
        match self.flusher.disk_step() {
            Ok(()) => {
                self.calls = self.calls.saturating_add(1);
                Turn::silent(Turned::Made)
            }
            Err(FlushFault::Disk(_)) => {
                self.calls = self.calls.saturating_add(1);
                self.engine.fail();
                Turn::telling(Event::DiskFailed)
            }
            Err(FlushFault::Memory) => Turn::silent(Turned::Waited),
            Err(FlushFault::Stopped | FlushFault::Misfit) => unreachable!(),
        }
    }

    // Publishes the durable batch.
    fn publish(&mut self) -> Turn
        requires { (self.old.master.committed ≡ None) × (need_of self.old.master.flusher.stage ≡ need.Publish) }
        ensures turn { (result.turned ≡ Turned.Made) × Publishes self.old.master self.new.master (told_of result.event) }
        ensures ports { (self.new.machines ≡ self.old.machines) × (self.new.connections ≡ self.old.connections) }
        ensures run { KeepsRunning D.disk F.front.start self.old.master self.new.master }
    {
        let Ok(committed) = self.flusher.publish() else {
            unreachable!()
        };
        self.committed = Some(committed);
        Turn::silent(Turned::Made)
    }
}
