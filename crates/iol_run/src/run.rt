//! A run, step by step.

ghost use Rattle.std.specs.Prelude.{◌≡◌, ◌<◌, ◌≤◌, ◌+◌, ◌++◌, [], map, length, vec_len, vec_capacity, IfOk, IfErr, OnErr};
ghost use Rattle.iol_core.specs.Events.{stamped};
ghost use Rattle.iol_run.specs.CoreOnDisk.{clock_of};
ghost use Rattle.iol_engine.specs.Events.{told_of};
ghost use Rattle.iol_run.specs.Stamps.{stamp_of};
ghost use Rattle.iol_flush.specs.Stages.{disk_of};
ghost use Rattle.iol_run.specs.Runs.{Did, IsTold, KeepsRun};
ghost use Rattle.iol_run.specs.Schedules.{IsFresh};

use crate::engine_on_disk::EngineOnDisk;
use crate::moment::Moment;
use crate::schedule::{Ended, Trace};
use crate::step::{Step, Stepped, make};
use crate::turn::Turned;
use iol_disk::SectorDisk;
use iol_engine::{Event, Exchanged};
use iol_front::{Front, Name};
use iol_journal::Journal;
use iol_link::DeviceLink;
use iol_types::MasterState;
use std::alloc::{AllocError, Global};
use std::marker::Model;

/// An event, and the moment at which it happened.
#[derive(Drop)]
pub struct Stamped {
    pub event: Event,
    pub moment: Moment,
}

// A run keeps all of its events, so each of them must be small.
const _: () = prove!(size_of::<Stamped>() <= 32);

/// A run between its steps. A contract sees the record `RunView` of `specs/Runs.antt`.
pub struct Run<D: SectorDisk, L: DeviceLink, F: Name> {
    master: EngineOnDisk<D, F>,
    // The link of each port, port 1 first.
    links: Vec<L>,
    events: Vec<Stamped>,
    // For each disk call of the flusher, the number of events before the step that made it. Contracts do not see these numbers.
    calls: Vec<usize>,
    // A buffer for the next exchange, if there is one.
    spare: Option<Box<Exchanged>>,
    begun: Moment,
}

impl<D: SectorDisk, L: DeviceLink, F: Name> Model for Run<D, L, F> {
    ghost use Rattle.std.specs.Prelude.{◌≡◌, map};
    ghost use Rattle.iol_run.specs.EngineOnDisk.{ports_with};
    ghost use Rattle.iol_run.specs.Runs.{RunView, IsTold};
    ghost use Rattle.iol_run.specs.Stamps.{stamp_of};

    ghost Value = { RunView D L };

    ghost view = { λ r. record {
      master = r.master.master;
      ports = ports_with r.master r.links.items;
      events = map stamp_of r.events.items;
      begun = r.begun;
    } };

    ghost invariant = { λ r. IsTold F.front.start r.master.master (map stamp_of r.events.items)
        × (r.master.connections ≡ map L.number r.links.items) };
}

// Adds an event with its moment, if there is an event. The list must have spare capacity.
fn note<D: SectorDisk, F: Name>(
    events: &mut Vec<Stamped>,
    master: &EngineOnDisk<D, F>,
    event: Option<Event>,
)
    requires { vec_len events.old < vec_capacity events.old }
    ensures events { map stamp_of events.new.items ≡ map stamp_of events.old.items
        ++ stamped (clock_of D.disk master.now.master) (told_of event) }
    ensures room { (vec_len events.new ≤ vec_len events.old + 1) × (vec_capacity events.new ≡ vec_capacity events.old) }
{
    if let Some(event) = event {
        let moment = Moment::of(master);
        events.push_reserved(Stamped { event, moment });
    }
}

// Adds the number of events before a step, if the step made a disk call. The list must have spare capacity.
fn note_call(calls: &mut Vec<usize>, is_made: bool, events: usize)
    requires { vec_len calls.old < vec_capacity calls.old }
{
    if is_made {
        calls.push_reserved(events);
    }
}

// Returns the spare buffer for an exchange, or allocates one if there is none.
fn room_in(
    spare: &mut Option<Box<Exchanged>>,
    alloc: Global,
) -> Result<Box<Exchanged>, AllocError> {
    match spare.take() {
        Some(room) => Ok(room),
        None => Exchanged::room(alloc),
    }
}

impl<D: SectorDisk, L: DeviceLink + Drop, F: Name> Run<D, L, F> {
    /// Begins a run over a journal that was just recovered, with its state, a front of that number and state, and a link
    /// for each port.
    ///
    /// # Errors
    /// Out of memory. The disk is returned.
    pub fn begin(
        alloc: Global,
        front: Front,
        journal: Journal<D>,
        state: MasterState,
        links: Vec<L>,
    ) -> Result<Run<D, L, F>, D>
        requires name { front ≡ F.front }
        requires number { front.start.number ≡ journal.history.first }
        requires state { (front.start.state ≡ journal.history.start) × (state ≡ journal.history.start) }
        requires list { journal.history.commands ≡ [] }
        requires ports { vec_len links ≡ length state }
        ensures fresh { IfOk result (IsFresh D.disk journal links.items) }
        ensures disk { IfErr result (λ disk. disk ≡ journal.disk) }
    {
        let master = EngineOnDisk::new(alloc, front, journal, state, links.as_slice())?;
        let begun = Moment::of(&master);
        Ok(Run {
            master,
            links,
            events: Vec::new(alloc),
            calls: Vec::new(alloc),
            spare: None,
            begun,
        })
    }
}

impl<D: SectorDisk, L: DeviceLink, F: Name> Run<D, L, F> {
    /// Ends a run, and returns its trace. Permits that the ports hold are returned to the core.
    pub fn end(self, ended: Ended, waits: u64) -> Trace<D, L>
        ensures told { (map stamp_of result.events.items ≡ self.events) × (result.begun ≡ self.begun) }
        ensures state { result.state ≡ self.master.core.durable }
        ensures links { result.links.items ≡ self.ports.links }
        ensures disk { result.disk ≡ disk_of self.master.flusher.stage }
        ensures counted { (result.ended ≡ ended) × (result.waits ≡ waits) }
        // The events say what happened.
        ensures happened { IsTold F.front.start self.master self.events }
    {
        let Run {
            master,
            links,
            events,
            calls,
            spare: _,
            begun,
        } = self;
        let (disk, state) = master.end();
        Trace {
            events,
            calls,
            begun,
            waits,
            ended,
            state,
            links,
            disk,
        }
    }

    /// Makes a step. Its events are stamped with the disk's clock after the step.
    ///
    /// # Errors
    /// Out of memory for the events of the step, the record of its disk call, or the buffer of an exchange. The step is not made, and
    /// nothing changes.
    pub fn step(&mut self, step: &Step) -> Result<Turned, AllocError>
        ensures did { IfOk result (λ turned. Did D.disk L.number L.steps step.now turned self.old self.new) }
        ensures same { OnErr result (self.new ≡ self.old) }
        // The claim about power stops still holds.
        ensures kept { KeepsRun D.disk F.front.start self.old self.new }
    {
        self.events.reserve(2)?;
        self.calls.reserve(1)?;
        let room = room_in(&mut self.spare, *self.events.allocator())?;
        let (events, calls) = (self.events.len(), self.master.calls());
        self.master.is_in_step();
        let Stepped {
            turned,
            first,
            second,
            room,
        } = make(&mut self.master, &mut self.links, step, room);
        self.spare = room;
        note_call(&mut self.calls, self.master.calls() != calls, events);
        note(&mut self.events, &self.master, first);
        note(&mut self.events, &self.master, second);
        Ok(turned)
    }
}
