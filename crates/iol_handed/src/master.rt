//! A master whose caller makes all calls of its disk and of its devices.

ghost use Rattle.std.specs.Prelude.{◌≡◌, ◌-◌, length, map, replicate, slice_get, IfOk, IfErr};
ghost use Rattle.iol_types.specs.Command.{command_of};
ghost use Rattle.iol_core.specs.Core.{live_number};
ghost use Rattle.iol_engine.specs.Handed.{handed_number};
ghost use Rattle.iol_engine.specs.HandedSteps.{status_in};
ghost use Rattle.iol_handed.specs.Master.{IsBegun};
ghost use Rattle.iol_handed.specs.Notes.{no_notes};
ghost use Rattle.iol_handed.specs.Submits.{Submits};

use crate::flash::Flash;
use crate::found::FoundJournal;
use crate::handed_disk::HandedDisk;
use crate::notes::{NO_NOTES, PortNotes};
use crate::opening::{Opening, OpeningWant};
use crate::reports::Reports;
use iol_core::SubmitFault;
use iol_disk::SectorDisk;
use iol_engine::{Answered, Event, Exchanged, Handed};
use iol_front::Name;
use iol_port::PortStatus;
use iol_run::EngineOnDisk;
use iol_types::{Change, MasterState, PortId};
use std::alloc::{AllocError, Global};
use std::marker::Model;

/// A master that makes no call of a disk or of a device itself: it says which call it wants, and its caller hands in the result. A
/// contract sees the record `HandedMasterView` of `specs/Master.antt`. It must be ended.
pub struct HandedMaster<W: Flash, F: Name> {
    pub(crate) alloc: Global,
    pub(crate) made: EngineOnDisk<HandedDisk<W>, F>,
    pub(crate) reports: Reports,
    // the notes of each port, port 1 first
    pub(crate) notes: Vec<PortNotes>,
    // a buffer for the next exchange, so that a step needs no memory of its own
    pub(crate) spare: Option<Box<Exchanged>>,
}

impl<W: Flash, F: Name> Model for HandedMaster<W, F> {
    ghost use Rattle.iol_handed.specs.Master.{HandedMasterView};

    ghost Value = { HandedMasterView };

    ghost view = { λ m. record { made = m.made; reports = m.reports; notes = m.notes.items } };
}

// What a master allocates when it begins, besides its engine.
#[derive(Drop)]
struct Buffers {
    links: Vec<Handed>,
    notes: Vec<PortNotes>,
    spare: Box<Exchanged>,
}

// Makes the buffers of this number of ports. Each link is on its first connection.
fn buffers_for(alloc: Global, ports: u8) -> Result<Buffers, AllocError>
    ensures links { IfOk result (λ buffers. length buffers.links.items ≡ ports) }
    ensures connections { IfOk result (λ buffers. map handed_number buffers.links.items ≡ replicate ports 0) }
    ensures notes { IfOk result (λ buffers. buffers.notes.items ≡ replicate ports no_notes) }
{
    let mut links = Vec::with_capacity(alloc, usize::from(ports))?;
    for _ in 0..ports {
        links.push(Handed::new(0, None, Answered::Nothing))?;
    }
    Ok(Buffers {
        links,
        notes: Vec::from_elem(alloc, NO_NOTES, usize::from(ports))?,
        spare: Exchanged::room(alloc)?,
    })
}

impl<W: Flash, F: Name> HandedMaster<W, F> {
    /// Begins a master with what was found on a disk.
    ///
    /// # Errors
    /// Out of memory; returns the opening, which is to be asked again.
    pub fn begin(alloc: Global, found: FoundJournal<W>) -> Result<HandedMaster<W, F>, Opening<W>>
        requires name { found.front ≡ F.front }
        ensures begun { IfOk result (IsBegun found) }
        ensures refused { IfErr result (λ opening. (opening.sectors ≡ found.journal.disk.sectors) × (opening.want ≡ OpeningWant.Nothing)) }
    {
        let FoundJournal {
            front,
            journal,
            state,
        } = found;
        let sectors = journal.disk_ref().sectors();
        let Ok(buffers) = buffers_for(alloc, state.ports()) else {
            return Err(Opening::of_disk(alloc, sectors, journal.disk()));
        };
        let Buffers {
            links,
            notes,
            spare,
        } = buffers;
        match EngineOnDisk::new(alloc, front, journal, state, links.as_slice()) {
            Ok(made) => Ok(HandedMaster {
                alloc,
                reports: Reports::UpTo(made.disk_ref().calls()),
                made,
                notes,
                spare: Some(spare),
            }),
            Err(disk) => Err(Opening::of_disk(alloc, sectors, disk)),
        }
    }

    /// Ends a master. Each permit that a port holds is returned, and a call that was not reported as made counts for nothing.
    pub fn end(self) {
        let HandedMaster {
            alloc: _,
            made,
            reports: _,
            notes: _,
            spare: _,
        } = self;
        let _ended = made.end();
    }

    /// Submits a client's change, and returns its number.
    ///
    /// # Errors
    /// The faults are those of `Core::submit`, in that order; nothing changes.
    pub fn submit(&mut self, change: Change) -> Result<u64, SubmitFault>
        ensures submits { Submits (command_of change) self.old self.new result }
    {
        match self.made.submit(change) {
            Event::Accepted { number, .. } => Ok(number),
            Event::Refused(fault) => Err(fault),
            _ => unreachable!(),
        }
    }

    /// Returns the number of the last durable command.
    pub fn durable_number(&self) -> u64
        ensures { result ≡ self.now.made.master.core.number }
    {
        self.made.engine().number()
    }

    /// Returns the number of the last accepted command.
    pub fn accepted_number(&self) -> u64
        ensures { result ≡ live_number self.now.made.master.core }
    {
        self.made.engine().live_number()
    }

    /// Returns the durable state.
    pub fn durable(&self) -> &MasterState
        ensures { result.now ≡ self.now.made.master.core.durable }
    {
        self.made.engine().durable()
    }

    /// Returns the status of a port, if the master has the port.
    pub fn status(&self, port: PortId) -> Option<PortStatus>
        ensures { result ≡ status_in (slice_get self.now.made.machines (port - 1)) }
    {
        self.made.engine().status(port)
    }
}
