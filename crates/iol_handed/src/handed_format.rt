//! A format that hands out its calls.

ghost use Rattle.std.specs.Prelude.{◌≡◌, ◌++◌, IfOk, map, slice_get};
ghost use Rattle.std.specs.Option.{option_map};
ghost use Rattle.iol_layout.specs.AreaWrites.{port_writes, slot_writes};
ghost use Rattle.iol_disk.specs.Calls.{write};
ghost use Rattle.iol_disk.specs.Gate.{closed_gate, open_gate};
ghost use Rattle.iol_layout.specs.AreaPlans.{write_of};
ghost use Rattle.iol_journal.specs.Orders.{format_calls, gate_writes, header_writes, journal_writes, opening_calls};
ghost use Rattle.iol_handed.specs.HandedDisk.{call_of};
ghost use Rattle.iol_layout.specs.Layout.{laid_out};
ghost use Rattle.iol_layout.specs.declared.area.Area.TheVariants.{A};
ghost use Rattle.iol_record.specs.Record.{newest};
ghost use Rattle.iol_types.specs.State.{empty_state};

use crate::handed_call::HandedCall;
use iol_disk::{GATE_MARK, SECTOR_OCTETS};
use iol_layout::{Area, AreaPlan, DISK_GATE, GEOMETRY, Geometry, Header, Layout};
use iol_record::Version;
use iol_types::MasterState;
use std::alloc::{AllocError, Global};

/// A format of a flash, for a number of ports and of slots, which hands out its calls.
#[derive(Drop)]
pub struct HandedFormat {
    pub geometry: Geometry,
    plan: AreaPlan,
    ghost planned: { map write_of plan.records.items ≡ port_writes (laid_out newest geometry) A 0 (empty_state geometry.ports) },
}

impl HandedFormat {
    /// Makes the format for a geometry.
    ///
    /// # Errors
    /// `AllocError` if out of memory.
    pub fn new(alloc: Global, geometry: Geometry) -> Result<HandedFormat, AllocError>
        ensures { IfOk result (λ format. format.geometry ≡ geometry) }
    {
        let state = MasterState::new(alloc, geometry.ports())?;
        let version = Version::newest();
        let header = Header {
            epoch: 1,
            base: 0,
            version: Some(version),
        };
        let layout = Layout::of(version, geometry);
        let plan = AreaPlan::of(alloc, layout, Area::A, header, &state)?;
        Ok(HandedFormat { geometry, plan })
    }

    /// Returns the call with this number, counted from 0, if there is one.
    pub fn call(&self, number: usize) -> Option<HandedCall>
        ensures { option_map call_of result ≡ slice_get (format_calls newest self.now.geometry) number }
    {
        if number == 0 {
            Some(HandedCall::Sync)
        } else {
            self.call_of_journal(number - 1)
        }
    }

    // Returns a call after the first sync.
    fn call_of_journal(&self, number: usize) -> Option<HandedCall>
        ensures { option_map call_of result ≡ slice_get (journal_writes newest self.now.geometry ++ opening_calls) number }
    {
        if number < 3 {
            self.gate_write(number)
        } else {
            self.call_after_gates(number - 3)
        }
    }

    // Returns a call after those of the geometry and of the gates of the areas.
    fn call_after_gates(&self, number: usize) -> Option<HandedCall>
        ensures { option_map call_of result ≡ slice_get ((slot_writes (laid_out newest self.now.geometry) A
            ++ header_writes newest self.now.geometry ++ port_writes (laid_out newest self.now.geometry) A 0
            (empty_state self.now.geometry.ports)) ++ opening_calls) number }
    {
        let slots = self.layout().slots();
        if number < slots {
            self.slot_write(number)
        } else {
            self.call_after_slots(number - slots)
        }
    }

    // Returns a call after those of the slots.
    fn call_after_slots(&self, number: usize) -> Option<HandedCall>
        ensures { option_map call_of result ≡ slice_get ((header_writes newest self.now.geometry
            ++ port_writes (laid_out newest self.now.geometry) A 0 (empty_state self.now.geometry.ports)) ++ opening_calls) number }
    {
        if number < 2 {
            self.header_write(number)
        } else {
            self.call_after_headers(number - 2)
        }
    }

    // Returns a call after those of the headers.
    fn call_after_headers(&self, number: usize) -> Option<HandedCall>
        ensures { option_map call_of result ≡ slice_get (port_writes (laid_out newest self.now.geometry) A 0
            (empty_state self.now.geometry.ports) ++ opening_calls) number }
    {
        let records = self.plan.records.len();
        if number < records {
            self.record_write(number)
        } else {
            opening_call(number - records)
        }
    }

    // Returns the layout of the flash.
    fn layout(&self) -> Layout
        ensures { result ≡ laid_out newest self.now.geometry }
    {
        Layout::of(Version::newest(), self.geometry)
    }

    // Returns a write of the geometry, or of the gate of an area.
    fn gate_write(&self, number: usize) -> Option<HandedCall>
        ensures { option_map call_of result ≡ slice_get (gate_writes newest self.now.geometry) number }
    {
        match number {
            0 => Some(HandedCall::Write {
                sector: GEOMETRY,
                octets: self.geometry.octets(),
            }),
            1 => Some(open_gate(self.layout().gate(Area::A))),
            2 => Some(closed_gate(self.layout().gate(Area::B))),
            _ => None,
        }
    }

    // Returns a write that closes the gate of a slot of area A.
    fn slot_write(&self, number: usize) -> Option<HandedCall>
        ensures { option_map call_of result ≡ slice_get (slot_writes (laid_out newest self.now.geometry) A) number }
    {
        let layout = self.layout();
        if number < layout.slots() {
            Some(closed_gate(layout.slot(Area::A, number, 1).gate))
        } else {
            None
        }
    }

    // Returns a write of a header.
    fn header_write(&self, number: usize) -> Option<HandedCall>
        ensures { option_map call_of result ≡ slice_get (header_writes newest self.now.geometry) number }
    {
        match number {
            0 => Some(HandedCall::Write {
                sector: self.layout().header(Area::A),
                octets: Header::octets(Version::newest(), 1, 0),
            }),
            1 => Some(HandedCall::Write {
                sector: self.layout().header(Area::B),
                octets: Header::octets(Version::newest(), 0, 0),
            }),
            _ => None,
        }
    }

    // Returns a write of a record of a port.
    fn record_write(&self, number: usize) -> Option<HandedCall>
        ensures { option_map call_of result ≡ slice_get (port_writes (laid_out newest self.now.geometry) A 0 (empty_state
            self.now.geometry.ports)) number }
    {
        if number < self.plan.records.len() {
            let record = &self.plan.records[number];
            Some(HandedCall::Write {
                sector: record.sector,
                octets: record.octets,
            })
        } else {
            None
        }
    }
}

// Returns a call that opens the disk, once all others are made.
fn opening_call(number: usize) -> Option<HandedCall>
    ensures { option_map call_of result ≡ slice_get opening_calls number }
{
    match number {
        0 | 2 => Some(HandedCall::Sync),
        1 => Some(open_gate(DISK_GATE)),
        _ => None,
    }
}

// Returns a write that opens a gate.
#[tactic(auto, unfolding(iol_disk::specs::Gate::open_gate))]
fn open_gate(sector: usize) -> HandedCall
    ensures { call_of result ≡ write sector open_gate }
{
    let mut octets = [0; SECTOR_OCTETS];
    octets[..GATE_MARK.len()].copy_from_slice(&GATE_MARK);
    HandedCall::Write { sector, octets }
}

// Returns a write that closes a gate.
#[tactic(auto, unfolding(iol_disk::specs::Gate::closed_gate))]
fn closed_gate(sector: usize) -> HandedCall
    ensures { call_of result ≡ write sector closed_gate }
{
    HandedCall::Write {
        sector,
        octets: [0; SECTOR_OCTETS],
    }
}
