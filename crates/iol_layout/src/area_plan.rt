//! What is written into an area: closed slots, a header, and the records of a state.

ghost use Rattle.std.specs.Prelude.{◌≡◌, ◌≤◌, ◌<◌, [], ◌∷◌, length, map, IfOk, OnOk};
ghost use Rattle.iol_record.specs.Record.{SpellsState};
ghost use Rattle.iol_layout.specs.AreaPlans.{AreRecords, IsAreaPlan, write_of};
ghost use Rattle.iol_layout.specs.AreaWrites.{slot_write, slot_writes, header_write, IsRow};
ghost use Rattle.iol_layout.specs.Layout.{total};
ghost use Rattle.iol_disk.specs.Calls.{Makes};

use crate::area::Area;
use crate::header::Header;
use crate::layout::Layout;
use crate::records::{RecordSector, record_sectors};
use iol_disk::{DiskFault, SectorDisk};
use iol_types::MasterState;
use std::alloc::{AllocError, Global};

/// What is to be written into an area, except its gate: the first area when a disk is formatted, or the other area at a
/// checkpoint.
#[derive(Drop)]
pub struct AreaPlan {
    pub layout: Layout,
    pub area: Area,
    pub header: Header,
    pub records: Vec<RecordSector>,
}

impl AreaPlan {
    /// Makes the plan of an area with this header and state.
    ///
    /// # Errors
    /// Fails if out of memory.
    pub fn of(
        alloc: Global,
        layout: Layout,
        area: Area,
        header: Header,
        state: &MasterState,
    ) -> Result<AreaPlan, AllocError>
        requires count { length state.now ≡ layout.ports }
        // Version 1 cannot encode labels.
        requires spelled { SpellsState layout.version state.now }
        ensures plan { IfOk result (IsAreaPlan layout area header state.now) }
        ensures records { OnOk result (AreRecords layout area state.now) }
    {
        let records = record_sectors(alloc, layout, area, state)?;
        Ok(AreaPlan {
            layout,
            area,
            header,
            records,
        })
    }

    /// Closes the gate of a slot; slots are counted from 0.
    ///
    /// # Errors
    /// `Write` if the disk fails.
    pub fn close_slot<D: SectorDisk>(&self, disk: &mut D, slot: usize) -> Result<(), DiskFault>
        requires fits { total self.now.layout ≤ (D.disk disk.old).sectors }
        requires there { slot < self.now.layout.slots }
        ensures { Makes (slot_write self.now.layout self.now.area slot ∷ []) (D.disk disk.old) (D.disk disk.new) result }
    {
        self.layout.slot(self.area, slot, 1).close_gate(disk)
    }

    /// Writes the header.
    ///
    /// # Errors
    /// `Write` if the disk fails.
    pub fn write_header<D: SectorDisk>(&self, disk: &mut D) -> Result<(), DiskFault>
        requires { total self.now.layout ≤ (D.disk disk.old).sectors }
        ensures { Makes (header_write self.now.layout self.now.area self.now.header.epoch self.now.header.base ∷ []) (D.disk disk.old)
            (D.disk disk.new) result }
    {
        let octets = Header::octets(self.layout.version(), self.header.epoch, self.header.base);
        disk.write(self.layout.header(self.area), &octets)
    }

    /// Closes the gates of all slots, one after another.
    ///
    /// # Errors
    /// `Write` at the first write that fails.
    pub fn close_slots<D: SectorDisk>(&self, disk: &mut D) -> Result<(), DiskFault>
        requires { total self.now.layout ≤ (D.disk disk.old).sectors }
        ensures { Makes (slot_writes self.now.layout self.now.area) (D.disk disk.old) (D.disk disk.new) result }
    {
        for slot in 0..self.layout.slots() {
            self.close_slot(disk, slot)?;
        }
        Ok(())
    }

    /// Writes the records, sector by sector.
    ///
    /// # Errors
    /// `Write` at the first write that fails.
    pub fn write_records<D: SectorDisk>(&self, disk: &mut D) -> Result<(), DiskFault>
        requires { IsRow 0 (D.disk disk.old).sectors (map write_of self.now.records.items) }
        ensures { Makes (map write_of self.now.records.items) (D.disk disk.old) (D.disk disk.new) result }
    {
        for record in &self.records {
            record.write(disk)?;
        }
        Ok(())
    }
}
