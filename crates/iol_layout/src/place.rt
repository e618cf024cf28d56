//! Where a journal writes next.

use crate::area::Area;
use crate::idle::Idle;
use crate::layout::Layout;
use iol_disk::Slot;

/// Where a journal writes next.
#[derive(Clone, Copy)]
pub struct Place {
    pub layout: Layout,
    pub area: Area,
    pub epoch: u64,
    pub used: usize,
    pub idle: Idle,
}

impl Place {
    ghost use Rattle.std.specs.Prelude.{◌≡◌, ◌≤◌, ◌+◌, ◌-◌, ◌*◌, if◌then◌else◌};
    ghost use Rattle.iol_layout.specs.Geometry.{IsGeometry};
    ghost use Rattle.iol_layout.specs.Layout.{geometry_for, is_renewed, renewed, slot_at, body_at};
    ghost use Rattle.iol_disk.specs.declared.slot.TheConstants.{BODY_SECTORS};

    /// The number of slots of the area, 1 to 256.
    pub fn slots(&self) -> usize
        ensures value { result ≡ self.now.layout.slots }
        ensures bound { result ≤ 256 }
    {
        self.layout.slots()
    }

    /// Returns the layout of the same geometry in the version that is written.
    pub fn renewed_layout(&self) -> Layout
        requires { IsGeometry (geometry_for self.now.layout) }
        ensures { result ≡ renewed self.now.layout }
    {
        self.layout.renewed()
    }

    /// The number of slots that a batch may take: the unused ones, or none if the layout is an older one.
    pub fn free_slots(&self) -> usize
        requires { self.now.used ≤ self.now.layout.slots }
        ensures free { result ≡ (if is_renewed self.now.layout then self.now.layout.slots - self.now.used else 0) }
        ensures bound { result ≤ 256 }
    {
        if self.layout.is_renewed() {
            self.layout.slots() - self.used
        } else {
            0
        }
    }

    /// The number of sectors of a port's record.
    pub fn port_sectors(&self) -> usize
        ensures value { result ≡ self.now.layout.port_sectors }
        ensures bound { result ≤ 17 }
    {
        self.layout.port_sectors()
    }

    /// Returns `span` slots, from the first unused one on.
    pub fn slot(&self, span: usize) -> Slot
        requires { self.now.used + span ≤ self.now.layout.slots }
        ensures gate { result.gate ≡ slot_at self.now.layout self.now.area self.now.used }
        ensures body { result.body ≡ body_at self.now.layout self.now.area self.now.used 0 }
        ensures span { result.span ≡ span }
        ensures sectors { result.sectors ≡ BODY_SECTORS * span }
    {
        self.layout.slot(self.area, self.used, span)
    }
}
