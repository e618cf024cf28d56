//! The gate and the head of a slot, read without checking its batch.

ghost use Rattle.std.specs.Prelude.{◌≡◌, ◌<◌, ◌≤◌, IfOk};
ghost use Rattle.iol_disk.specs.Disk.{Same, FailsOnlyAs, Shows};
ghost use Rattle.iol_disk.specs.declared.fault.DiskFault.{DiskFault};
ghost use Rattle.iol_layout.specs.Layout.{slot_at, total};
ghost use Rattle.iol_recovery.specs.Survey.{head_in};

use iol_disk::{DiskFault, SectorDisk};
use iol_layout::{Area, Head, Layout, read_sector};

/// The gate and the head of a slot, read without checking its batch.
#[derive(Clone, Copy)]
pub struct SlotFront {
    /// The sector of its gate.
    pub gate: usize,
    /// The head of its body, if its gate is open.
    pub head: Option<Head>,
}

/// Reads the gate of a slot and, if it is open, the head of its body; slots are counted from 0.
///
/// # Errors
/// `Read` if the disk fails.
pub fn read_slot<D: SectorDisk>(
    disk: &mut D,
    layout: Layout,
    area: Area,
    place: usize,
) -> Result<SlotFront, DiskFault>
    requires fits { total layout ≤ (D.disk disk.old).sectors }
    requires inside { place < layout.slots }
    ensures gate { IfOk result (λ front. front.gate ≡ slot_at layout area place) }
    ensures head { IfOk result (λ front. Shows (D.disk disk.old) (λ image. front.head ≡ head_in layout image area place)) }
    ensures same { Same (D.disk disk.old) (D.disk disk.new) }
    ensures fault { FailsOnlyAs DiskFault.Read (D.disk disk.old) (D.disk disk.new) result }
{
    let slot = layout.slot(area, place, 1);
    let gate = slot.gate;
    if !slot.is_open(disk)? {
        return Ok(SlotFront { gate, head: None });
    }
    let octets = read_sector(disk, slot.body)?;
    let head = Some(Head::read(&octets));
    Ok(SlotFront { gate, head })
}
