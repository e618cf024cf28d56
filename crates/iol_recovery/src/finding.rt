//! Recovery of the journal on a disk.

ghost use Rattle.std.specs.Prelude.{◌≡◌, Err, IfOk, OnOk};
ghost use Rattle.iol_disk.specs.Content.{EachImage, IsImage};
ghost use Rattle.iol_disk.specs.Moments.{LeavesOnly};
ghost use Rattle.iol_layout.specs.Standings.{standing_at, IsResting};
ghost use Rattle.iol_layout.specs.Meaning.{standing_in};
ghost use Rattle.iol_disk.specs.Disk.{Shows};
ghost use Rattle.iol_recovery.specs.Reading.{Finds};
ghost use Rattle.iol_recovery.specs.Finding.{HasChosen, MakesRecovery, idle_in};

use crate::cause::RecoverCause;
use crate::opening::{find_areas, find_geometry, layout_used};
use crate::replay::replay_slots;
use crate::snapshot::read_ports;
use iol_disk::SectorDisk;
use iol_layout::{Idle, Place};
use iol_types::MasterState;
use std::alloc::Global;

/// What a recovery finds on a disk.
#[derive(Drop)]
pub struct Found {
    pub place: Place,
    pub number: u64,
    pub state: MasterState,
    pub copy: MasterState,
}

/// Syncs the disk, and reads the journal in the order of the layout.
///
/// # Errors
/// The first cause in the order of reading (docs/FORMATS.md, "Recovery").
pub fn find<D: SectorDisk>(alloc: Global, disk: &mut D) -> Result<Found, RecoverCause>
    ensures makes { MakesRecovery (D.disk disk.old) (D.disk disk.new) result }
    ensures memory { result ≡ Err RecoverCause.Memory → Shows (D.disk disk.old) (HasChosen (D.disk disk.old).sectors) }
    ensures finds { Finds (λ found. standing_at found.place found.number found.state) (D.disk disk.old)
        (standing_in (D.disk disk.old).sectors) result }
    ensures idle { IfOk result (λ found.
        Shows (D.disk disk.old) (λ image. found.place.idle ≡ idle_in (standing_at found.place found.number found.state) image)) }
    // After the sync, what was read is the only image.
    ensures settled { OnOk result
        (Shows (D.disk disk.old) (λ read. EachImage (D.disk disk.new).content (λ image. image ≡ read))) }
    ensures any_moment { LeavesOnly (D.disk disk.old) (D.disk disk.new) (IsImage (D.disk disk.old).content) }
    ensures resting { IfOk result (λ found. IsResting (D.disk disk.new) (standing_at found.place found.number found.state)) }
    ensures copy { IfOk result (λ found. found.copy ≡ found.state) }
{
    disk.sync()?;
    let geometry = find_geometry(disk)?;
    let areas = find_areas(disk, geometry.layout())?;
    let layout = layout_used(geometry, areas.in_use);
    let mut state = read_ports(alloc, disk, layout, areas.in_use.area)?;
    let end = replay_slots(
        alloc,
        disk,
        layout,
        areas.in_use.area,
        areas.in_use.header,
        &mut state,
    )?;
    let idle = if areas.other.epoch < areas.in_use.header.epoch {
        Idle::Older
    } else {
        Idle::Closed
    };
    let copy = state.copy()?;
    Ok(Found {
        place: Place {
            layout,
            area: areas.in_use.area,
            epoch: areas.in_use.header.epoch,
            used: end.used,
            idle,
        },
        number: end.number,
        state,
        copy,
    })
}
