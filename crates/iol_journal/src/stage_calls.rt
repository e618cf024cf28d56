//! The disk calls of a checkpoint, by stage.

ghost use Rattle.std.specs.Prelude.{◌≡◌, [], ◌∷◌, ℕ};
ghost use Rattle.iol_types.specs.State.{State};
ghost use Rattle.iol_journal.specs.BegunParts.{log_of, commands_owed, IsBegun};
ghost use Rattle.iol_journal.specs.Checkpoints.{target, call_at};
ghost use Rattle.iol_layout.specs.Standings.{standing_at};
ghost use Rattle.iol_disk.specs.Calls.{Makes};
ghost use Rattle.iol_journal.specs.declared.stage.CheckpointStage.TheVariants.{Carry};

use crate::begun::Begun;
use crate::calls::make;
use crate::phase::Phase;
use crate::stage::CheckpointStage;
use iol_disk::{DiskFault, SectorDisk};
use iol_layout::{Header, Place, gate};

/// Makes the next disk call of a checkpoint of a journal at this place.
///
/// # Errors
/// `Write` or `Sync` if the disk fails.
#[tactic(auto, using(iol_layout::proofs::Layouts::geometry_is))]
pub fn make_stage<D: SectorDisk>(
    disk: &mut D,
    place: &Place,
    begun: &Begun,
) -> Result<(), DiskFault>
    requires { (number : ℕ) × (state : State) × IsBegun (D.disk disk.old) (standing_at place.now number state) begun.now }
    ensures { (number : ℕ) (state : State) → IsBegun (D.disk disk.old) (standing_at place.now number state) begun.now
        → Makes (call_at (target (standing_at place.now number state) (log_of begun.now)) (commands_owed begun.now.owed.items)
        begun.now.stage ∷ []) (D.disk disk.old) (D.disk disk.new) result }
{
    let area = place.area.other();
    let layout = place.layout.renewed();
    let area_gate = gate(layout.gate(area));
    match begun.stage {
        CheckpointStage::ClearHeader => {
            let header = Header::octets(layout.version(), 0, 0);
            disk.write(layout.header(area), &header)
        }
        CheckpointStage::CloseGate => area_gate.close_gate(disk),
        CheckpointStage::CloseSlot(slot) => begun.plan.close_slot(disk, slot),
        CheckpointStage::WriteHeader => begun.plan.write_header(disk),
        CheckpointStage::WriteRecord(i) => begun.plan.records[i].write(disk),
        CheckpointStage::Carry(phase) => carry(disk, place, begun, phase),
        CheckpointStage::OpenGate => area_gate.open_gate(disk),
        CheckpointStage::SyncHeader => disk.sync(),
        CheckpointStage::SyncClosed => disk.sync(),
        CheckpointStage::SyncSlots => disk.sync(),
        CheckpointStage::SyncRecords => disk.sync(),
        CheckpointStage::SyncOpen => disk.sync(),
    }
}

// Makes a disk call of the first owed batch, in the other area.
#[tactic(auto, using(iol_layout::proofs::Layouts::geometry_is))]
fn carry<D: SectorDisk>(
    disk: &mut D,
    place: &Place,
    begun: &Begun,
    phase: Phase,
) -> Result<(), DiskFault>
    requires stage { begun.now.stage ≡ Carry phase }
    requires begun { (number : ℕ) × (state : State) × IsBegun (D.disk disk.old) (standing_at place.now number state) begun.now }
    ensures { (number : ℕ) (state : State) → IsBegun (D.disk disk.old) (standing_at place.now number state) begun.now
        → Makes (call_at (target (standing_at place.now number state) (log_of begun.now)) (commands_owed begun.now.owed.items)
        (Carry phase) ∷ []) (D.disk disk.old) (D.disk disk.new) result }
{
    let Some(first) = begun.owed.front() else {
        unreachable!()
    };
    let place = Place {
        layout: place.layout.renewed(),
        area: place.area.other(),
        used: begun.used,
        ..*place
    };
    make(disk, &place, &first.body, phase)
}
