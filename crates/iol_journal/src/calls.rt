//! The disk calls of a batch, by phase.

ghost use Rattle.std.specs.Prelude.{◌≡◌, ◌≤◌, ◌+◌, ◌*◌, [], ◌∷◌, ℕ, length};
ghost use Rattle.iol_types.specs.State.{State};
ghost use Rattle.iol_journal.specs.Batches.{call_of, IsPhase};
ghost use Rattle.iol_layout.specs.Standings.{standing_at};
ghost use Rattle.iol_layout.specs.Layout.{total};
ghost use Rattle.iol_disk.specs.Calls.{Makes};
ghost use Rattle.iol_disk.specs.declared.slot.TheConstants.{BODY_SECTORS};

use crate::phase::Phase;
use iol_disk::{DiskFault, SECTOR_OCTETS, SectorDisk};
use iol_layout::{EncodedBatch, Place};

/// Makes the disk call of this phase of a batch, whose body is written from the first free slot on.
///
/// # Errors
/// `Write` or `Sync` if the disk fails.
pub fn make<D: SectorDisk>(
    disk: &mut D,
    place: &Place,
    body: &EncodedBatch,
    phase: Phase,
) -> Result<(), DiskFault>
    requires fits { total place.now.layout ≤ (D.disk disk.old).sectors }
    requires some { 1 ≤ body.now.span }
    requires room { place.now.used + body.now.span ≤ place.now.layout.slots }
    requires whole { length body.now.octets.items ≡ SECTOR_OCTETS * body.now.sectors }
    requires short { body.now.sectors ≤ BODY_SECTORS * body.now.span }
    requires in_phase { IsPhase body.now.sectors phase }
    ensures makes { (number : ℕ) (state : State)
        → Makes (call_of (standing_at place.now number state) body.now.octets.items phase ∷ []) (D.disk disk.old) (D.disk disk.new) result }
{
    let slot = place.slot(body.span);
    match phase {
        Phase::Body(j) => {
            let mut octets = [0; SECTOR_OCTETS];
            octets.copy_from_slice(&body.octets[SECTOR_OCTETS * j..SECTOR_OCTETS * (j + 1)]);
            slot.write_sector(disk, j, &octets)
        }
        Phase::SyncBody => disk.sync(),
        Phase::Gate => slot.open_gate(disk),
        Phase::SyncGate => disk.sync(),
    }
}
