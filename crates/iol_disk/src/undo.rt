//! The octets that each sync of a disk in memory replaced, kept so that a proof can undo the sync.

ghost use Rattle.std.specs.Prelude.{◌≡◌, ℕ, List, ◌<◌, [], ◌∷◌, ◌++◌, IsTrue, Some, None, if◌then◌else◌, length, OnOk, OnErr, IfOk};
ghost use Rattle.iol_disk.specs.declared.undo.Replaced.{Replaced};
ghost use Rattle.iol_disk.specs.Cells.{durable_of, is_listed};
ghost use Rattle.iol_disk.specs.Undo.{undos, replaced_at, replaces};

use crate::cell::Cell;
use crate::cells::Cells;
use crate::disk::SECTOR_OCTETS;
use std::alloc::{AllocError, Global};

// The durable octets of a sector that a sync replaced.
#[derive(Drop)]
pub(crate) struct Replaced {
    pub sector: usize,
    pub octets: [u8; SECTOR_OCTETS],
}

// Copies the durable octets of the listed sectors.
pub(crate) fn durable_octets(
    alloc: Global,
    cells: &[Cell],
    listed: &[usize],
) -> Result<Vec<Replaced>, AllocError>
    requires { (i : ℕ) → IsTrue (is_listed listed.now i) → i < length cells.now }
    ensures { IfOk result (λ sync. (i : ℕ)
        → replaced_at sync.items i ≡ (if is_listed listed.now i then Some (durable_of cells.now i) else None)) }
{
    let mut sync = Vec::with_capacity(alloc, listed.len())?;
    for sector in listed {
        let octets = cells[*sector].durable;
        sync.push(Replaced {
            sector: *sector,
            octets,
        })?;
    }
    Ok(sync)
}

// Keeps the octets that a sync is about to replace.
pub(crate) fn keep(
    alloc: Global,
    cells: &Cells,
    past: &mut Vec<Vec<Replaced>>,
) -> Result<(), AllocError>
    ensures kept { OnOk result ((sync : List Replaced) × (undos past.new.items ≡ undos past.old.items ++ sync ∷ [])
        × ((i : ℕ) → replaced_at sync i ≡ replaces cells.now i)) }
    ensures unchanged { OnErr result (past.new.items ≡ past.old.items) }
{
    let sync = cells.replaced(alloc)?;
    past.push(sync)?;
    Ok(())
}
