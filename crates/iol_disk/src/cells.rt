//! The sectors of a disk in memory, and which of them were written since the last sync.

ghost use Rattle.std.specs.Prelude.{◌≡◌, ◌<◌, ◌==◌, ℕ, List, Some, None, IsTrue, if◌then◌else◌, length, slice_get, is_some, unwrap_or};
ghost use Rattle.std.specs.Prelude.{replicate, IfOk};
ghost use Rattle.std.specs.Option.{option_map};
ghost use Rattle.iol_disk.specs.declared.cell.Cell.{Cell};
ghost use Rattle.iol_disk.specs.Cells.{settled, durable_of, written_of, blank_cell, is_listed};
ghost use Rattle.iol_disk.specs.Stops.{Leaves};
ghost use Rattle.iol_disk.specs.Undo.{replaced_at, replaces};

use crate::cell::{Cell, settle, stop};
use crate::disk::SECTOR_OCTETS;
use crate::pick::Pick;
use crate::undo::{Replaced, durable_octets};
use std::alloc::{AllocError, Global};
use std::marker::Model;

// The sectors of a disk in memory.
//
// The sectors written since the last sync are listed, so that a sync visits no others. The list has capacity for all
// sectors from the start, so that a write allocates nothing.
#[derive(Drop)]
pub(crate) struct Cells {
    cells: Vec<Cell>,
    written: Vec<usize>,
}

impl Model for Cells {
    ghost use Rattle.std.specs.Prelude.{List};
    ghost use Rattle.iol_disk.specs.declared.cell.Cell.{Cell};
    ghost use Rattle.iol_disk.specs.Cells.{ListsWritten};

    ghost Value = { List Cell };

    ghost view = { λ c. c.cells.items };

    ghost invariant = { λ c. ListsWritten c.cells.items c.written };
}

impl Cells {
    // Makes `sectors` sectors of zeros.
    pub(crate) fn new(alloc: Global, sectors: usize) -> Result<Cells, AllocError>
        ensures { IfOk result (λ cells. cells ≡ replicate sectors blank_cell) }
    {
        Ok(Cells {
            cells: blank_cells(alloc, sectors)?,
            written: Vec::with_capacity(alloc, sectors)?,
        })
    }

    // The number of sectors.
    pub(crate) fn len(&self) -> usize
        ensures { result ≡ length self.now }
    {
        self.cells.len()
    }

    // The newest octets of a sector.
    pub(crate) fn read(&self, n: usize) -> [u8; SECTOR_OCTETS]
        requires { n < length self.now }
        ensures { result ≡ unwrap_or (written_of self.now n) (durable_of self.now n) }
    {
        let cell = &self.cells[n];
        match cell.newest {
            Some(newest) => newest,
            None => cell.durable,
        }
    }

    // Writes a sector.
    pub(crate) fn write(&mut self, n: usize, octets: &[u8; SECTOR_OCTETS])
        requires { n < length self.old }
        ensures length { length self.new ≡ length self.old }
        ensures durable { (i : ℕ) → durable_of self.new i ≡ durable_of self.old i }
        ensures written { (i : ℕ) → written_of self.new i ≡ (if i == n then Some octets.now else written_of self.old i) }
    {
        let again = put(&mut self.cells, n, octets);
        if !again {
            self.written.push_reserved(n);
        }
    }

    // The durable octets that a sync is about to replace.
    pub(crate) fn replaced(&self, alloc: Global) -> Result<Vec<Replaced>, AllocError>
        ensures { IfOk result (λ sync. (i : ℕ) → replaced_at sync.items i ≡ replaces self.now i) }
    {
        durable_octets(alloc, &self.cells, &self.written)
    }

    // Makes the newest octets of each sector durable.
    pub(crate) fn settle(&mut self)
        ensures length { length self.new ≡ length self.old }
        ensures settled { (i : ℕ) → slice_get self.new i ≡ option_map settled (slice_get self.old i) }
    {
        settle_listed(&mut self.cells, &self.written);
        self.written.clear();
    }

    // Applies a power stop to each sector; `pick` says what it leaves.
    pub(crate) fn stop(&mut self, pick: Pick)
        ensures length { length self.new ≡ length self.old }
        ensures left { (i : ℕ) → Leaves pick (durable_of self.old i) (written_of self.old i) (durable_of self.new i) }
        ensures settled { (i : ℕ) → written_of self.new i ≡ None }
    {
        stop_all(&mut self.cells, pick);
        self.written.clear();
    }
}

// Makes `sectors` sectors of zeros.
fn blank_cells(alloc: Global, sectors: usize) -> Result<Vec<Cell>, AllocError>
    ensures { IfOk result (λ cells. cells.items ≡ replicate sectors blank_cell) }
{
    let mut cells = Vec::with_capacity(alloc, sectors)?;
    for _ in 0..sectors {
        cells.push(Cell::BLANK)?;
    }
    Ok(cells)
}

// Sets the newest octets of a sector. Returns whether it already had some.
fn put(cells: &mut Vec<Cell>, n: usize, octets: &[u8; SECTOR_OCTETS]) -> bool
    requires { n < length cells.old.items }
    ensures again { result ≡ is_some (written_of cells.old.items n) }
    ensures length { length cells.new.items ≡ length cells.old.items }
    ensures durable { (i : ℕ) → durable_of cells.new.items i ≡ durable_of cells.old.items i }
    ensures written { (i : ℕ) → written_of cells.new.items i
        ≡ (if i == n then Some octets.now else written_of cells.old.items i) }
{
    cells[n].newest.replace(*octets).is_some()
}

// Makes the newest octets of the listed sectors durable.
fn settle_listed(cells: &mut Vec<Cell>, listed: &[usize])
    requires { (i : ℕ) → IsTrue (is_listed listed.now i) → i < length cells.old.items }
    ensures length { length cells.new.items ≡ length cells.old.items }
    ensures settled { (i : ℕ) → slice_get cells.new.items i
        ≡ (if is_listed listed.now i then option_map settled (slice_get cells.old.items i) else slice_get cells.old.items i) }
{
    for sector in listed {
        settle(&mut cells[*sector]);
    }
}

// Applies a power stop to each sector; `pick` says what it leaves.
fn stop_all(cells: &mut Vec<Cell>, pick: Pick)
    ensures length { length cells.new.items ≡ length cells.old.items }
    ensures left { (i : ℕ) → Leaves pick (durable_of cells.old.items i) (written_of cells.old.items i) (durable_of cells.new.items i) }
    ensures settled { (i : ℕ) → written_of cells.new.items i ≡ None }
{
    for cell in cells.iter_mut() {
        stop(cell, pick);
    }
}
