//! One sector of a disk in memory.

ghost use Rattle.std.specs.Prelude.{◌≡◌, None};
ghost use Rattle.iol_disk.specs.Cells.{settled};
ghost use Rattle.iol_disk.specs.Stops.{Leaves};

use crate::disk::SECTOR_OCTETS;
use crate::pick::{Pick, pattern};

// A sector in memory.
#[derive(Clone, Copy)]
pub(crate) struct Cell {
    pub durable: [u8; SECTOR_OCTETS],
    pub newest: Option<[u8; SECTOR_OCTETS]>,
}

impl Cell {
    pub(crate) const BLANK: Cell = Cell {
        durable: [0; SECTOR_OCTETS],
        newest: None,
    };
}

// Makes the newest octets durable.
pub(crate) fn settle(cell: &mut Cell)
    ensures { cell.new ≡ settled cell.old }
{
    if let Some(newest) = cell.newest.take() {
        cell.durable = newest;
    }
}

// Applies a power stop to the sector; `pick` says what it leaves.
pub(crate) fn stop(cell: &mut Cell, pick: Pick)
    ensures left { Leaves pick cell.old.durable cell.old.newest cell.new.durable }
    ensures settled { cell.new.newest ≡ None }
{
    if let Some(newest) = cell.newest {
        match pick {
            Pick::Old => {}
            Pick::New => cell.durable = newest,
            Pick::Zero => cell.durable = [0; SECTOR_OCTETS],
            Pick::Pattern => cell.durable = pattern(),
        }
        cell.newest = None;
    }
}
