//! The journal that was found on a disk.

use crate::flash::Flash;
use crate::handed_disk::HandedDisk;
use iol_front::Front;
use iol_journal::Journal;
use iol_types::MasterState;
use std::marker::Model;

/// The values with which a master begins: the journal that was found on a disk, its state, and a front of its number and state. A
/// contract sees the record `FoundView` of `specs/Found.antt`.
#[derive(Drop)]
pub struct FoundJournal<W: Flash> {
    pub(crate) front: Front,
    pub(crate) journal: Journal<HandedDisk<W>>,
    pub(crate) state: MasterState,
}

impl<W: Flash> Model for FoundJournal<W> {
    ghost use Rattle.iol_handed.specs.Found.{FoundView, IsFound};

    ghost Value = { FoundView };

    ghost view = { λ f. record { front = f.front; journal = f.journal; state = f.state } };

    ghost invariant = { λ f. IsFound (record { front = f.front; journal = f.journal; state = f.state }) };
}
