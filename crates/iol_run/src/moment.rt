//! Moments of a disk, which only contracts see.

ghost use Rattle.std.specs.Prelude.{◌≡◌, ◌∷◌, []};
ghost use Rattle.iol_run.specs.CoreOnDisk.{clock_of};

use crate::engine_on_disk::EngineOnDisk;
use boxcar::tag::{Names, Tag};
use iol_disk::SectorDisk;
use iol_front::Name;
use std::marker::Model;

struct ClockOf;

impl<D: SectorDisk, F: Name> Names<EngineOnDisk<D, F>> for ClockOf {
    ghost numbers = { λ m. clock_of D.disk m.master ∷ [] };
}

/// A moment of a disk. It has no octets: only a contract sees the disk's clock.
#[derive(Drop)]
pub struct Moment {
    tag: Tag,
}

impl Model for Moment {
    ghost use Rattle.std.specs.Prelude.{ℕ, slice_index};

    ghost Value = { ℕ };

    ghost view = { λ m. slice_index m.tag.numbers 0 };
}

impl Moment {
    // Returns the current moment of the master's disk.
    pub(crate) fn of<D: SectorDisk, F: Name>(master: &EngineOnDisk<D, F>) -> Moment
        ensures { result ≡ clock_of D.disk master.now.master }
    {
        Moment {
            tag: Tag::of::<EngineOnDisk<D, F>, ClockOf>(master),
        }
    }
}
