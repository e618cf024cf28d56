//! Opens a disk: the caller is asked for a sync, and for one sector after another, until the journal on the disk is found.

ghost use Rattle.std.specs.Prelude.{◌≡◌, ℕ, IsTrue, []};
ghost use Rattle.iol_handed.specs.Opening.{HandsIn, WantsBelow, synced};

use crate::flash::Flash;
use crate::held::HeldSector;
use iol_disk::SECTOR_OCTETS;
use std::alloc::Global;
use std::marker::{Model, PhantomData};

/// What an opening wants of its caller.
#[derive(Clone, Copy, PartialEq, Eq)]
pub enum OpeningWant {
    /// All that was written to the flash is to be made durable.
    Sync,
    /// The sector with this number is to be read.
    Read(usize),
    /// The opening is to be asked again.
    Nothing,
}

/// A disk that is being opened. It keeps the sectors that were handed in. A contract sees the record `OpeningView` of
/// `specs/Opening.antt`.
#[derive(Drop)]
pub struct Opening<W: Flash> {
    pub(crate) alloc: Global,
    pub(crate) sectors: usize,
    pub(crate) held: Vec<HeldSector>,
    pub(crate) want: OpeningWant,
    pub(crate) flash: PhantomData<W>,
}

/// The reason why a sector is not taken.
#[derive(Clone, Copy, Debug, PartialEq, Eq)]
pub enum HandFault {
    /// No sector was wanted.
    Misfit,
    /// Out of memory; the sector may be handed in again.
    Memory,
}

impl<W: Flash> Model for Opening<W> {
    ghost use Rattle.std.specs.Prelude.{IsTrue};
    ghost use Rattle.iol_handed.specs.Held.{Agree};
    ghost use Rattle.iol_handed.specs.Opening.{OpeningView, WantsBelow};

    ghost Value = { OpeningView };

    ghost view = { λ o. record { sectors = o.sectors; held = o.held.items; want = o.want } };

    ghost invariant = { λ o. (IsTrue W.truthful → Agree W.image o.held.items) × WantsBelow o.sectors o.want };
}

impl<W: Flash> Opening<W> {
    /// Makes the opening of a disk of this number of sectors. It wants a sync first.
    pub fn new(alloc: Global, sectors: usize) -> Opening<W>
        ensures { result ≡ record { sectors = sectors; held = []; want = OpeningWant.Sync } }
    {
        Opening {
            alloc,
            sectors,
            held: Vec::new(alloc),
            want: OpeningWant::Sync,
            flash: PhantomData,
        }
    }

    /// Returns what the opening wants of its caller. A sector that it wants is one that the disk has.
    pub fn want(&self) -> OpeningWant
        ensures is { result ≡ self.now.want }
        ensures below { WantsBelow self.now.sectors result }
    {
        self.want
    }

    /// Reports that the wanted sync was made. If no sync is wanted, nothing changes.
    pub fn synced(&mut self)
        ensures { self.new ≡ synced self.old.want self.old }
    {
        match self.want {
            OpeningWant::Sync => self.want = OpeningWant::Nothing,
            OpeningWant::Read(_) | OpeningWant::Nothing => {}
        }
    }

    /// Hands in the octets of the wanted sector.
    ///
    /// # Errors
    /// `Misfit` if no sector is wanted, and `Memory` if memory runs out, in this order. Nothing changes.
    pub fn hand(&mut self, octets: &[u8; SECTOR_OCTETS]) -> Result<(), HandFault>
        requires truthful { (sector : ℕ) → self.old.want ≡ OpeningWant.Read sector → IsTrue W.truthful → octets.now ≡ W.image sector }
        ensures hands { HandsIn self.old.want octets.now self.old self.new result }
    {
        let OpeningWant::Read(sector) = self.want else {
            return Err(HandFault::Misfit);
        };
        let Ok(octets) = Box::new(self.alloc, *octets) else {
            return Err(HandFault::Memory);
        };
        match self.held.push(HeldSector { sector, octets }) {
            Ok(()) => {
                self.want = OpeningWant::Nothing;
                Ok(())
            }
            Err(_) => Err(HandFault::Memory),
        }
    }
}
