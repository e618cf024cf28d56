//! A disk that hands out its calls.

use crate::flash::Flash;
use crate::handed_call::HandedCall;
use crate::held::{HeldSector, copy_held};
use boxcar::tag::{Names, Tag};
use iol_disk::{DiskFault, SECTOR_OCTETS, SectorDisk};
use std::alloc::Global;
use std::marker::{Model, PhantomData};

// The call that was handed out last.
#[derive(Clone, Copy)]
enum Last {
    Nothing,
    Write(usize),
    Sync,
}

/// A disk that makes no call itself. It hands out each write and each sync: the holder of the disk makes that call before the disk is
/// called again. It answers a read from the sectors that were handed in, until the first write. Contracts see the content that the
/// flash has once all calls that were handed out are made.
#[derive(Drop)]
pub struct HandedDisk<W: Flash> {
    sectors: usize,
    // the sectors that were handed in, until the first write
    held: Option<Vec<HeldSector>>,
    // the sector that the last failed read did not find
    missing: Option<usize>,
    // the call that was handed out last, and the octets of the last write
    last: Last,
    octets: Box<[u8; SECTOR_OCTETS]>,
    // the number of calls that were handed out, modulo 2^64
    calls: u64,
    failures: u64,
    log: Tag,
    flash: PhantomData<W>,
}

impl<W: Flash> Model for HandedDisk<W> {
    ghost use Rattle.std.specs.Option.{option_map};
    ghost use Rattle.iol_handed.specs.HandedDisk.{HandedDiskView, HasMissed, IsHanded, handed_out};

    ghost Value = { HandedDiskView };

    ghost view = { λ d. record {
      sectors = d.sectors;
      held = option_map (λ held. held.items) d.held;
      missing = d.missing;
      call = handed_out d.last d.octets.value;
      calls = d.calls;
      failures = d.failures;
      log = d.log.numbers;
    } };

    ghost invariant = { λ d. IsHanded W.image W.truthful (option_map (λ held. held.items) d.held) d.log.numbers
        × HasMissed d.sectors d.failures d.missing };
}

// Adds the last call of a disk to its log.
struct WithCall;

impl<W: Flash> Names<HandedDisk<W>> for WithCall {
    ghost use Rattle.iol_handed.specs.HandedDisk.{logged_with};

    ghost numbers = { λ d. logged_with d.call d.log };
}

impl<W: Flash> HandedDisk<W> {
    ghost use Rattle.std.specs.Prelude.{◌≡◌, IsTrue, Some, None, [], IfSome, IfOk, IfErr};
    ghost use Rattle.std.specs.Option.{option_map};
    ghost use Rattle.iol_handed.specs.HandedDisk.{HasMissed, call_of};
    ghost use Rattle.iol_handed.specs.Held.{Agree};

    /// Makes a disk of this number of sectors, of which these were handed in.
    ///
    /// # Errors
    /// Out of memory; returns what was handed in.
    pub(crate) fn over(
        alloc: Global,
        sectors: usize,
        held: Vec<HeldSector>,
    ) -> Result<HandedDisk<W>, Vec<HeldSector>>
        requires agree { IsTrue W.truthful → Agree W.image held.items }
        ensures disk { IfOk result (λ disk. disk ≡ record {
          sectors = sectors;
          held = Some held.items;
          missing = None;
          call = None;
          calls = 0;
          failures = 0;
          log = [];
        }) }
        ensures back { IfErr result (λ back. back ≡ held) }
    {
        let Ok(octets) = Box::new(alloc, [0; SECTOR_OCTETS]) else {
            return Err(held);
        };
        Ok(HandedDisk {
            sectors,
            held: Some(held),
            missing: None,
            last: Last::Nothing,
            octets,
            calls: 0,
            failures: 0,
            log: Tag::empty(),
            flash: PhantomData,
        })
    }

    // Returns the sector that the last failed read did not find, if there is one. There is one if a call has failed, and the disk has
    // that sector.
    pub(crate) fn missing(&self) -> Option<usize>
        ensures is { result ≡ self.now.missing }
        ensures missed { HasMissed self.now.sectors self.now.failures result }
    {
        self.missing
    }

    // Returns the number of calls that were handed out, modulo 2^64.
    pub(crate) fn calls(&self) -> u64
        ensures { result ≡ self.now.calls }
    {
        self.calls
    }

    // Returns the sectors that were handed in, if nothing was written since.
    pub(crate) fn into_held(self) -> Option<Vec<HeldSector>>
        ensures { IfSome result (λ held. IsTrue W.truthful → Agree W.image held.items) }
    {
        self.held
    }

    // Returns the call that was handed out last, if there is one.
    pub(crate) fn last_call(&self) -> Option<HandedCall>
        ensures { option_map call_of result ≡ self.now.call }
    {
        match self.last {
            Last::Write(sector) => Some(HandedCall::Write {
                sector,
                octets: *self.octets,
            }),
            Last::Sync => Some(HandedCall::Sync),
            Last::Nothing => None,
        }
    }
}

impl<W: Flash> SectorDisk for HandedDisk<W> {
    ghost use Rattle.std.specs.Prelude.{◌≡◌, ◌<◌, ◌+◌, ◌%◌, ◌^◌, IsTrue, Some, None, OnOk, OnErr, Ok};
    ghost use Rattle.iol_disk.specs.Calls.{write, sync};
    ghost use Rattle.iol_disk.specs.Content.{reads, wrote, synced};
    ghost use Rattle.iol_disk.specs.Disk.{After, Same, WroteSome, FailsOnlyAs};
    ghost use Rattle.iol_handed.specs.HandedDisk.{handed_disk};

    ghost disk = { handed_disk W.image W.truthful };

    fn sectors(&self) -> usize {
        self.sectors
    }

    /// Reads a sector that was handed in. If it was not, the read fails, and the sector counts as missing.
    fn read(&mut self, n: usize, octets: &mut [u8; SECTOR_OCTETS]) -> Result<(), DiskFault>
        requires { n < (handed_disk W.image W.truthful self.old).sectors }
        ensures read { OnOk result (IsTrue (handed_disk W.image W.truthful self.old).honest
            → octets.new ≡ reads (handed_disk W.image W.truthful self.old).content n) }
        ensures kept { OnErr result (octets.new ≡ octets.old) }
        ensures same { Same (handed_disk W.image W.truthful self.old) (handed_disk W.image W.truthful self.new) }
        ensures fault { FailsOnlyAs DiskFault.Read (handed_disk W.image W.truthful self.old)
            (handed_disk W.image W.truthful self.new) result }
        ensures missing { OnErr result (self.new.missing ≡ Some n) }
    {
        if let Some(held) = &self.held {
            if copy_held(held.as_slice(), n, octets) {
                return Ok(());
            }
        }
        self.missing = Some(n);
        self.failures = self.failures.saturating_add(1);
        Err(DiskFault::Read)
    }

    /// Hands out a write, and drops the sectors that were handed in.
    fn write(&mut self, n: usize, octets: &[u8; SECTOR_OCTETS]) -> Result<(), DiskFault>
        requires { n < (handed_disk W.image W.truthful self.old).sectors }
        ensures wrote { OnOk result (After (wrote n octets.now)
            (handed_disk W.image W.truthful self.old) (handed_disk W.image W.truthful self.new)) }
        ensures wrote_some { OnErr result (WroteSome n
            (handed_disk W.image W.truthful self.old) (handed_disk W.image W.truthful self.new)) }
        ensures fault { FailsOnlyAs DiskFault.Write (handed_disk W.image W.truthful self.old)
            (handed_disk W.image W.truthful self.new) result }
        ensures made { result ≡ Ok tt }
        ensures call { self.new.call ≡ Some (write n octets.now) }
        ensures counted { self.new.calls ≡ (self.old.calls + 1) % 2 ^ 64 }
    {
        self.held = None;
        *self.octets = *octets;
        self.last = Last::Write(n);
        self.calls = self.calls.wrapping_add(1);
        self.log = Tag::of::<HandedDisk<W>, WithCall>(self);
        Ok(())
    }

    /// Hands out a sync.
    fn sync(&mut self) -> Result<(), DiskFault>
        ensures synced { OnOk result (After synced (handed_disk W.image W.truthful self.old) (handed_disk W.image W.truthful self.new)) }
        ensures same { OnErr result (Same (handed_disk W.image W.truthful self.old) (handed_disk W.image W.truthful self.new)) }
        ensures fault { FailsOnlyAs DiskFault.Sync (handed_disk W.image W.truthful self.old)
            (handed_disk W.image W.truthful self.new) result }
        ensures made { result ≡ Ok tt }
        ensures call { self.new.call ≡ Some sync }
        ensures counted { self.new.calls ≡ (self.old.calls + 1) % 2 ^ 64 }
    {
        self.last = Last::Sync;
        self.calls = self.calls.wrapping_add(1);
        self.log = Tag::of::<HandedDisk<W>, WithCall>(self);
        Ok(())
    }
}
