//! The outcome of an opening: it looks for the journal among the sectors that were handed in.

ghost use Rattle.std.specs.Prelude.{◌≡◌, IsTrue, [], Ok, Some};
ghost use Rattle.std.specs.Option.{option_map};
ghost use Rattle.iol_handed.specs.Opened.{IfFound, IfGoesOn, IfRefused, IsOfFlash};
ghost use Rattle.iol_layout.specs.Meaning.{standing_in};
ghost use Rattle.iol_recovery.specs.Reading.{SaysWhy};

use crate::flash::Flash;
use crate::found::FoundJournal;
use crate::handed_disk::HandedDisk;
use crate::opening::{Opening, OpeningWant};
use iol_disk::SectorDisk;
use iol_front::Front;
use iol_journal::{Journal, RecoverCause, RecoverFault};
use iol_types::MasterState;
use std::alloc::Global;
use std::marker::PhantomData;

/// The outcome of an opening.
#[derive(Drop)]
pub enum Opened<W: Flash> {
    /// The opening continues. If it wants nothing, it was out of memory.
    GoesOn(Opening<W>),
    /// The journal was found.
    Found(FoundJournal<W>),
    /// There is no usable journal.
    Refused(RecoverCause),
}

impl<W: Flash> Opening<W> {
    /// Looks for the journal among the sectors that were handed in, if the opening wants nothing.
    pub fn go_on(self) -> Opened<W>
        // The journal that is found is the one that the flash means.
        ensures found { IfFound result (λ found. IsTrue W.truthful → standing_in self.sectors W.image ≡ Ok found.journal.standing) }
        ensures refused { IfRefused result (λ cause. IsTrue W.truthful → SaysWhy (standing_in self.sectors W.image) cause) }
        // If a sector is missing, or memory runs out, the opening continues.
        ensures remembers { IfRefused result IsOfFlash }
        // The opening wants what it wants until that is reported.
        ensures waits { (self.want ≡ OpeningWant.Nothing → ⊥) → result ≡ Opened.GoesOn self }
        ensures sectors { IfGoesOn result (λ more. more.sectors ≡ self.sectors) }
    {
        if self.want != OpeningWant::Nothing {
            return Opened::GoesOn(self);
        }
        let Opening {
            alloc,
            sectors,
            held,
            ..
        } = self;
        match HandedDisk::over(alloc, sectors, held) {
            Ok(disk) => recovered(alloc, disk),
            Err(held) => Opened::GoesOn(Opening {
                alloc,
                sectors,
                held,
                want: OpeningWant::Nothing,
                flash: PhantomData,
            }),
        }
    }
}

// Recovers a disk from the sectors that were handed in. If one is missing, the opening wants it.
fn recovered<W: Flash>(alloc: Global, disk: HandedDisk<W>) -> Opened<W>
    requires fresh { (disk.log ≡ []) }
    ensures found { IfFound result (λ found. IsTrue W.truthful → standing_in disk.sectors W.image ≡ Ok found.journal.standing) }
    ensures refused { IfRefused result (λ cause. IsTrue W.truthful → SaysWhy (standing_in disk.sectors W.image) cause) }
    ensures remembers { IfRefused result IsOfFlash }
    ensures sectors { IfGoesOn result (λ more. more.sectors ≡ disk.sectors) }
{
    let sectors = disk.sectors();
    match Journal::recover(alloc, disk) {
        Ok((journal, state)) => found(alloc, sectors, journal, state),
        Err(RecoverFault { cause, disk }) => match cause {
            RecoverCause::Disk(_) => Opened::GoesOn(wanting_missing(alloc, disk)),
            RecoverCause::Memory => Opened::GoesOn(Opening::of_disk(alloc, sectors, disk)),
            cause => Opened::Refused(cause),
        },
    }
}

// Continues the opening with what was handed in of a disk. The opening wants the sector that a read did not
// find.
fn wanting_missing<W: Flash>(alloc: Global, disk: HandedDisk<W>) -> Opening<W>
    requires failed { disk.failures ≡ 0 → ⊥ }
    ensures { (result.sectors ≡ disk.sectors) × (option_map OpeningWant.Read disk.missing ≡ Some result.want) }
{
    let sectors = disk.sectors();
    let Some(sector) = disk.missing() else {
        unreachable!()
    };
    Opening {
        want: OpeningWant::Read(sector),
        ..Opening::of_disk(alloc, sectors, disk)
    }
}

// Returns what was found, with a front, if there is memory for it.
fn found<W: Flash>(
    alloc: Global,
    sectors: usize,
    journal: Journal<HandedDisk<W>>,
    state: MasterState,
) -> Opened<W>
    requires state { state ≡ journal.standing.state }
    requires history { journal.history ≡ record { first = journal.standing.number; start = state; commands = [] } }
    ensures found { IfFound result (λ found. found.journal ≡ journal) }
    ensures no_cause { IfRefused result (λ _. ⊥) }
    ensures sectors { IfGoesOn result (λ more. more.sectors ≡ sectors) }
{
    match Front::new(alloc, journal.number(), &state) {
        Ok(front) => Opened::Found(FoundJournal {
            front,
            journal,
            state,
        }),
        Err(_) => Opened::GoesOn(Opening::of_disk(alloc, sectors, journal.disk())),
    }
}

impl<W: Flash> Opening<W> {
    // Continues the opening with what was handed in of a disk. The opening wants nothing.
    pub(crate) fn of_disk(alloc: Global, sectors: usize, disk: HandedDisk<W>) -> Opening<W>
        ensures { (result.sectors ≡ sectors) × (result.want ≡ OpeningWant.Nothing) }
    {
        let held = match disk.into_held() {
            Some(held) => held,
            None => Vec::new(alloc),
        };
        Opening {
            alloc,
            sectors,
            held,
            want: OpeningWant::Nothing,
            flash: PhantomData,
        }
    }
}

impl<W: Flash> FoundJournal<W> {
    /// Returns the opening that has found it, which is to be asked again.
    pub fn into_opening(self, alloc: Global) -> Opening<W>
        ensures { (result.sectors ≡ self.journal.disk.sectors) × (result.want ≡ OpeningWant.Nothing) }
    {
        let FoundJournal { journal, .. } = self;
        let sectors = journal.disk_ref().sectors();
        Opening::of_disk(alloc, sectors, journal.disk())
    }
}
