//! The thread of the flusher.

ghost use Rattle.std.specs.Prelude.{◌≡◌, ◌≤◌, true};
ghost use Rattle.iol_record.specs.declared.encode.TheConstants.{LARGEST_COMMAND_RECORD};
ghost use Rattle.iol_flush.specs.Stages.{HasHistory, names_disk, need_of};
ghost use Rattle.iol_flush.specs.declared.need.Need.TheVariants as need;
ghost use Rattle.iol_flush.specs.declared.stage.FlushStage.TheVariants as stage;
ghost use Rattle.iol_master.specs.Endings.{EndsFrom, HasWaited, IsEnding, LeavesAs, LeavesWaiting, MayEnd, MayTurn, MayWait, NeverMidway};
ghost use Rattle.iol_journal.specs.Journals.{JournalView};
ghost use Rattle.iol_master.specs.Pace.{Follows, GivesNone, IsBegun, MayFind, MayGive};
ghost use Rattle.iol_master.specs.declared.pace.Checkpoint.TheVariants as checkpoint;
ghost use Rattle.iol_master.specs.Since.{IsSince};

use crate::client::Shared;
use crate::ending::Ending;
use crate::finding::SearchResult;
use crate::guarded::Guarded;
use crate::pace::Pace;
use iol_disk::SectorDisk;
use iol_flush::{FlushEnd, FlushFault, Flusher, Need};
use iol_front::{Name, Publisher};
use iol_journal::Journal;
use std::alloc::Global;
use std::marker::Model;
use std::snapshot::Snapshot;
use std::sync::{Arc, MutexGuard, Wait};
use std::thread;
use std::thread::Promise;
use std::time::{Clock, Duration};

// The flusher waits this many times in a row for memory before the waiting callers get an answer, this long each time: a second in
// all.
const MOST_WAITS: u32 = 100;

const WAIT_MILLISECONDS: u64 = 10;

/// The journal and the publisher of its list that the thread of the flusher receives. The thread makes the flusher itself: a flusher
/// may hold a durable batch, and so cannot be moved into a closure. A contract sees the journal.
#[derive(Drop)]
pub(crate) struct Charge<D: SectorDisk, F: Name> {
    journal: Journal<D>,
    publisher: Publisher<F>,
}

impl<D: SectorDisk, F: Name> Model for Charge<D, F> {
    ghost use Rattle.iol_flush.specs.Stages.{HasHistory};
    ghost use Rattle.iol_journal.specs.Journals.{JournalView};

    ghost Value = { JournalView D };

    ghost view = { λ c. c.journal };

    ghost invariant = { λ c. HasHistory F.front.start c.publisher c.journal.history };
}

impl<D: SectorDisk, F: Name> Charge<D, F> {
    // Makes a charge of a journal and the publisher of its list.
    pub(crate) fn new(journal: Journal<D>, publisher: Publisher<F>) -> Charge<D, F>
        requires { HasHistory F.front.start publisher journal.history }
        ensures { result ≡ journal }
    {
        Charge { journal, publisher }
    }

    // Returns the flusher of this charge, at rest.
    fn flusher(self) -> Flusher<D, F>
        ensures { result.stage ≡ stage.Resting self }
    {
        let Charge { journal, publisher } = self;
        Flusher::new(journal, publisher)
    }
}

/// The promise of the flusher's thread: it continues the journal that it received, and ends with it, or with its disk after a failed
/// call.
#[derive(Drop)]
pub(crate) struct FromCharge<D: SectorDisk, F: Name>(pub(crate) Snapshot<Charge<D, F>>);

impl<D: SectorDisk, F: Name> Promise<Ending<D, F>> for FromCharge<D, F> {
    ghost use Rattle.iol_master.specs.Endings.{IsEnding};

    ghost kept_by = { λ p ending. IsEnding D.disk F.front.start p.0.value ending };
}

// Writes batches to the disk until no more commands are accepted and none waits, or until a disk call fails. If the run is to end, it
// also ends once it has been out of memory for a second.
pub(crate) fn flush_all<D: SectorDisk, F: Name, R: Wait + Clock + Copy>(
    rt: R,
    shared: Arc<Shared<F>, Global>,
    charge: Charge<D, F>,
) -> Ending<D, F>
    ensures { IsEnding D.disk F.front.start charge result }
{
    let mut flusher = charge.flusher();
    let mut waits = 0;
    let mut pace = Pace::new();
    for _ in rt.forever() {
        if let Turned::Ended(leaves) = turn(&rt, &shared, &mut flusher, &mut waits, &mut pace) {
            return ending_of(flusher.end(), leaves);
        }
    }
    unreachable!()
}

// Returns how the master ends, from the end of its flusher.
fn ending_of<D: SectorDisk, F: Name>(end: FlushEnd<D, F>, leaves: Leaves) -> Ending<D, F>
    requires whole { NeverMidway end }
    ensures ending { (first : JournalView D) → EndsFrom D.disk F.front.start first end → IsEnding D.disk F.front.start first result }
    ensures leaves { LeavesAs leaves result }
{
    match (end, leaves) {
        (FlushEnd::Closed(journal, publisher), Leaves::Nothing) => Ending::Closed(
            journal, publisher,
        ),
        (FlushEnd::Closed(journal, publisher), Leaves::Unwritten) => Ending::Unwritten(
            journal, publisher,
        ),
        (FlushEnd::Faulted(disk, fault), _) => Ending::Faulted(disk, fault),
        (FlushEnd::Midway(_), _) => unreachable!(),
    }
}

/// What a flusher leaves unwritten at its end.
#[derive(Clone, Copy)]
pub(crate) enum Leaves {
    Nothing,
    // The waiting commands, as memory ran out for them.
    Unwritten,
}

/// The result of one turn of the flusher.
#[derive(Clone, Copy)]
pub(crate) enum Turned {
    Made,
    // There was no memory for a batch or a checkpoint, or the batch did not fit.
    Waited,
    Ended(Leaves),
}

// Meets the flusher's next need, or waits for memory.
fn turn<D: SectorDisk, F: Name, R: Wait + Clock>(
    rt: &R,
    shared: &Shared<F>,
    flusher: &mut Flusher<D, F>,
    waits: &mut u32,
    pace: &mut Pace,
) -> Turned
    ensures since { IsSince D.disk flusher.old.stage flusher.new.stage }
    ensures ended { MayEnd flusher.new.stage result }
    ensures waited { HasWaited result waits.old waits.new }
{
    match meet_need(rt, shared, flusher, pace) {
        Turned::Waited => wait(rt, shared, flusher, waits),
        Turned::Made => {
            *waits = 0;
            Turned::Made
        }
        Turned::Ended(leaves) => Turned::Ended(leaves),
    }
}

// Waits for memory. After `MOST_WAITS` waits in a row, each waiting caller gets the answer that its command is not written. If the
// run is to end, the flusher ends too, and leaves the waiting commands. Nothing reports when memory is available again, so no
// notification ends a wait.
fn wait<D: SectorDisk, F: Name, R: Wait + Clock>(
    rt: &R,
    shared: &Shared<F>,
    flusher: &mut Flusher<D, F>,
    waits: &mut u32,
) -> Turned
    requires { MayWait flusher.old.stage }
    ensures since { IsSince D.disk flusher.old.stage flusher.new.stage }
    ensures ended { MayEnd flusher.new.stage result }
    ensures leaves { LeavesWaiting result }
    ensures waited { HasWaited result waits.old waits.new }
{
    if *waits < MOST_WAITS {
        *waits += 1;
        thread::sleep(rt, Duration::from_millis(WAIT_MILLISECONDS));
        return Turned::Waited;
    }
    *waits = 0;
    let ends = shared.guarded.lock(rt).give_up(rt);
    shared.woken.notify_all();
    if !ends {
        return Turned::Waited;
    }
    let _unwritten = flusher.withdraw();
    Turned::Ended(Leaves::Unwritten)
}

// Meets the flusher's next need.
fn meet_need<D: SectorDisk, F: Name, R: Wait + Clock>(
    rt: &R,
    shared: &Shared<F>,
    flusher: &mut Flusher<D, F>,
    pace: &mut Pace,
) -> Turned
    ensures since { IsSince D.disk flusher.old.stage flusher.new.stage }
    ensures turned { MayTurn flusher.new.stage result }
{
    match flusher.needs() {
        Need::Batch => take(rt, shared, flusher, pace),
        Need::BatchOrDisk => take_or_call(rt, shared, flusher, pace),
        Need::Disk => call_disk(rt, shared, flusher),
        Need::Publish => publish(rt, shared, flusher, pace),
        Need::Stopped => Turned::Ended(Leaves::Nothing),
    }
}

// Makes the next disk call, without the lock. If it fails, no waiting caller gets a notice any more. If memory runs out, or the batch
// does not fit, the call is made again later.
fn call_disk<D: SectorDisk, F: Name, R: Wait>(
    rt: &R,
    shared: &Shared<F>,
    flusher: &mut Flusher<D, F>,
) -> Turned
    requires { names_disk (need_of flusher.old.stage) ≡ true }
    ensures gives { GivesNone flusher.old.stage flusher.new.stage }
    ensures since { IsSince D.disk flusher.old.stage flusher.new.stage }
    ensures turned { MayTurn flusher.new.stage result }
{
    match flusher.disk_step() {
        Ok(()) => Turned::Made,
        Err(FlushFault::Disk(_)) => {
            shared.guarded.lock(rt).fail();
            shared.woken.notify_all();
            Turned::Made
        }
        Err(FlushFault::Stopped) => Turned::Made,
        Err(FlushFault::Memory) => Turned::Waited,
        Err(FlushFault::Misfit) => Turned::Waited,
    }
}

// Publishes the durable batch, and has it acknowledged.
fn publish<D: SectorDisk, F: Name, R: Wait + Clock>(
    rt: &R,
    shared: &Shared<F>,
    flusher: &mut Flusher<D, F>,
    pace: &mut Pace,
) -> Turned
    requires { need_of flusher.old.stage ≡ need.Publish }
    ensures kept { pace.new.checkpoint ≡ pace.old.checkpoint }
    ensures since { IsSince D.disk flusher.old.stage flusher.new.stage }
    ensures turned { MayTurn flusher.new.stage result }
{
    if let Ok(committed) = flusher.publish() {
        pace.end(rt);
        let _ = shared.guarded.lock(rt).acknowledge(rt, committed);
        shared.woken.notify_all();
        shared.reported.notify_all();
    }
    Turned::Made
}

// Looks for a batch, and releases the lock.
fn look<F: Name>(mut guarded: MutexGuard<'_, Guarded<F>>, room: usize) -> SearchResult
    requires { LARGEST_COMMAND_RECORD ≤ room }
{
    guarded.find(room)
}

// Waits a while for a batch, and takes it. If none comes, the next call does not wait. If a batch is owed to the checkpoint underway,
// it looks for none.
fn look_again<F: Name, R: Wait + Clock>(
    rt: &R,
    shared: &Shared<F>,
    room: usize,
    pace: &mut Pace,
) -> SearchResult
    requires { LARGEST_COMMAND_RECORD ≤ room }
    ensures owed { MayFind pace.old.checkpoint result }
    ensures follows { Follows pace.old result pace.new }
{
    let guarded = shared.guarded.lock(rt);
    let found = if pace.is_owing() {
        guarded.find_end()
    } else {
        look(wait_for_batch(rt, shared, guarded, pace), room)
    };
    pace.follow(&found);
    found
}

// Waits for a batch, or for the end, as long as the pace says.
fn wait_for_batch<'a, F: Name, R: Wait + Clock>(
    rt: &R,
    shared: &'a Shared<F>,
    guarded: MutexGuard<'a, Guarded<F>>,
    pace: &Pace,
) -> MutexGuard<'a, Guarded<F>> {
    let Some(limit) = pace.limit() else {
        return guarded;
    };
    let is_idle = |guarded: &mut Guarded<F>| guarded.is_idle();
    shared
        .work
        .wait_timeout_while(rt, guarded, limit, is_idle)
        .0
}

// Waits for a batch, which it gives to the flusher, or for the end.
fn take<D: SectorDisk, F: Name, R: Wait + Clock>(
    rt: &R,
    shared: &Shared<F>,
    flusher: &mut Flusher<D, F>,
    pace: &mut Pace,
) -> Turned
    requires { need_of flusher.old.stage ≡ need.Batch }
    ensures rests { pace.new.checkpoint ≡ checkpoint.Due }
    ensures since { IsSince D.disk flusher.old.stage flusher.new.stage }
    ensures turned { MayTurn flusher.new.stage result }
{
    let guarded = shared
        .work
        .wait_while(rt, shared.guarded.lock(rt), |guarded| guarded.is_idle());
    pace.rest();
    match look(guarded, flusher.room()) {
        SearchResult::Batch(batch) => {
            pace.begin(rt);
            let _ = flusher.give(batch);
            Turned::Made
        }
        SearchResult::Closed => Turned::Ended(Leaves::Nothing),
        // No batch is in flight here, so a waiting command is found.
        SearchResult::Nothing | SearchResult::NoMemory => Turned::Waited,
    }
}

// Takes a batch, or makes the next disk call of the due checkpoint if none comes in a while. At the end the checkpoint is left
// paused.
fn take_or_call<D: SectorDisk, F: Name, R: Wait + Clock>(
    rt: &R,
    shared: &Shared<F>,
    flusher: &mut Flusher<D, F>,
    pace: &mut Pace,
) -> Turned
    requires { need_of flusher.old.stage ≡ need.BatchOrDisk }
    ensures owed { MayGive pace.old.checkpoint flusher.old.stage flusher.new.stage }
    ensures begun { IsBegun pace.new.checkpoint flusher.old.stage flusher.new.stage }
    ensures since { IsSince D.disk flusher.old.stage flusher.new.stage }
    ensures turned { MayTurn flusher.new.stage result }
{
    match look_again(rt, shared, flusher.room(), pace) {
        SearchResult::Batch(batch) => {
            pace.begin(rt);
            let _ = flusher.give(batch);
            Turned::Made
        }
        SearchResult::Nothing => call_disk(rt, shared, flusher),
        SearchResult::Closed => Turned::Ended(Leaves::Nothing),
        SearchResult::NoMemory => Turned::Waited,
    }
}
