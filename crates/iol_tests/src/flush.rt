//! Batches that a journal refuses for what they are, with ample memory.

ghost use Rattle.std.specs.Prelude.{◌≡◌, []};
ghost use Rattle.iol_flush.specs.Stages.{HasHistory};

use crate::scene::{clear, empty_journal};
use iol_disk::MemoryDisk;
use iol_flush::{FlushEnd, FlushFault, Flusher, Need};
use iol_front::{Front, Name};
use iol_journal::{Batch, Journal};
use std::alloc::Global;
use std::marker::Brand;
use std::process::Abort;

// The first number, and the number of Clears: after a gap, under number 0, and no Clear. A proof says that one command too many
// is a misfit.
const MISFITS: [(u64, usize); 3] = [(2, 1), (0, 1), (1, 0)];

#[test]
fn a_batch_that_does_not_follow_is_a_misfit(rt: HostRuntime) {
    for (first, count) in MISFITS {
        meet_misfit(&rt, rt.alloc(), batch(&rt, rt.alloc(), first, count));
    }
}

// Makes a batch of `count` Clears, the first under this number.
fn batch<R: Abort>(rt: &R, alloc: Global, first: u64, count: usize) -> Batch {
    let mut commands = Vec::new(alloc);
    for _ in 0..count {
        commands.push(clear()).expect(rt, "memory");
    }
    Batch { first, commands }
}

// Gives a batch to the flusher of an empty journal.
fn meet_misfit<R: Abort>(rt: &R, alloc: Global, batch: Batch) {
    let (journal, state) = empty_journal(rt, alloc);
    let front = Front::new(alloc, journal.number(), &state).expect(rt, "memory");
    expect_misfit::<Brand, _>(rt, front, journal, batch);
}

fn expect_misfit<F: Name, R: Abort>(
    rt: &R,
    front: Front,
    journal: Journal<MemoryDisk>,
    batch: Batch,
)
    requires name { front ≡ F.front }
    requires list { HasHistory front.start [] journal.history }
{
    let mut flusher = Flusher::new(journal, front.publisher::<F>());
    assert!(rt; flusher.needs() == Need::Batch);
    flusher.give(batch).expect(rt, "a batch that is taken");
    assert!(rt; flusher.needs() == Need::Disk);
    assert!(rt; flusher.disk_step() == Err(FlushFault::Misfit));
    match flusher.end() {
        FlushEnd::Midway(_disk) => {}
        _ => panic!(rt; "a batch was given"),
    }
}
