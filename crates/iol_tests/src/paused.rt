//! A checkpoint of two ports and four slots an area that is paused while batches are written, with a stop after each disk call.

use crate::example_store::{configure, found, opened, store_of};
use crate::scene::begun;
use iol_disk::{MemoryDisk, Pick};
use iol_example::write;
use iol_journal::{Batch, CheckpointProgress, Checkpointing, Journal, Progress, Writing};
use std::alloc::Global;
use std::process::Abort;

// Without a batch a checkpoint makes 13 disk calls, and a batch of one sector makes four, also if it is carried.
const CHECKPOINT_CALLS: usize = 13;

const BATCH_CALLS: usize = 4;
// The last call makes the open gate durable: right before it a checkpoint cannot be paused.
const LAST_PAUSE: usize = CHECKPOINT_CALLS - 2;

// Begins a checkpoint, or continues the one that was paused.
fn checkpoint<R: Abort>(rt: &R, journal: Journal<MemoryDisk>) -> Checkpointing<MemoryDisk> {
    assert!(rt; journal.is_half_used(), "two of four slots are used");
    match journal.checkpoint() {
        Ok(checkpointing) => checkpointing,
        Err(_) => panic!(rt; "memory"),
    }
}

/// Returns the checkpoint after `calls` disk calls, none of which is its last one.
pub fn stepped<R: Abort>(
    rt: &R,
    mut checkpointing: Checkpointing<MemoryDisk>,
    calls: usize,
) -> Checkpointing<MemoryDisk> {
    for _ in 0..calls {
        checkpointing = match checkpointing.step() {
            CheckpointProgress::More(next) => next,
            _ => panic!(rt; "a checkpoint goes on"),
        };
    }
    checkpointing
}

/// Returns the journal after `calls` disk calls, the last of which ends the checkpoint.
pub fn done<R: Abort>(
    rt: &R,
    checkpointing: Checkpointing<MemoryDisk>,
    calls: usize,
) -> Journal<MemoryDisk> {
    match stepped(rt, checkpointing, calls.saturating_sub(1)).step() {
        CheckpointProgress::Done(journal) => journal,
        _ => panic!(rt; "a checkpoint is done"),
    }
}

// Pauses the checkpoint.
fn paused<R: Abort>(rt: &R, checkpointing: Checkpointing<MemoryDisk>) -> Journal<MemoryDisk> {
    assert!(rt; checkpointing.can_pause(), "the gate is not written");
    checkpointing.pause()
}

/// Makes a batch of one Configure, under this number.
pub fn batch<R: Abort>(rt: &R, alloc: Global, first: u64) -> Batch {
    let commands = Vec::from_array(alloc, [configure(rt, 1)]).expect(rt, "memory");
    Batch { first, commands }
}

// Returns a batch of one Configure, after `calls` disk calls.
fn written<R: Abort>(
    rt: &R,
    alloc: Global,
    journal: Journal<MemoryDisk>,
    calls: usize,
) -> Writing<MemoryDisk> {
    let batch = batch(rt, alloc, journal.number() + 1);
    let mut writing = begun(rt, journal, batch);
    for _ in 0..calls {
        writing = match writing.step() {
            Progress::More(next) => next,
            _ => panic!(rt; "a batch goes on"),
        };
    }
    writing
}

// Returns the journal after a batch of one Configure.
fn with_batch<R: Abort>(
    rt: &R,
    alloc: Global,
    journal: Journal<MemoryDisk>,
) -> Journal<MemoryDisk> {
    match written(rt, alloc, journal, BATCH_CALLS - 1).step() {
        Progress::Done(journal, batch) => {
            let _batch = batch.into_batch();
            journal
        }
        _ => panic!(rt; "a batch is done"),
    }
}

// Returns the disk after `calls` disk calls, if a checkpoint of two commands is paused after `before` of its own for a third
// command.
fn disk_left<R: Abort>(rt: &R, alloc: Global, before: usize, calls: usize) -> MemoryDisk {
    let begun = checkpoint(rt, store_of(rt, alloc, 2));
    if calls <= before {
        return stepped(rt, begun, calls).disk();
    }
    let journal = paused(rt, stepped(rt, begun, before));
    let behind = calls.saturating_sub(before);
    if behind < BATCH_CALLS {
        return written(rt, alloc, journal, behind).disk();
    }
    let checkpointing = checkpoint(rt, with_batch(rt, alloc, journal));
    let left = behind.saturating_sub(BATCH_CALLS);
    if calls < CHECKPOINT_CALLS + 2 * BATCH_CALLS {
        return stepped(rt, checkpointing, left).disk();
    }
    done(rt, checkpointing, left).disk()
}

// Returns the number of commands that are found after a stop. The third is found if its gate is durable or is read as open, as
// the pattern is too.
fn expected(before: usize, calls: usize, pick: Pick) -> u64 {
    let gate = before.saturating_add(BATCH_CALLS - 1);
    let closed = matches!(pick, Pick::Old | Pick::Zero);
    if calls < gate || (calls == gate && closed) {
        2
    } else {
        3
    }
}

// Returns the number of commands that are found once five more were written, with a checkpoint among them.
fn found_after_five<R: Abort>(rt: &R, alloc: Global, disk: MemoryDisk) -> Option<(u64, u64)> {
    let (mut journal, _) = opened(rt, alloc, disk);
    for _ in 0..5 {
        journal = match write(alloc, journal, configure(rt, 1)) {
            Ok(journal) => journal,
            Err(_) => panic!(rt; "a command is written"),
        };
    }
    found(alloc, journal.disk())
}

// Asserts that a stop after `calls` disk calls leaves what is expected.
fn assert_left<R: Abort>(rt: &R, alloc: Global, before: usize, calls: usize, pick: Pick) {
    let number = expected(before, calls, pick);
    let left = disk_left(rt, alloc, before, calls).stop(pick);
    assert!(rt;
        found(alloc, left) == Some((number, number)),
        "{before} {calls}"
    );
}

#[test]
fn a_stop_beside_a_paused_checkpoint_leaves_what_its_batch_says(rt: HostRuntime) {
    for before in 0..LAST_PAUSE + 1 {
        for calls in 0..CHECKPOINT_CALLS + 2 * BATCH_CALLS + 1 {
            for pick in [Pick::Old, Pick::New, Pick::Zero, Pick::Pattern] {
                assert_left(&rt, rt.alloc(), before, calls, pick);
            }
        }
    }
}

#[test]
fn after_a_stop_beside_a_paused_checkpoint_another_one_is_made(rt: HostRuntime) {
    for before in 0..LAST_PAUSE + 1 {
        for calls in 0..CHECKPOINT_CALLS + 2 * BATCH_CALLS + 1 {
            for pick in [Pick::Old, Pick::New] {
                let number = expected(before, calls, pick).saturating_add(5);
                let left = disk_left(&rt, rt.alloc(), before, calls).stop(pick);
                let all = found_after_five(&rt, rt.alloc(), left);
                assert!(rt; all == Some((number, number)), "{before} {calls}");
            }
        }
    }
}

// Returns the disk of a checkpoint of two commands that is paused after `first` of its disk calls for a third command, and after
// `second` for a fourth one.
fn disk_with_two<R: Abort>(rt: &R, alloc: Global, first: usize, second: usize) -> MemoryDisk {
    let begun = checkpoint(rt, store_of(rt, alloc, 2));
    let journal = with_batch(rt, alloc, paused(rt, stepped(rt, begun, first)));
    let more = stepped(rt, checkpoint(rt, journal), second.saturating_sub(first));
    let journal = with_batch(rt, alloc, paused(rt, more));
    let left = (CHECKPOINT_CALLS + 2 * BATCH_CALLS).saturating_sub(second);
    let journal = done(rt, checkpoint(rt, journal), left);
    assert!(rt; journal.has_free_slot(), "two of four slots are used");
    journal.disk()
}

#[test]
fn two_batches_are_carried_in_their_order(rt: HostRuntime) {
    for first in 0..LAST_PAUSE + 1 {
        for second in first..LAST_PAUSE + BATCH_CALLS + 1 {
            let left = disk_with_two(&rt, rt.alloc(), first, second).stop(Pick::Old);
            assert!(rt;
                found_after_five(&rt, rt.alloc(), left) == Some((9, 9)),
                "{first} {second}"
            );
        }
    }
}
