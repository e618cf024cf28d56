//! Batches that are published after passes were made, one of which is in another thread.

ghost use Rattle.std.specs.Prelude.{◌≡◌, ◌+◌, length};

use crate::scene::{begun, clear, empty_journal, finish};
use iol_disk::MemoryDisk;
use iol_front::{Committed, Front, Name, Publisher};
use iol_journal::{Batch, Journal};
use std::alloc::Global;
use std::marker::Brand;
use std::process::Abort;
use std::sync::Wait;
use std::thread;
use std::thread::Threads;

/// Publishes a Clear after what the journal has.
pub fn publish_clear<F: Name, R: Abort>(
    rt: &R,
    alloc: Global,
    journal: Journal<MemoryDisk>,
    publisher: &mut Publisher<F>,
) -> (Journal<MemoryDisk>, Committed<F>)
    requires { journal.standing.number ≡ F.front.start.number + length publisher.old }
    ensures { result.0.standing.number ≡ F.front.start.number + length publisher.new }
{
    let batch = clear_batch(rt, alloc, journal.number() + 1);
    let (journal, written) = finish(rt, begun(rt, journal, batch));
    (journal, publisher.publish(written))
}

// Makes the batch of a Clear, under this number.
fn clear_batch<R: Abort>(rt: &R, alloc: Global, first: u64) -> Batch
    ensures { (result.first ≡ first) × (length result.commands.items ≡ 1) }
{
    let commands = Vec::from_array(alloc, [clear()]).expect(rt, "commands");
    Batch { first, commands }
}

#[test]
fn passes_that_lag_meet_at_the_newest_also_across_threads(rt: HostRuntime) {
    let (journal, state) = empty_journal(&rt, rt.alloc());
    let front = Front::new(rt.alloc(), journal.number(), &state).expect(&rt, "memory");
    publish_three::<Brand, _>(&rt, rt.alloc(), front, journal);
}

fn publish_three<F: Name + 'static, R: Threads + Wait + Abort + Sync>(
    rt: &R,
    alloc: Global,
    front: Front,
    journal: Journal<MemoryDisk>,
)
    requires name { front ≡ F.front }
    requires number { front.start.number ≡ journal.standing.number }
{
    let mut publisher = front.publisher::<F>();
    let mut one = publisher.pass().expect(rt, "a pass");
    let mut two = publisher.pass().expect(rt, "a pass");
    let mut there = publisher.pass().expect(rt, "a pass");
    let started = thread::spawn(rt, move || {
        there.look();
        there
    });
    let Ok(child) = started else {
        panic!(rt; "a thread")
    };
    let (journal, _) = publish_clear(rt, alloc, journal, &mut publisher);
    assert!(rt; one.count() == 0 && two.count() == 0);
    one.meet(&mut two);
    assert!(rt; one.count() == 1 && two.count() == 1);
    let (journal, _) = publish_clear(rt, alloc, journal, &mut publisher);
    assert!(rt; one.look() == 2 && two.count() == 1);
    two.meet(&mut one);
    assert!(rt; one.count() == 2 && two.count() == 2);
    let (_, mut last) = publish_clear(rt, alloc, journal, &mut publisher);
    last.show(&mut one);
    assert!(rt; last.first() == 3 && one.count() == 3 && two.count() == 2);
    let mut there = child.join(rt);
    two.meet(&mut there);
    assert!(rt; there.count() == 3 && two.count() == 3);
    there.retire();
}

#[test]
fn a_look_sees_what_is_published_by_then(rt: HostRuntime) {
    let (journal, state) = empty_journal(&rt, rt.alloc());
    let front = Front::new(rt.alloc(), journal.number(), &state).expect(&rt, "memory");
    look_between::<Brand, _>(&rt, rt.alloc(), front, journal);
}

fn look_between<F: Name, R: Abort>(
    rt: &R,
    alloc: Global,
    front: Front,
    journal: Journal<MemoryDisk>,
)
    requires name { front ≡ F.front }
    requires number { front.start.number ≡ journal.standing.number }
{
    let mut publisher = front.publisher::<F>();
    let mut pass = publisher.pass().expect(rt, "a pass");
    assert!(rt; pass.look() == 0);
    let (journal, _) = publish_clear(rt, alloc, journal, &mut publisher);
    assert!(rt; pass.count() == 0 && pass.look() == 1 && pass.look() == 1);
    let (_, _) = publish_clear(rt, alloc, journal, &mut publisher);
    assert!(rt; pass.count() == 1 && pass.look() == 2 && pass.count() == 2);
}

#[test]
fn a_pass_that_is_retired_takes_nothing_from_others(rt: HostRuntime) {
    let (journal, state) = empty_journal(&rt, rt.alloc());
    let front = Front::new(rt.alloc(), journal.number(), &state).expect(&rt, "memory");
    retire_one::<Brand, _>(&rt, rt.alloc(), front, journal);
}

fn retire_one<F: Name, R: Abort>(rt: &R, alloc: Global, front: Front, journal: Journal<MemoryDisk>)
    requires name { front ≡ F.front }
    requires number { front.start.number ≡ journal.standing.number }
{
    let mut publisher = front.publisher::<F>();
    let mut kept = publisher.pass().expect(rt, "a pass");
    let mut retired = kept.another().expect(rt, "a pass");
    let (journal, _) = publish_clear(rt, alloc, journal, &mut publisher);
    assert!(rt; retired.look() == 1);
    retired.retire();
    assert!(rt; kept.count() == 0 && kept.look() == 1);
    let (_, mut last) = publish_clear(rt, alloc, journal, &mut publisher);
    last.show(&mut kept);
    let next = publisher.pass().expect(rt, "a pass");
    assert!(rt; kept.count() == 2 && next.count() == 2);
}
