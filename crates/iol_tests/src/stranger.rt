//! A published batch that a core did not take.

ghost use Rattle.std.specs.Prelude.{◌≡◌};

use crate::front::publish_clear;
use crate::scene::empty_journal;
use iol_core::{AckFault, Core};
use iol_disk::MemoryDisk;
use iol_front::{Committed, Front, Name};
use iol_journal::Journal;
use iol_record::LARGEST_COMMAND_RECORD;
use iol_types::{Change, MasterState, PortId};
use std::alloc::Global;
use std::marker::Brand;
use std::process::Abort;

#[test]
fn a_batch_that_is_not_in_flight_is_a_stranger(rt: HostRuntime) {
    let (journal, state) = empty_journal(&rt, rt.alloc());
    let front = Front::new(rt.alloc(), journal.number(), &state).expect(&rt, "memory");
    meet_stranger::<Brand, _>(&rt, rt.alloc(), front, journal, state);
}

// Publishes a Clear of port 1. It is a stranger while nothing is in flight, and while a Clear of port 2 is, which would
// have the same number.
fn meet_stranger<F: Name, R: Abort>(
    rt: &R,
    alloc: Global,
    front: Front,
    journal: Journal<MemoryDisk>,
    state: MasterState,
)
    requires name { front ≡ F.front }
    requires state { state ≡ front.start.state }
    requires number { front.start.number ≡ journal.standing.number }
{
    let mut publisher = front.publisher::<F>();
    let own = publisher.pass().expect(rt, "a pass");
    let mut core = Core::new(alloc, state, own).expect(rt, "a core");
    let (_, committed) = publish_clear(rt, alloc, journal, &mut publisher);
    let committed = stranger(rt, &mut core, committed);
    let port = PortId::new(2).unwrap();
    assert!(rt; core.submit(Change::Clear { port }).is_ok());
    let taken = core.take_batch(LARGEST_COMMAND_RECORD).expect(rt, "memory");
    assert!(rt; taken.expect(rt, "a batch").first == committed.first());
    let committed = stranger(rt, &mut core, committed);
    assert!(rt; committed.first() == 1 && committed.len() == 1);
}

// Returns the batch that comes back from a core that does not wait for it.
fn stranger<F: Name, R: Abort>(
    rt: &R,
    core: &mut Core<F>,
    committed: Committed<F>,
) -> Committed<F> {
    assert!(rt; !core.awaits(&committed));
    match core.acknowledge(committed) {
        Err(AckFault::Stranger(committed)) => committed,
        Ok(_) => panic!(rt; "a batch that is not in flight"),
    }
}
