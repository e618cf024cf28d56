//! Reads of a core with ample memory.

ghost use Rattle.std.specs.Prelude.{◌≡◌};

use iol_core::{Core, QUEUE_COMMANDS};
use iol_front::{Front, Name};
use iol_record::examples::PORT_WITH_SET_RECORD;
use iol_record::{Version, decode_port};
use iol_types::{Change, MasterState, PortId};
use std::alloc::Global;
use std::marker::Brand;
use std::process::Abort;

// The queue is full, so that the pass is made late.
#[test]
fn a_port_with_a_set_is_viewed_through_a_pass_of_the_core(rt: HostRuntime) {
    let state = state_with_set(&rt, rt.alloc());
    let front = Front::new(rt.alloc(), 0, &state).expect(&rt, "memory");
    view::<Brand, _>(&rt, rt.alloc(), front, state);
}

// Makes the state of one port, which has a set.
fn state_with_set<R: Abort>(rt: &R, alloc: Global) -> MasterState {
    let mut state = MasterState::new(alloc, 1).expect(rt, "memory");
    let read = decode_port(alloc, Version::One, &PORT_WITH_SET_RECORD);
    let (port, _) = read.expect(rt, "memory");
    state.set_port(PortId::new(1).unwrap(), port);
    state
}

fn view<F: Name, R: Abort>(rt: &R, alloc: Global, front: Front, state: MasterState)
    requires name { front ≡ F.front }
    requires state { state ≡ front.start.state }
{
    let mut publisher = front.publisher::<F>();
    let own = publisher.pass().expect(rt, "a pass");
    let mut core = Core::new(alloc, state, own).expect(rt, "a core");
    let port = PortId::new(1).unwrap();
    for _ in 0..QUEUE_COMMANDS {
        assert!(rt; core.submit(Change::Clear { port }).is_ok());
    }
    let mut pass = core.pass().expect(rt, "memory");
    let view = core.view(port, &mut pass).expect(rt, "memory");
    assert!(rt; view.expect(rt, "a port").port.stored().is_some());
}
