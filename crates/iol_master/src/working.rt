//! The thread of a port.

ghost use Rattle.std.specs.Prelude.{IfOk};
ghost use Rattle.iol_master.specs.Served.{AreServed};

use crate::client::Shared;
use iol_engine::{Answered, Event, Exchanged, Handed, PortTold};
use iol_front::Name;
use iol_link::{DeviceLink, Lost, write_request};
use iol_port::Want;
use iol_types::{PORTS, PortId};
use std::alloc::{AllocError, Global};
use std::sync::{Arc, Wait};
use std::thread;

/// What a worker receives: its port, the port's link, what the threads share, and a buffer for an exchange, so that no step needs
/// memory.
#[derive(Drop)]
pub(crate) struct ServedPort<L: DeviceLink + Drop, F: Name> {
    port: PortId,
    link: L,
    shared: Arc<Shared<F>, Global>,
    buffer: Box<Exchanged>,
}

// Makes a port to serve for each link, port 1 first.
pub(crate) fn served_ports<L: DeviceLink + Drop, F: Name>(
    alloc: Global,
    shared: &Arc<Shared<F>, Global>,
    links: Vec<L>,
) -> Result<Vec<ServedPort<L, F>>, AllocError>
    ensures { IfOk result (λ served. AreServed links.items served.items) }
{
    let mut served = Vec::with_capacity(alloc, links.len())?;
    let mut number = 0;
    for link in links {
        number = u8::min(number, PORTS - 1) + 1;
        let Some(port) = PortId::new(number) else {
            unreachable!()
        };
        let shared = Arc::try_clone(shared)?;
        let buffer = Exchanged::room(alloc)?;
        served.push(ServedPort {
            port,
            link,
            shared,
            buffer,
        })?;
    }
    Ok(served)
}

// Serves a port until it is settled at the end of the run. It calls the link without the lock, and the port's machine makes a step with
// the answer under the lock. The worker sleeps while the port waits for the disk, or is off and not woken. A settled port holds no
// permit.
pub(crate) fn serve<L: DeviceLink + Drop, F: Name, R: Wait + Copy>(
    rt: R,
    alloc: Global,
    served: ServedPort<L, F>,
) {
    let ServedPort {
        port,
        mut link,
        shared,
        buffer,
    } = served;
    let mut answered = 0;
    let mut spare = Some(buffer);
    for _ in rt.forever() {
        if !goes_on(&rt, &shared, port, &mut answered) {
            return;
        }
        // The link is called only once there is a buffer, so that none of its answers is lost.
        if let Some(buffer) = buffer_of(alloc, spare.take()) {
            spare = step(&rt, &shared, port, &mut link, buffer);
        }
        // A link that answers at once is called again at once, so other threads get the processor first.
        thread::yield_now();
    }
    unreachable!()
}

// Returns the spare buffer or a new one, or `None` if memory runs out.
fn buffer_of(alloc: Global, spare: Option<Box<Exchanged>>) -> Option<Box<Exchanged>> {
    match spare {
        Some(buffer) => Some(buffer),
        None => Exchanged::room(alloc).ok(),
    }
}

// Returns whether a port is still served. Its worker first sleeps as long as the port has nothing to do. The next step of a settled
// port answers all its wakes.
fn goes_on<F: Name, R: Wait>(rt: &R, shared: &Shared<F>, port: PortId, answered: &mut u64) -> bool {
    let last = *answered;
    let guarded = shared.woken.wait_while(
        rt,
        shared.guarded.lock(rt),
        |guarded| guarded.sleeps(port, last),
    );
    if guarded.engine().is_settled(port) {
        *answered = guarded.wakes(port);
    }
    guarded.is_served(port, last)
}

// Makes one step of a port, and returns the buffer. It wakes the flusher if the step accepts a Store, and the waiting clients if the
// step reports a status.
fn step<L: DeviceLink, F: Name, R: Wait>(
    rt: &R,
    shared: &Shared<F>,
    port: PortId,
    link: &mut L,
    buffer: Box<Exchanged>,
) -> Option<Box<Exchanged>> {
    let event = link.take_event();
    let want = shared.guarded.lock(rt).engine().want(port);
    let connection = link.connection();
    let answer = answer_of(link, &want);
    let handed = Handed::new(connection, event, answer);
    let told = shared.guarded.lock(rt).step(port, handed, buffer);
    match told {
        Ok(told) => {
            if has_stored(&told) {
                shared.work.notify_all();
            }
            if told.status.is_some() {
                shared.reported.notify_all();
            }
            told.buffer()
        }
        Err(buffer) => Some(buffer),
    }
}

// Returns whether a step accepted a Store.
fn has_stored(told: &PortTold) -> bool {
    matches!(&told.called, Some(Event::Accepted { .. }))
}

// Makes the call of the link that the port's next step needs, and returns its answer.
fn answer_of<L: DeviceLink>(link: &mut L, want: &Want) -> Answered {
    match want {
        Want::Nothing => Answered::Nothing,
        Want::Page => match link.read_page() {
            Ok(octets) => Answered::Page(octets),
            Err(Lost) => Answered::Gone,
        },
        Want::Answer(request) => match link.exchange(write_request(request).as_slice()) {
            Ok(octets) => Answered::Octets(octets),
            Err(Lost) => Answered::Gone,
        },
    }
}
