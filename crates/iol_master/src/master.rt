//! Starts and ends the threads of a master.

ghost use Rattle.std.specs.Prelude.{◌≡◌, ◌≤◌, [], length, vec_capacity, vec_len, IfErr, IfOk};
ghost use Rattle.iol_flush.specs.Stages.{HasHistory};
ghost use Rattle.iol_journal.specs.Journals.{JournalView};
ghost use Rattle.iol_master.specs.Endings.{IsEnding, IsLeft, IsStartFault};
ghost use Rattle.iol_master.specs.Settled.{IsSettled};

use crate::client::{Client, Shared};
use crate::ending::{Ending, StartFault};
use crate::flushing::{Charge, FromCharge, flush_all};
use crate::guarded::Guarded;
use crate::settling::settle;
use crate::working::{ServedPort, serve, served_ports};
use iol_disk::SectorDisk;
use iol_engine::Engine;
use iol_front::{Name, Pass, Publisher};
use iol_journal::Journal;
use iol_link::DeviceLink;
use iol_types::MasterState;
use std::alloc::{AllocError, Global};
use std::marker::Model;
use std::snapshot::Snapshot;
use std::sync::{Arc, Condvar, Mutex, Wait};
use std::thread;
use std::thread::{JoinHandle, PromisedHandle, Threads};
use std::time::Clock;

/// A running master. Call `shutdown` to end it: a master that is dropped leaves its threads running, and its disk with them. A
/// contract sees the journal that it was started with.
#[derive(Drop)]
pub struct Master<D: SectorDisk, F: Name> {
    alloc: Global,
    shared: Arc<Shared<F>, Global>,
    pass: Pass<F>,
    workers: Vec<JoinHandle<()>>,
    flusher: PromisedHandle<Ending<D, F>, FromCharge<D, F>>,
}

impl<D: SectorDisk, F: Name> Model for Master<D, F> {
    ghost use Rattle.std.specs.Prelude.{◌≡◌, [], length, vec_len};
    ghost use Rattle.iol_journal.specs.Journals.{JournalView};

    ghost Value = { JournalView D };

    ghost view = { λ m. m.flusher.promise.0.value };

    // The pass that each client begins with has seen nothing of the run, and each port has a worker.
    ghost invariant = { λ m. (m.pass ≡ []) × (vec_len m.workers ≡ length F.front.start.state) };
}

impl<D: SectorDisk + Drop + Send + 'static, F: Name + 'static> Master<D, F> {
    /// Starts a master over a journal that was just recovered. It takes the journal's state, the publisher of a front of that number
    /// and state, which has published nothing, and a link for each port, port 1 first.
    ///
    /// # Errors
    /// `Ports` if there is not one link for each port, `Memory` if memory runs out, and `Thread` if a thread cannot be made, checked
    /// in this order. Each returns the disk. The links are dropped.
    pub fn start<
        L: DeviceLink + Drop + Send + 'static,
        R: Threads + Wait + Clock + Copy + Send + 'static,
    >(
        rt: &R,
        alloc: Global,
        journal: Journal<D>,
        state: MasterState,
        mut publisher: Publisher<F>,
        links: Vec<L>,
    ) -> Result<Master<D, F>, StartFault<D>>
        requires journal { HasHistory F.front.start [] journal.history }
        requires state { state ≡ F.front.start.state }
        requires publisher { publisher ≡ [] }
        ensures started { IfOk result (λ master. master ≡ journal) }
        ensures fault { IfErr result (IsStartFault D.disk F.front.start journal (vec_len links)) }
    {
        let ports = state.ports();
        if links.len() != usize::from(ports) {
            return Err(StartFault::Ports(journal.disk()));
        }
        let Ok(room) = Room::new(alloc, state, &mut publisher, ports, links) else {
            return Err(StartFault::Memory(journal.disk()));
        };
        begin(rt, alloc, Charge::new(journal, publisher), room)
    }

    /// Returns a further client, which has seen nothing of this run.
    ///
    /// # Errors
    /// Out of memory; nothing changes.
    pub fn client(&mut self) -> Result<Client<F>, AllocError>
        ensures same { self.new ≡ self.old }
        ensures client { IfOk result (λ client. client ≡ []) }
    {
        let pass = self.pass.another()?;
        let shared = Arc::try_clone(&self.shared)?;
        Ok(Client::new(self.alloc, shared, pass))
    }

    /// Ends the run: wakes each port once more and runs it until it is settled, writes the waiting commands to the disk, and waits
    /// until all threads have ended. If memory stays out for a second, the waiting commands are not written: the ending is
    /// `Unwritten`, and their callers have got that answer.
    pub fn shutdown<R: Threads + Wait>(self, rt: &R) -> Ending<D, F>
        ensures ending { IsEnding D.disk F.front.start self result }
        // A closed master has published a list of commands that a lawful trace accepted and acknowledged, whole.
        ensures settled { IsSettled F.front.start result }
    {
        let Master {
            alloc: _,
            shared,
            pass,
            workers,
            flusher,
        } = self;
        settle(rt, &shared, pass, end(rt, &shared, workers, flusher))
    }
}

// Ends the threads of a master: the workers, and then the flusher.
fn end<D: SectorDisk, F: Name, R: Threads + Wait>(
    rt: &R,
    shared: &Shared<F>,
    workers: Vec<JoinHandle<()>>,
    flusher: PromisedHandle<Ending<D, F>, FromCharge<D, F>>,
) -> Ending<D, F>
    ensures { IsEnding D.disk F.front.start flusher.promise.0.value result }
{
    shared.guarded.lock(rt).end_ports();
    shared.woken.notify_all();
    join_all(rt, workers);
    shared.guarded.lock(rt).close();
    shared.work.notify_all();
    shared.reported.notify_all();
    flusher.join(rt)
}

// Everything that a master allocates before its first thread starts.
#[derive(Drop)]
struct Room<L: DeviceLink + Drop, F: Name> {
    pass: Pass<F>,
    shared: Arc<Shared<F>, Global>,
    // the flusher's handle to what the threads share
    theirs: Arc<Shared<F>, Global>,
    served: Vec<ServedPort<L, F>>,
    workers: Vec<JoinHandle<()>>,
    ghost each: { vec_len served ≡ length F.front.start.state },
}

impl<L: DeviceLink + Drop, F: Name> Room<L, F> {
    fn new(
        alloc: Global,
        state: MasterState,
        publisher: &mut Publisher<F>,
        ports: u8,
        links: Vec<L>,
    ) -> Result<Room<L, F>, AllocError>
        requires state { state ≡ F.front.start.state }
        requires publisher { publisher.old ≡ [] }
        requires links { vec_len links ≡ length state }
        ensures publisher { publisher.new ≡ publisher.old }
        ensures pass { IfOk result (λ room. room.pass ≡ []) }
        ensures room { IfOk result (λ room. vec_len room.served ≤ vec_capacity room.workers) }
        ensures empty { IfOk result (λ room. vec_len room.workers ≡ 0) }
    {
        let own = publisher.pass()?;
        let pass = publisher.pass()?;
        let shared = share(alloc, state, own, ports, &links)?;
        let theirs = Arc::try_clone(&shared)?;
        let served = served_ports(alloc, &shared, links)?;
        let workers = Vec::with_capacity(alloc, served.len())?;
        Ok(Room {
            pass,
            shared,
            theirs,
            served,
            workers,
        })
    }
}

// Makes what the threads share, over a durable state.
fn share<L: DeviceLink, F: Name>(
    alloc: Global,
    state: MasterState,
    pass: Pass<F>,
    ports: u8,
    links: &[L],
) -> Result<Arc<Shared<F>, Global>, AllocError>
    requires start { (state ≡ F.front.start.state) × (pass ≡ []) }
    requires ports { length links.now ≡ length state }
{
    let engine = Engine::new(alloc, state, pass, links)?;
    let shared = Shared {
        guarded: Mutex::new(Guarded::new(alloc, engine, ports)?),
        work: Condvar::new(),
        woken: Condvar::new(),
        reported: Condvar::new(),
    };
    match Arc::new(alloc, shared) {
        Ok(shared) => Ok(shared),
        Err(_) => Err(AllocError),
    }
}

// Starts the flusher, and then a worker for each port. If a thread cannot be made, ends the threads that were started.
fn begin<
    D: SectorDisk + Drop + Send + 'static,
    L: DeviceLink + Drop + Send + 'static,
    F: Name + 'static,
    R: Threads + Wait + Clock + Copy + Send + 'static,
>(
    rt: &R,
    alloc: Global,
    charge: Charge<D, F>,
    room: Room<L, F>,
) -> Result<Master<D, F>, StartFault<D>>
    requires pass { room.pass ≡ [] }
    requires room { vec_len room.served ≤ vec_capacity room.workers }
    requires empty { vec_len room.workers ≡ 0 }
    ensures started { IfOk result (λ master. master ≡ charge) }
    ensures fault { IfErr result (IsStartFault D.disk F.front.start charge (length F.front.start.state)) }
{
    let Room {
        pass,
        shared,
        theirs,
        served,
        workers,
    } = room;
    let promise = FromCharge(Snapshot::of(&charge));
    let rt = *rt;
    let started = thread::spawn_with(
        &rt,
        promise,
        move || -> Ending<D, F>
            ensures { IsEnding D.disk F.front.start charge result }
        { flush_all(rt, theirs, charge) },
    );
    let flusher = match started {
        Ok(flusher) => flusher,
        Err(refused) => {
            shared.guarded.lock(&rt).close();
            return Err(StartFault::Thread(disk_of((refused.value)())));
        }
    };
    match start_workers(&rt, alloc, served, workers) {
        Ok(workers) => Ok(Master {
            alloc,
            shared,
            pass,
            workers,
            flusher,
        }),
        Err(workers) => Err(StartFault::Thread(disk_of(end(&rt, &shared, workers, flusher)))),
    }
}

// Starts a worker for each port.
//
// # Errors
// A thread could not be made; returns the workers that were started.
fn start_workers<
    L: DeviceLink + Drop + Send + 'static,
    F: Name + 'static,
    R: Threads + Wait + Copy + Send + 'static,
>(
    rt: &R,
    alloc: Global,
    served: Vec<ServedPort<L, F>>,
    workers: Vec<JoinHandle<()>>,
) -> Result<Vec<JoinHandle<()>>, Vec<JoinHandle<()>>>
    requires room { vec_len served ≤ vec_capacity workers }
    requires empty { vec_len workers ≡ 0 }
    ensures { IfOk result (λ started. vec_len started ≡ vec_len served) }
{
    let rt = *rt;
    let mut workers = workers;
    let mut served = served;
    while let Some(port) = served.pop() {
        match thread::spawn(&rt, move || serve(rt, alloc, port)) {
            Ok(worker) => workers.push_reserved(worker),
            Err(_) => return Err(workers),
        }
    }
    Ok(workers)
}

// Waits until these workers have ended.
fn join_all<R: Threads>(rt: &R, workers: Vec<JoinHandle<()>>) {
    for worker in workers {
        worker.join(rt);
    }
}

// Returns the disk that a master leaves.
fn disk_of<D: SectorDisk, F: Name>(ending: Ending<D, F>) -> D
    ensures { (first : JournalView D) → IsEnding D.disk F.front.start first ending → IsLeft D.disk F.front.start first result }
{
    match ending {
        Ending::Closed(journal, _) => journal.disk(),
        Ending::Unwritten(journal, _) => journal.disk(),
        Ending::Faulted(disk, _) => disk,
    }
}
