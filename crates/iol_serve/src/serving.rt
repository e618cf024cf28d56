//! A serving master on any disk, with any links.

ghost use Rattle.std.specs.Prelude.{◌≡◌, [], length, vec_len, IfErr};
ghost use Rattle.iol_commands.specs.Fault.{status_of};
ghost use Rattle.iol_serve.specs.Ended.{answered};

use crate::conducting::{Conducted, Served, conduct};
use crate::hearing::{Heard, Lines, hand_on};
use crate::printing::{Printed, Printer, PrintingThread, Prompt, printing};
use crossbeam_channel::{Receiver, Sender};
use iol_commands::Fault;
use iol_disk::SectorDisk;
use iol_front::{Front, Name};
use iol_journal::Journal;
use iol_link::DeviceLink;
use iol_master::{Ending, Master, StartFault};
use iol_requests::Spelling;
use iol_types::MasterState;
use std::alloc::Global;
use std::io::{Read, Write};
use std::marker::Brand;
use std::sync::Wait;
use std::sync::atomic::AtomicBool;
use std::thread;
use std::thread::{JoinHandle, Threads};
use std::time::Clock;

/// The input from which requests are read, the output to which answers and events are printed, and how.
#[derive(Drop)]
pub struct Conversation<I, W> {
    pub input: I,
    pub output: W,
    /// The spelling of events.
    pub spelling: Spelling,
    pub prompt: Prompt,
}

/// Serves a master over a journal that was just recovered, with its state and a link for each port, until no more is requested. Answers
/// and events are printed as they come. `ending` is set once all requests are answered, and before the ports are to settle. The thread
/// that reads is not joined, since it may still wait for a line.
///
/// # Errors
/// `Memory` or `Thread` if the master or the threads that read and print do not start. Then `Disk` if a disk call failed, `Memory` if
/// memory ran out for the waiting commands, and `Memory` or `Thread` if requests could not be served. What has a receipt is durable in
/// each case.
pub fn serve<
    D: SectorDisk + Drop + Send + 'static,
    L: DeviceLink + Drop + Send + 'static,
    I: Read + Drop + Send + 'static,
    W: Write + Drop + Send + 'static,
    R: Threads + Wait + Clock + Copy + Send + 'static,
>(
    rt: &R,
    alloc: Global,
    journal: Journal<D>,
    state: MasterState,
    links: Vec<L>,
    conversation: Conversation<I, W>,
    ending: &AtomicBool,
) -> Result<Printed, Fault<'static>>
    requires state { state ≡ journal.standing.state }
    requires history { journal.history
        ≡ record { first = journal.standing.number; start = journal.standing.state; commands = [] } }
    requires links { vec_len links ≡ length state }
    ensures status { IfErr result (λ fault. status_of fault ≡ 1) }
{
    let Ok(front) = Front::new(alloc, journal.number(), &state) else {
        return Err(Fault::Memory);
    };
    serve_with_front::<D, L, Brand, I, W, R>(
        rt,
        alloc,
        front,
        journal,
        state,
        links,
        conversation,
        ending,
    )
}

// Serves a master under the name of a front that starts with its journal.
fn serve_with_front<
    D: SectorDisk + Drop + Send + 'static,
    L: DeviceLink + Drop + Send + 'static,
    F: Name + 'static,
    I: Read + Drop + Send + 'static,
    W: Write + Drop + Send + 'static,
    R: Threads + Wait + Clock + Copy + Send + 'static,
>(
    rt: &R,
    alloc: Global,
    front: Front,
    journal: Journal<D>,
    state: MasterState,
    links: Vec<L>,
    conversation: Conversation<I, W>,
    ending: &AtomicBool,
) -> Result<Printed, Fault<'static>>
    requires name { front ≡ F.front }
    requires start { front.start ≡ record { number = journal.standing.number; state = journal.standing.state } }
    requires state { state ≡ journal.standing.state }
    requires history { journal.history
        ≡ record { first = journal.standing.number; start = journal.standing.state; commands = [] } }
    requires links { vec_len links ≡ length state }
    ensures status { IfErr result (λ fault. status_of fault ≡ 1) }
{
    let served = Served {
        ports: state.ports(),
        number: journal.number(),
        spelling: conversation.spelling,
    };
    let publisher = front.publisher::<F>();
    match Master::start(rt, alloc, journal, state, publisher, links) {
        Ok(master) => run(rt, alloc, master, served, conversation, ending),
        Err(fault) => Err(of_start(&fault)),
    }
}

// Returns the fault if a master with a link for each port does not start.
fn of_start<D: SectorDisk>(fault: &StartFault<D>) -> Fault<'static>
    ensures { status_of result ≡ 1 }
{
    match fault {
        StartFault::Ports(_) => Fault::Fit,
        StartFault::Memory(_) => Fault::Memory,
        StartFault::Thread(_) => Fault::Thread,
    }
}

// Starts the threads that read and print, and conducts the master meanwhile, until all is answered and printed.
fn run<
    D: SectorDisk + Drop + Send + 'static,
    F: Name + 'static,
    I: Read + Drop + Send + 'static,
    W: Write + Drop + Send + 'static,
    R: Threads + Wait + Clock + Copy + Send + 'static,
>(
    rt: &R,
    alloc: Global,
    master: Master<D, F>,
    served: Served,
    conversation: Conversation<I, W>,
    ending: &AtomicBool,
) -> Result<Printed, Fault<'static>>
    ensures status { IfErr result (λ fault. status_of fault ≡ 1) }
{
    match start_streams(rt, alloc, conversation) {
        Ok(streams) => {
            let StreamThreads {
                printer,
                printing,
                heard,
            } = streams;
            let conducted = conduct(rt, alloc, master, served, &heard, ending, printer);
            ended(conducted, printing.join(rt))
        }
        Err(fault) => {
            let _ = master.shutdown(rt);
            Err(fault)
        }
    }
}

/// The handles to the threads that read and print.
#[derive(Drop)]
struct StreamThreads {
    printer: Printer,
    printing: JoinHandle<Printed>,
    heard: Receiver<Heard, Global>,
}

// Starts the threads that print and read.
//
// # Errors
// `Memory` if memory runs out, `Thread` if a thread cannot be made.
fn start_streams<
    I: Read + Drop + Send + 'static,
    W: Write + Drop + Send + 'static,
    R: Threads + Wait + Clock + Copy + Send + 'static,
>(rt: &R, alloc: Global, conversation: Conversation<I, W>) -> Result<StreamThreads, Fault<'static>>
    ensures status { IfErr result (λ fault. status_of fault ≡ 1) }
{
    let Conversation {
        input,
        output,
        spelling: _,
        prompt,
    } = conversation;
    // One line is read ahead.
    let Ok((hearer, heard)) = crossbeam_channel::bounded(alloc, 1) else {
        return Err(Fault::Memory);
    };
    let Ok(other_hearer) = hearer.clone() else {
        return Err(Fault::Memory);
    };
    let Ok((printer, thread)) = printing(alloc, prompt) else {
        return Err(Fault::Memory);
    };
    let Ok(lines) = Lines::new(alloc, input) else {
        return Err(Fault::Memory);
    };
    let printing = start_printing(rt, thread, output, other_hearer)?;
    start_reader(rt, alloc, lines, hearer)?;
    Ok(StreamThreads {
        printer,
        printing,
        heard,
    })
}

// Starts the thread that prints.
fn start_printing<
    W: Write + Drop + Send + 'static,
    R: Threads + Wait + Clock + Copy + Send + 'static,
>(
    rt: &R,
    thread: PrintingThread,
    output: W,
    hearer: Sender<Heard, Global>,
) -> Result<JoinHandle<Printed>, Fault<'static>>
    ensures status { IfErr result (λ fault. status_of fault ≡ 1) }
{
    let rt = *rt;
    match thread::spawn(&rt, move || thread.run(&rt, output, &hearer)) {
        Ok(started) => Ok(started),
        Err(_) => Err(Fault::Thread),
    }
}

// Starts the thread that reads. Nobody waits for its end, since it may wait for a line forever.
fn start_reader<I: Read + Drop + Send + 'static, R: Threads + Wait + Clock + Copy + Send + 'static>(
    rt: &R,
    alloc: Global,
    lines: Lines<I>,
    hearer: Sender<Heard, Global>,
) -> Result<(), Fault<'static>>
    ensures status { IfErr result (λ fault. status_of fault ≡ 1) }
{
    let rt = *rt;
    match thread::spawn(&rt, move || hand_on(&rt, alloc, lines, &hearer)) {
        Ok(_reader) => Ok(()),
        Err(_) => Err(Fault::Thread),
    }
}

// Returns the result of serving a master that has ended.
fn ended<D: SectorDisk + Drop, F: Name>(
    conducted: Conducted<D, F>,
    printed: Printed,
) -> Result<Printed, Fault<'static>>
    ensures answer { result ≡ answered conducted.ending conducted.started printed }
    ensures status { IfErr result (λ fault. status_of fault ≡ 1) }
{
    let Conducted { ending, started } = conducted;
    match (ending, started) {
        (Ending::Faulted(_, _), _) => Err(Fault::Disk),
        (Ending::Unwritten(_, _), _) => Err(Fault::Memory),
        (Ending::Closed(_, _), Err(unserved)) => Err(Fault::from(unserved)),
        (Ending::Closed(_, _), Ok(())) => Ok(printed),
    }
}
