//! Has requests read and answered, and then ends the master.

ghost use Rattle.std.specs.Prelude.{◌≡◌};
ghost use Rattle.iol_serve.specs.Ended.{fault_for};

use crate::hearing::Heard;
use crate::printing::Printer;
use crate::reporting::{Reporter, report_all};
use crate::responding::Responder;
use crossbeam_channel::Receiver;
use iol_answers::Event;
use iol_commands::Fault;
use iol_disk::SectorDisk;
use iol_front::Name;
use iol_master::{Ending, Master};
use iol_requests::Spelling;
use std::alloc::{AllocError, AllocFailed, Global};
use std::sync::Wait;
use std::sync::atomic::{AtomicBool, Ordering};
use std::thread;
use std::thread::{JoinHandle, Threads};
use std::time::Clock;

/// The ports and the number of a served master at its start, and how its events are printed.
#[derive(Clone, Copy)]
pub(crate) struct Served {
    pub(crate) ports: u8,
    /// The number of the last command that was durable at the start.
    pub(crate) number: u64,
    /// The spelling of events.
    pub(crate) spelling: Spelling,
}

/// The reason why nothing could be served.
#[derive(Clone, Copy, Debug)]
pub(crate) enum Unserved {
    /// Out of memory.
    Memory,
    /// A thread could not be made.
    Thread,
}

impl From<AllocError> for Unserved {
    fn from(_: AllocError) -> Unserved {
        Unserved::Memory
    }
}

impl<T: Drop> From<AllocFailed<T>> for Unserved {
    fn from(_: AllocFailed<T>) -> Unserved {
        Unserved::Memory
    }
}

impl From<Unserved> for Fault<'_> {
    ghost from_gives = { λ unserved fault. fault ≡ fault_for unserved };

    fn from(unserved: Unserved) -> Self {
        match unserved {
            Unserved::Memory => Fault::Memory,
            Unserved::Thread => Fault::Thread,
        }
    }
}

/// The way in which a serving master ended.
#[derive(Drop)]
pub(crate) struct Conducted<D: SectorDisk, F: Name> {
    pub(crate) ending: Ending<D, F>,
    pub(crate) started: Result<(), Unserved>,
}

// Serves a master until no more is requested, and then ends it.
pub(crate) fn conduct<
    D: SectorDisk + Drop + Send + 'static,
    F: Name + 'static,
    R: Threads + Wait + Clock + Copy + Send + 'static,
>(
    rt: &R,
    alloc: Global,
    mut master: Master<D, F>,
    served: Served,
    heard: &Receiver<Heard, Global>,
    ending: &AtomicBool,
    printer: Printer,
) -> Conducted<D, F> {
    printer.event(
        rt,
        alloc,
        served.spelling,
        &Event::Serving {
            ports: served.ports,
            commands: served.number,
        },
    );
    let reporter = start_reporter(rt, alloc, &mut master, served, &printer);
    let started = match &reporter {
        Ok(_) => serve(rt, alloc, &mut master, served, heard, &printer),
        Err(unserved) => Err(*unserved),
    };
    // Calls of links to drivers see this, and soon stop waiting.
    ending.store(true, Ordering::SeqCst);
    let ending = master.shutdown(rt);
    if let Ok(reporter) = reporter {
        let reporter = reporter.join(rt);
        let _ = report_all(rt, alloc, reporter, &printer);
    }
    if let Ending::Closed(journal, _) | Ending::Unwritten(journal, _) = &ending {
        printer.last_event(
            rt,
            alloc,
            served.spelling,
            &Event::Ended {
                number: journal.number(),
            },
        );
    }
    Conducted { ending, started }
}

// Starts the thread that reports what is new.
fn start_reporter<
    D: SectorDisk + Drop + Send + 'static,
    F: Name + 'static,
    R: Threads + Wait + Clock + Copy + Send + 'static,
>(
    rt: &R,
    alloc: Global,
    master: &mut Master<D, F>,
    served: Served,
    printer: &Printer,
) -> Result<JoinHandle<Reporter<F>>, Unserved> {
    let Served {
        ports,
        number,
        spelling,
    } = served;
    let reporter = Reporter::new(alloc, master.client()?, ports, number, spelling)?;
    let printer = printer.another()?;
    let rt = *rt;
    match thread::spawn(&rt, move || report_all(&rt, alloc, reporter, &printer)) {
        Ok(started) => Ok(started),
        Err(_) => Err(Unserved::Thread),
    }
}

// Has the requests answered as they come, by a thread for each port, until no more are to be answered.
//
// # Errors
// `Memory` if memory runs out, `Thread` if a thread cannot be made; nothing was read then.
fn serve<
    D: SectorDisk + Drop + Send + 'static,
    F: Name + 'static,
    R: Threads + Wait + Clock + Copy + Send + 'static,
>(
    rt: &R,
    alloc: Global,
    master: &mut Master<D, F>,
    served: Served,
    heard: &Receiver<Heard, Global>,
    printer: &Printer,
) -> Result<(), Unserved> {
    let mut responder = Responder::new(alloc, master)?;
    let started = responder.start_all(rt, alloc, master, served.ports, printer);
    if started.is_ok() {
        responder.serve(rt, alloc, heard, printer);
    }
    responder.end(rt);
    started
}
