//! The clients of a script: one for each port that has changes, each in a thread of its own.
ghost use Rattle.std.specs.Prelude.{◌≡◌, IfErr, IfOk, MatchResult, None, Some};
ghost use Rattle.iol_commands.specs.Fault.{status_of};
ghost use Rattle.iol_live.specs.Asked.{changes_of};
ghost use Rattle.iol_live.specs.Ends.{missing_with, unreceived};
ghost use Rattle.iol_live.specs.Lived.{IsRunCause};

use crate::telling::{PortReceipt, Telling};
use crossbeam_channel::{Receiver, Sender};
use iol_commands::Fault;
use iol_disk::SectorDisk;
use iol_front::Name;
use iol_master::{CallFault, Client, Master};
use iol_types::{Change, PORTS, PortId};
use std::alloc::{AllocError, Global};
use std::io::Write;
use std::sync::Wait;
use std::thread;
use std::thread::{JoinHandle, Threads};

// The most receipts that wait to be reported.
const ROOM: usize = 64;

// The clients that were started. Each ends with the fault of its first call without a receipt, if it has one.
type Asking = Vec<JoinHandle<Result<(), CallFault>>>;

// Has clients request changes of a master, those of each port one after another, and reports each receipt as it comes. On success
// there is one receipt for each change.
//
// # Errors
// `Memory` or `Thread` if a client cannot be started; then `Memory` if memory ran out for an accepted change, and `Call` if
// another change has no receipt. All clients that were started have ended.
pub(crate) fn ask_all<
    D: SectorDisk + Drop + Send + 'static,
    F: Name + 'static,
    E: Write,
    R: Threads + Wait + Copy + Send + 'static,
>(
    rt: &R,
    alloc: Global,
    master: &mut Master<D, F>,
    changes: &[Change],
    telling: Telling,
    err: &mut E,
) -> Result<(), Fault<'static>>
    ensures same { master.new ≡ master.old }
    ensures silent { telling ≡ Telling.Nothing → err.new ≡ err.old }
    ensures cause { IfErr result IsRunCause }
    ensures status { IfErr result (λ fault. status_of fault ≡ 1) }
{
    let mut clients = Vec::with_capacity(alloc, usize::from(PORTS))?;
    let Ok((told, heard)) = crossbeam_channel::bounded(alloc, ROOM) else {
        return Err(Fault::Memory);
    };
    let started = start_clients(rt, alloc, master, changes, told, &mut clients);
    let count = hear(rt, heard, telling, err);
    let granted = join_all(rt, clients);
    started?;
    granted?;
    if count == changes.len() {
        Ok(())
    } else {
        Err(Fault::Call)
    }
}

// Starts a client for each port that has changes, port 1 first. After that only the clients report receipts.
//
// # Errors
// `Memory` if memory runs out, `Thread` if a thread cannot be made; the clients that were started continue.
fn start_clients<
    D: SectorDisk + Drop + Send + 'static,
    F: Name + 'static,
    R: Threads + Wait + Copy + Send + 'static,
>(
    rt: &R,
    alloc: Global,
    master: &mut Master<D, F>,
    changes: &[Change],
    told: Sender<PortReceipt, Global>,
    clients: &mut Asking,
) -> Result<(), Fault<'static>>
    ensures same { master.new ≡ master.old }
    ensures cause { IfErr result IsRunCause }
    ensures status { IfErr result (λ fault. status_of fault ≡ 1) }
{
    for number in 1..=PORTS {
        start_at(rt, alloc, master, changes, number, &told, clients)?;
    }
    Ok(())
}

// Starts a client for the port with this number, if it has changes.
//
// # Errors
// `Memory` if memory runs out, `Thread` if the thread cannot be made.
fn start_at<
    D: SectorDisk + Drop + Send + 'static,
    F: Name + 'static,
    R: Threads + Wait + Copy + Send + 'static,
>(
    rt: &R,
    alloc: Global,
    master: &mut Master<D, F>,
    changes: &[Change],
    number: u8,
    told: &Sender<PortReceipt, Global>,
    clients: &mut Asking,
) -> Result<(), Fault<'static>>
    ensures same { master.new ≡ master.old }
    ensures cause { IfErr result IsRunCause }
    ensures status { IfErr result (λ fault. status_of fault ≡ 1) }
{
    let asked = changes_of(alloc, changes, number)?;
    if asked.is_empty() {
        Ok(())
    } else {
        start_client(rt, master, asked, told, clients)
    }
}

// Returns the changes of the port with this number, in their order.
fn changes_of(alloc: Global, changes: &[Change], number: u8) -> Result<Vec<Change>, AllocError>
    ensures { IfOk result (λ asked. asked.items ≡ changes_of number changes.now) }
{
    let mut asked = Vec::new(alloc);
    for change in changes {
        if change.port().number() == number {
            asked.push(*change)?;
        }
    }
    Ok(asked)
}

// Starts a client that requests these changes.
//
// # Errors
// `Memory` if memory runs out, `Thread` if the thread cannot be made.
fn start_client<
    D: SectorDisk + Drop + Send + 'static,
    F: Name + 'static,
    R: Threads + Wait + Copy + Send + 'static,
>(
    rt: &R,
    master: &mut Master<D, F>,
    asked: Vec<Change>,
    told: &Sender<PortReceipt, Global>,
    clients: &mut Asking,
) -> Result<(), Fault<'static>>
    ensures same { master.new ≡ master.old }
    ensures cause { IfErr result IsRunCause }
    ensures status { IfErr result (λ fault. status_of fault ≡ 1) }
{
    match ends_of(master, told) {
        Ok((client, told)) => spawn_client(rt, client, asked, told, clients),
        Err(_) => Err(Fault::Memory),
    }
}

// Makes a further client of a master, and the sender for its receipts.
fn ends_of<D: SectorDisk + Drop + Send + 'static, F: Name + 'static>(
    master: &mut Master<D, F>,
    told: &Sender<PortReceipt, Global>,
) -> Result<(Client<F>, Sender<PortReceipt, Global>), AllocError>
    ensures { master.new ≡ master.old }
{
    let told = told.clone()?;
    match master.client() {
        Ok(client) => Ok((client, told)),
        Err(fault) => Err(fault),
    }
}

// Starts the thread of a client.
//
// # Errors
// `Memory` if memory runs out, `Thread` if the thread cannot be made.
fn spawn_client<F: Name + 'static, R: Threads + Wait + Copy + Send + 'static>(
    rt: &R,
    client: Client<F>,
    asked: Vec<Change>,
    told: Sender<PortReceipt, Global>,
    clients: &mut Asking,
) -> Result<(), Fault<'static>>
    ensures cause { IfErr result IsRunCause }
    ensures status { IfErr result (λ fault. status_of fault ≡ 1) }
{
    let rt = *rt;
    match thread::spawn(&rt, move || ask(&rt, client, &asked, &told)) {
        Ok(started) => Ok(clients.push(started)?),
        Err(_) => Err(Fault::Thread),
    }
}

// Requests changes, one after another, and reports each receipt. Ends at the first change that has none.
fn ask<F: Name, R: Wait>(
    rt: &R,
    mut client: Client<F>,
    asked: &[Change],
    told: &Sender<PortReceipt, Global>,
) -> Result<(), CallFault> {
    for change in asked {
        match number_of(rt, &mut client, *change) {
            Ok(number) => tell(rt, told, change.port(), number),
            Err(fault) => return Err(fault),
        }
    }
    Ok(())
}

// Reports a receipt. A receipt that nobody receives is not counted.
fn tell<R: Wait>(rt: &R, told: &Sender<PortReceipt, Global>, port: PortId, number: u64) {
    let _ = told.send(rt, PortReceipt { port, number });
}

// Requests a change, and returns the number under which it is durable, if the client gets its receipt.
fn number_of<F: Name, R: Wait>(
    rt: &R,
    client: &mut Client<F>,
    change: Change,
) -> Result<u64, CallFault> {
    match client.ask(rt, change) {
        Ok(receipt) => Ok(receipt.number),
        Err(fault) => Err(fault),
    }
}

// Reports each receipt as it comes, until all clients have ended, and returns the number of receipts.
fn hear<E: Write, R: Wait>(
    rt: &R,
    heard: Receiver<PortReceipt, Global>,
    telling: Telling,
    err: &mut E,
) -> usize
    ensures { telling ≡ Telling.Nothing → err.new ≡ err.old }
{
    let mut count = 0usize;
    for told in heard.iter(rt) {
        count = count.saturating_add(1);
        telling.tell(err, told, count);
    }
    telling.end(err, count);
    count
}

// Waits until these clients have ended.
//
// # Errors
// `Memory` if memory ran out for an accepted change, then `Call` if another change has no receipt.
fn join_all<R: Threads>(rt: &R, clients: Asking) -> Result<(), Fault<'static>>
    ensures cause { IfErr result IsRunCause }
    ensures status { IfErr result (λ fault. status_of fault ≡ 1) }
{
    let mut missing = Missing {
        unwritten: false,
        refused: false,
    };
    for client in clients {
        missing = missing.with(client.join(rt));
    }
    told_of(missing.unwritten, missing.refused)
}

/// The receipts that clients miss: of an accepted change for which memory ran out, and of a change that was refused or is not
/// known to be durable.
#[derive(Clone, Copy)]
struct Missing {
    unwritten: bool,
    refused: bool,
}

impl Missing {
    // Returns the missing receipts once one more client has ended with this result.
    fn with(self, ended: Result<(), CallFault>) -> Missing
        ensures { result ≡ missing_with self ended }
    {
        match ended {
            Ok(()) => self,
            Err(CallFault::Unwritten) => Missing {
                unwritten: true,
                refused: self.refused,
            },
            Err(_) => Missing {
                unwritten: self.unwritten,
                refused: true,
            },
        }
    }
}

// Returns why receipts are missing, if any are: memory ran out for an accepted change, or otherwise a change was refused or is
// not known to be durable.
fn told_of(unwritten: bool, refused: bool) -> Result<(), Fault<'static>>
    ensures told { MatchResult result (λ _. unreceived unwritten refused ≡ None) (λ fault. unreceived unwritten refused ≡ Some fault) }
    ensures cause { IfErr result IsRunCause }
    ensures status { IfErr result (λ fault. status_of fault ≡ 1) }
{
    if unwritten {
        Err(Fault::Memory)
    } else if refused {
        Err(Fault::Call)
    } else {
        Ok(())
    }
}
