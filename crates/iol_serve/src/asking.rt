//! The thread of a port, which carries out the requests of that port one after another.

ghost use Rattle.std.specs.Prelude.{◌≡◌};
ghost use mathlib.Core.List.{IsPrefix};
ghost use Rattle.iol_types.specs.Command.{command_of};
ghost use Rattle.iol_serve.specs.Outcomes.{HasAsked, HasDone, HasRead, SaysOutcome, call_refusal, port_of, read_refusal};

use crate::printing::Printer;
use crate::spelling::Spelled;
use crate::waiting::{Counted, Waiting};
use crossbeam_channel::Receiver;
use iol_answers::{Refusal, RequestAnswer};
use iol_core::View;
use iol_front::Name;
use iol_master::{CallFault, Client, ReadFault};
use iol_types::{Change, PortId};
use std::alloc::Global;
use std::sync::{Arc, Wait};
use std::thread;
use std::time::{Clock, Duration};

// The most reads of a port for one request, a millisecond apart, until what the client has seen is acknowledged.
const MOST_READS: u32 = 1000;

/// A task of a port's thread: a change to request, or a port to read.
#[derive(Clone, Copy, Debug)]
pub(crate) enum Task {
    Ask(Change),
    Read(PortId),
}

impl Task {
    // Returns the port of the task.
    pub(crate) fn port(&self) -> PortId
        ensures { result ≡ port_of self.now }
    {
        match self {
            Task::Ask(change) => change.port(),
            Task::Read(port) => *port,
        }
    }
}

/// A request of a port, which is counted among those that wait, and the spelling of its answer.
#[derive(Drop)]
pub(crate) struct PortRequest {
    pub(crate) task: Task,
    pub(crate) spelled: Spelled,
    pub(crate) counted: Counted,
}

// Answers the requests of a port in their order, until no more come.
pub(crate) fn answer_all<F: Name, R: Wait + Clock>(
    rt: &R,
    alloc: Global,
    mut client: Client<F>,
    requests: Receiver<PortRequest, Global>,
    printer: &Printer,
    waiting: &Waiting,
) {
    for request in requests.iter(rt) {
        let PortRequest {
            task,
            spelled,
            counted,
        } = request;
        let outcome = outcome_of(rt, &mut client, task);
        printer.answer(rt, alloc, &spelled, &outcome.answer());
        waiting.end(rt, counted);
    }
}

/// The outcome of a request of a port.
#[derive(Drop)]
enum Outcome {
    // The change is durable under this number.
    Durable(u64),
    // The port has this durable state.
    Found(PortId, View),
    Refused(Refusal),
}

impl Outcome {
    // Returns whether a read is to be made again.
    fn is_behind(&self) -> bool {
        matches!(self, Outcome::Refused(Refusal::Behind))
    }

    // Returns the answer that reports this outcome.
    fn answer(&self) -> RequestAnswer<'_>
        ensures { SaysOutcome self.now result }
    {
        match self {
            Outcome::Durable(number) => RequestAnswer::Receipt(*number),
            Outcome::Found(port, view) => RequestAnswer::Port {
                port: *port,
                state: &view.port,
            },
            Outcome::Refused(refusal) => RequestAnswer::Refused(*refusal),
        }
    }
}

// Carries out a task, and returns its outcome.
fn outcome_of<F: Name, R: Wait + Clock>(rt: &R, client: &mut Client<F>, task: Task) -> Outcome
    ensures kept { IsPrefix client.old client.new }
    ensures outcome { HasDone F.front.start client.old client.new task result }
{
    match task {
        Task::Ask(change) => ask(rt, client, change),
        Task::Read(port) => read(rt, client, port),
    }
}

// Requests a change, and returns its outcome.
fn ask<F: Name, R: Wait>(rt: &R, client: &mut Client<F>, change: Change) -> Outcome
    ensures kept { IsPrefix client.old client.new }
    ensures outcome { HasAsked F.front.start client.old client.new (command_of change) result }
{
    match client.ask(rt, change) {
        Ok(receipt) => Outcome::Durable(receipt.number),
        Err(fault) => Outcome::Refused(call_refusal(fault)),
    }
}

// Returns the refusal that answers a fault of a change.
fn call_refusal(fault: CallFault) -> Refusal
    ensures { result ≡ call_refusal fault }
{
    match fault {
        CallFault::Memory => Refusal::Memory,
        CallFault::Submit(fault) => Refusal::Submit(fault),
        CallFault::Unsure => Refusal::Unsure,
        CallFault::Unwritten => Refusal::Unwritten,
    }
}

// Reads the durable state of a port. If the core has acknowledged fewer commands than the client has seen, which passes, it reads
// again, for a second.
fn read<F: Name, R: Wait + Clock>(rt: &R, client: &mut Client<F>, port: PortId) -> Outcome
    ensures kept { IsPrefix client.old client.new }
    ensures outcome { HasRead F.front.start client.old client.new port result }
{
    for _ in 0..MOST_READS {
        let outcome = read_once(rt, client, port);
        if !outcome.is_behind() {
            return outcome;
        }
        thread::sleep(rt, Duration::from_millis(1));
    }
    Outcome::Refused(Refusal::Behind)
}

// Reads the durable state of a port once.
fn read_once<F: Name, R: Wait>(rt: &R, client: &mut Client<F>, port: PortId) -> Outcome
    ensures kept { IsPrefix client.old client.new }
    ensures outcome { HasRead F.front.start client.old client.new port result }
{
    match client.read(rt, port) {
        Ok(view) => Outcome::Found(port, view),
        Err(fault) => Outcome::Refused(read_refusal(fault)),
    }
}

// Returns the refusal that answers a fault of a read.
fn read_refusal(fault: ReadFault) -> Refusal
    ensures { result ≡ read_refusal fault }
{
    match fault {
        ReadFault::UnknownPort => Refusal::UnknownPort,
        ReadFault::Memory => Refusal::Memory,
        ReadFault::Behind { .. } => Refusal::Behind,
    }
}
