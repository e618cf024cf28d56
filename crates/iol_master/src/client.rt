//! Clients of a master, which any threads may hold.

ghost use Rattle.std.specs.Prelude.{◌≡◌, ◌≢◌, ◌+◌, ◌-◌, ◌<◌, ◌≤◌, length, take, IfErr, IfNone, IfOk, IfSome, IsNone, IsTrue, OnErr, Some};
ghost use mathlib.Core.List.{IsPrefix};
ghost use Rattle.iol_types.specs.Command.{command_of};
ghost use Rattle.iol_types.specs.State.{port_numbered};
ghost use Rattle.iol_core.specs.Standing.{state_at};
ghost use Rattle.iol_headline.specs.Lists.{IsLawfulList, SetsWereUploaded};
ghost use Rattle.iol_headline.specs.Statuses.{IsLastReported};
ghost use Rattle.iol_master.specs.Faults.{IsCallFault, IsReadFault, IsRefused, IsUnknown, IsUntold};
ghost use Rattle.iol_master.specs.Answers.{IsToldBy};
ghost use Rattle.iol_master.specs.News.{IsNew, IsSo, known_after};
ghost use Rattle.iol_master.specs.Receipts.{IsReceiptFor};
ghost use Rattle.iol_master.specs.Watching.{IsWatchFault};

use crate::caller::{Caller, CallerAnswer, Notice};
use crate::guarded::Guarded;
use crate::news::{Known, News, wait_for_news};
use crate::watching::{WatchFault, watch};
use crossbeam_channel::Receiver;
use iol_core::{SubmitFault, View};
use iol_front::{Name, Pass};
use iol_port::PortStatus;
use iol_types::{Change, PortConfig, PortId};
use std::alloc::{AllocError, Global};
use std::marker::Model;
use std::sync::{Arc, Condvar, Mutex, Wait};
use thiserror::Error;

/// The values that the threads of a master share.
#[derive(Drop)]
pub(crate) struct Shared<F: Name> {
    pub(crate) guarded: Mutex<Guarded<F>>,
    // notified when the flusher has something to do
    pub(crate) work: Condvar,
    // notified when a port was woken, when what a port waits for is known, or when the run ends
    pub(crate) woken: Condvar,
    // notified when a port has another status, when more commands are durable, or when the run has ended
    pub(crate) reported: Condvar,
}

/// A client of a master: it requests changes, and reads what is durable. A contract sees the list of commands that it has seen.
#[derive(Drop)]
pub struct Client<F: Name> {
    alloc: Global,
    shared: Arc<Shared<F>, Global>,
    pass: Pass<F>,
}

impl<F: Name> Model for Client<F> {
    ghost use Rattle.std.specs.Prelude.{List};
    ghost use Rattle.iol_types.specs.Command.{CommandValue};

    ghost Value = { List CommandValue };

    ghost view = { λ c. c.pass };
}

/// A durable change: it has this number in the list of commands that the pass has seen.
#[derive(Drop)]
pub struct Receipt<F: Name> {
    /// The command's number, 1 to 2^62.
    pub number: u64,
    /// The change that was requested.
    pub command: Change,
    /// A pass that has seen the command, and all before it.
    pub pass: Pass<F>,
}

/// The reason why a change has no receipt.
#[derive(Clone, Copy, Debug, PartialEq, Eq, Error)]
pub enum CallFault {
    /// Out of memory; nothing was requested.
    #[error("out of memory")]
    Memory,
    /// The core refused the change.
    #[error("{0}")]
    Submit(SubmitFault),
    /// The disk failed before the change was known to be durable: a recovery may find it or not.
    #[error("not known to be durable")]
    Unsure,
    /// The change was accepted but is not written, as memory ran out for its batch. It is written later if memory is available before the
    /// master ends.
    #[error("out of memory to write it")]
    Unwritten,
}

/// The reason why a read returns nothing.
#[derive(Clone, Copy, Debug, PartialEq, Eq, Error)]
pub enum ReadFault {
    /// The master has no such port.
    #[error("no such port")]
    UnknownPort,
    /// Out of memory.
    #[error("out of memory")]
    Memory,
    /// The client has seen the commands up to this number, and the core has acknowledged fewer: call again.
    #[error("the client has seen the commands up to {seen}, and fewer are acknowledged")]
    Behind {
        /// The number of the last command that the client has seen.
        seen: u64,
    },
}

impl<F: Name> Client<F> {
    // Makes a client that has seen what the pass has.
    pub(crate) fn new(alloc: Global, shared: Arc<Shared<F>, Global>, pass: Pass<F>) -> Client<F>
        ensures { result ≡ pass }
    {
        Client {
            alloc,
            shared,
            pass,
        }
    }

    /// Gives a port a configuration, and waits until the change is durable. The client has then seen the command.
    ///
    /// # Errors
    /// `Memory`: out of memory, and nothing was requested. `Submit`: the core refuses the change, for this first cause. `Unsure`: the
    /// disk failed meanwhile. `Unwritten`: the flusher was out of memory for a second; the command is still written if memory is
    /// available before the master ends. What the client has seen does not change.
    pub fn configure<R: Wait>(
        &mut self,
        rt: &R,
        port: PortId,
        config: PortConfig,
    ) -> Result<Receipt<F>, CallFault>
        ensures kept { IsPrefix self.old self.new }
        ensures receipt { IfOk result (IsReceiptFor F.front.start (Change.Configure port config) self.old self.new) }
        ensures refused { IfErr result (λ fault. (self.new ≡ self.old)
            × IsCallFault F.front.start (F.front.start.number + length self.old) (command_of (Change.Configure port config)) fault) }
    {
        self.ask(rt, Change::Configure { port, config })
    }

    /// Deletes the parameter sets of a port, and waits until the change is durable. The client has then seen the command.
    ///
    /// # Errors
    /// The errors are those of `configure`.
    pub fn clear<R: Wait>(&mut self, rt: &R, port: PortId) -> Result<Receipt<F>, CallFault>
        ensures kept { IsPrefix self.old self.new }
        ensures receipt { IfOk result (IsReceiptFor F.front.start (Change.Clear port) self.old self.new) }
        ensures refused { IfErr result (λ fault. (self.new ≡ self.old)
            × IsCallFault F.front.start (F.front.start.number + length self.old) (command_of (Change.Clear port)) fault) }
    {
        self.ask(rt, Change::Clear { port })
    }

    /// Exchanges the parameter set of a port and its previous one, and waits until the change is durable. The client has then seen the
    /// command.
    ///
    /// # Errors
    /// The errors are those of `configure`.
    pub fn rollback<R: Wait>(&mut self, rt: &R, port: PortId) -> Result<Receipt<F>, CallFault>
        ensures kept { IsPrefix self.old self.new }
        ensures receipt { IfOk result (IsReceiptFor F.front.start (Change.Rollback port) self.old self.new) }
        ensures refused { IfErr result (λ fault. (self.new ≡ self.old)
            × IsCallFault F.front.start (F.front.start.number + length self.old) (command_of (Change.Rollback port)) fault) }
    {
        self.ask(rt, Change::Rollback { port })
    }

    /// Requests a change, and waits until it is durable, as `configure`, `clear` and `rollback` do. The client has then seen the command.
    ///
    /// # Errors
    /// The errors are those of `configure`.
    pub fn ask<R: Wait>(&mut self, rt: &R, change: Change) -> Result<Receipt<F>, CallFault>
        ensures kept { IsPrefix self.old self.new }
        ensures receipt { IfOk result (IsReceiptFor F.front.start change self.old self.new) }
        ensures refused { IfErr result (λ fault. (self.new ≡ self.old)
            × IsCallFault F.front.start (F.front.start.number + length self.old) (command_of change) fault) }
    {
        let Ok(pass) = self.pass.another() else {
            return Err(CallFault::Memory);
        };
        let Ok((answers, heard)) = crossbeam_channel::bounded(self.alloc, 1) else {
            return Err(CallFault::Memory);
        };
        let caller = Caller {
            change,
            pass,
            answers,
        };
        let number = match submit(rt, &self.shared, self.pass.count(), caller) {
            Ok(number) => number,
            Err(fault) => return Err(CallFault::Submit(fault)),
        };
        let notice = match hear(rt, &heard) {
            Ok(notice) => notice,
            Err(fault) => return Err(fault),
        };
        let (at, said, mut pass) = notice.into_parts();
        // No contract follows a value through a channel, so the notice is compared with the request.
        if at != number || !is_same(&said, &change) {
            return Err(CallFault::Unsure);
        }
        self.pass.meet(&mut pass);
        Ok(Receipt {
            number,
            command: said,
            pass,
        })
    }

    /// Returns the durable state of a port, with the number of the last durable command, which is not less than that of the last command
    /// that the client had seen.
    ///
    /// # Errors
    /// `Memory` if memory runs out, for a port that the master has; `UnknownPort` if it has no such port; `Behind` if the core has
    /// acknowledged fewer commands than the client has seen: call again.
    pub fn read<R: Wait>(&mut self, rt: &R, port: PortId) -> Result<View, ReadFault>
        ensures kept { IsPrefix self.old self.new }
        ensures number { IfOk result (λ view. (F.front.start.number + length self.old ≤ view.number)
            × (view.number ≤ F.front.start.number + length self.new)) }
        ensures port { IfOk result (λ view. port_numbered (state_at F.front.start self.new view.number) port ≡ Some view.port) }
        // A lawful trace has acknowledged exactly the commands that the client has seen up to that number. Each set of the port was there
        // at the start, or is that of one whole upload of such a trace, over one connection.
        ensures lawful { IfOk result (λ view. IsLawfulList F.front.start view.number (take (view.number - F.front.start.number) self.new)) }
        ensures sets { IfOk result (λ view. SetsWereUploaded F.front.start view.number
            (take (view.number - F.front.start.number) self.new) port view.port) }
        ensures refused { IfErr result (IsReadFault F.front.start.state port (F.front.start.number + length self.old)) }
    {
        let seen = self.pass.count();
        match view(rt, &self.shared, port, &mut self.pass) {
            Err(_) => Err(ReadFault::Memory),
            Ok(None) => Err(ReadFault::UnknownPort),
            Ok(Some(view)) if view.number < seen => Err(ReadFault::Behind { seen }),
            Ok(Some(view)) => Ok(view),
        }
    }

    /// Returns the status of a port, or `None` if the master has no such port. It is the status that a lawful trace reported last of the
    /// port.
    pub fn status<R: Wait>(&self, rt: &R, port: PortId) -> Option<PortStatus>
        ensures reported { IfSome result (IsLastReported F.front.start port) }
        ensures unknown { IfNone result (IsUnknown F.front.start.state port) }
    {
        self.shared.guarded.lock(rt).status(port)
    }

    /// Waits until a port has another status than `last`, and returns that status. It is the one that a lawful trace reported last of the
    /// port. If several changes came before the call, the client gets only the last status. The call does not poll: the port's thread
    /// wakes it.
    ///
    /// # Errors
    /// `UnknownPort` if the master has no such port; `Ended` once no port makes a step any more and the port still has the status `last`.
    /// `shutdown` wakes the waiting clients.
    pub fn watch<R: Wait>(
        &self,
        rt: &R,
        port: PortId,
        last: PortStatus,
    ) -> Result<PortStatus, WatchFault>
        ensures reported { IfOk result (IsLastReported F.front.start port) }
        ensures another { IfOk result (λ status. status ≢ last) }
        ensures refused { IfErr result (IsWatchFault F.front.start port last) }
    {
        watch(rt, &self.shared, port, last)
    }

    /// Waits until something is new since `known`, and returns it: a port has another status, or more commands are durable, which the
    /// client has then seen. The news is then part of `known`. If a status changed several times before the call, the client gets only
    /// the last one. Returns `None` once no port makes a step any more and nothing is new.
    ///
    /// The call does not poll: the threads of the ports and the flusher wake it. After `shutdown` it never waits.
    pub fn news<R: Wait>(&mut self, rt: &R, known: &mut Known) -> Option<News>
        ensures kept { IsPrefix self.old self.new }
        ensures new { IfSome result (IsNew known.old) }
        ensures so { IfSome result (IsSo F.front.start self.new) }
        ensures known { known.new ≡ known_after known.old result }
    {
        wait_for_news(rt, &self.shared, &mut self.pass, known)
    }

    /// Shows the client all that the pass has seen. What the pass has seen is then a prefix of what the client has seen. The call does
    /// not wait, and allocates nothing.
    pub fn meet(&mut self, pass: &mut Pass<F>)
        ensures kept { IsPrefix self.old self.new }
        ensures given { IsPrefix pass.old pass.new }
        ensures met { IsPrefix pass.new self.new }
    {
        self.pass.meet(pass);
    }
}

// Waits for the answer to an accepted change: the notice that it is durable, or why that is not known.
fn hear<F: Name, R: Wait>(
    rt: &R,
    heard: &Receiver<CallerAnswer<F>, Global>,
) -> Result<Notice<F>, CallFault>
    ensures { IfErr result IsUntold }
{
    told_by(heard.recv(rt).ok())
}

// Turns an answer into a notice or a fault. If no answer comes any more, the disk has failed.
fn told_by<F: Name>(answer: Option<CallerAnswer<F>>) -> Result<Notice<F>, CallFault>
    ensures answer { IsToldBy answer result }
    ensures untold { IfErr result IsUntold }
{
    match answer {
        Some(CallerAnswer::Durable(notice)) => Ok(notice),
        Some(CallerAnswer::Unwritten) => Err(CallFault::Unwritten),
        None => Err(CallFault::Unsure),
    }
}

// Returns whether two changes are the same.
fn is_same(one: &Change, other: &Change) -> bool
    ensures { IsTrue result → one.now ≡ other.now }
{
    one == other
}

// Submits a change once the core has all commands that the client has seen, and returns the change's number.
fn submit<F: Name, R: Wait>(
    rt: &R,
    shared: &Shared<F>,
    seen: u64,
    caller: Caller<F>,
) -> Result<u64, SubmitFault>
    ensures above { IfOk result (λ number. seen < number) }
    ensures refused { IfErr result (IsRefused F.front.start seen (command_of caller.change)) }
{
    for _ in rt.forever() {
        let mut guard = shared.woken.wait_while(
            rt,
            shared.guarded.lock(rt),
            |guarded| guarded.engine().live_number() < seen,
        );
        let guarded = &mut *guard;
        if guarded.engine().live_number() >= seen {
            let answer = guarded.submit(caller);
            drop(guard);
            if answer.is_ok() {
                shared.work.notify_all();
                shared.woken.notify_all();
            }
            return answer;
        }
    }
    unreachable!()
}

// Returns the durable state of a port. The pass has then seen each durable command.
fn view<F: Name, R: Wait>(
    rt: &R,
    shared: &Shared<F>,
    port: PortId,
    pass: &mut Pass<F>,
) -> Result<Option<View>, AllocError>
    ensures kept { IsPrefix pass.old pass.new }
    ensures number { IfOk result (λ found. IfSome found (λ view. view.number ≤ F.front.start.number + length pass.new)) }
    ensures port { IfOk result (λ found. IfSome found (λ view.
        port_numbered (state_at F.front.start pass.new view.number) port ≡ Some view.port)) }
    ensures lawful { IfOk result (λ found. IfSome found (λ view.
        IsLawfulList F.front.start view.number (take (view.number - F.front.start.number) pass.new))) }
    ensures unknown { IfOk result (λ found. IsNone found → IsUnknown F.front.start.state port) }
    ensures memory { OnErr result (IsUnknown F.front.start.state port → ⊥) }
{
    shared.guarded.lock(rt).view(port, pass)
}
