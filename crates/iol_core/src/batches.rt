//! Batches: taken for the disk, and acknowledged once they are published.

ghost use Rattle.std.specs.Prelude.{◌≡◌, ◌≤◌, ◌<◌, ◌+◌, ◌↔◌, ◌++◌, true, IsTrue, length, take, drop, IfOk, IfErr, IfSome, OnErr};
ghost use Rattle.std.specs.VecDeque.{deque_capacity};
ghost use mathlib.Core.List.{IsPrefix};
ghost use Rattle.iol_types.specs.Command.{value_of};
ghost use Rattle.iol_types.specs.State.{after, legal};
ghost use Rattle.iol_record.specs.declared.encode.TheConstants.{LARGEST_COMMAND_RECORD};
ghost use Rattle.iol_journal.specs.Body.{values};
ghost use Rattle.iol_journal.specs.Numbers.{LAST_NUMBER};
ghost use Rattle.iol_core.specs.Core.{live};
ghost use Rattle.iol_core.specs.Batches.{IsLongest, IsTake, IsInFlight, has_batch, IsStranger, acknowledged};

use crate::core_value::{Core, QUEUE_COMMANDS};
use iol_front::{Committed, Name};
use iol_journal::Batch;
use iol_record::{Version, command_record_octets};
use iol_types::{Command, MasterState};
use std::alloc::{AllocError, Global};
use std::collections::VecDeque;

/// Why a published batch is not acknowledged.
#[derive(Drop)]
pub enum AckFault<F: Name> {
    /// The batch is not the one in flight: it was not taken from this core, or is acknowledged already.
    Stranger(Committed<F>),
}

impl<F: Name> Core<F> {
    /// Returns the longest prefix of the queue whose records fit in `room` octets, as a batch under the next number.
    /// The batch is then in flight, and its commands stay in the queue. `None` if nothing waits, a batch is in flight,
    /// or nothing more is written.
    ///
    /// # Errors
    /// `AllocError` if out of memory; nothing changes.
    pub fn take_batch(&mut self, room: usize) -> Result<Option<Batch>, AllocError>
        requires { LARGEST_COMMAND_RECORD ≤ room }
        ensures take { IfOk result (λ batch. IsTake self.old room self.new batch) }
        ensures legal { IfOk result (λ batch. IfSome batch (λ b. legal self.old.durable (values b.commands.items) ≡ true)) }
        ensures bound { IfOk result (λ batch.
            IfSome batch (λ b. (length b.commands.items ≤ QUEUE_COMMANDS) × (b.first + length b.commands.items ≤ LAST_NUMBER + 1))) }
        ensures unchanged { OnErr result ((has_batch self.old ≡ true) × (self.new ≡ self.old)) }
    {
        if !self.has_batch() {
            return Ok(None);
        }
        let count = longest(&self.queue, room);
        let commands = copy_front(self.alloc, &self.queue, count)?;
        self.flight = count;
        Ok(Some(Batch {
            first: self.number + 1,
            commands,
        }))
    }

    // Whether a batch may be taken.
    fn has_batch(&self) -> bool
        ensures { result ≡ has_batch self.now }
    {
        !self.queue.is_empty() && self.flight == 0 && !self.writes_no_more()
    }

    /// Whether a published batch is the one in flight: it follows the durable commands and has the commands in flight.
    pub fn awaits(&self, committed: &Committed<F>) -> bool
        ensures { IsTrue result ↔ IsInFlight F.front.start self.now committed.now }
    {
        self.flight != 0
            && committed.first() == self.number + 1
            && is_front(committed, &self.queue, self.flight)
    }

    /// Removes the published batch in flight from the queue and applies it to the durable state; the core's own pass
    /// has then seen it. Returns the number of its last command. It allocates no memory.
    ///
    /// # Errors
    /// `Stranger` with the batch if it is not the one in flight; nothing changes.
    pub fn acknowledge(&mut self, mut committed: Committed<F>) -> Result<u64, AckFault<F>>
        ensures flight { IfOk result (λ _. IsInFlight F.front.start self.old committed) }
        ensures acknowledged { IfOk result (λ _. self.new ≡ acknowledged self.old self.new.seen) }
        ensures number { IfOk result (λ number. number ≡ self.new.number) }
        ensures live { live self.new ≡ live self.old }
        ensures seen { IfOk result (λ _. IsPrefix self.old.seen self.new.seen
            × IsPrefix (committed.before ++ committed.commands) self.new.seen) }
        ensures stranger { IfErr result (λ fault. IsStranger F.front.start self.old committed fault × (self.new ≡ self.old)) }
    {
        if !self.awaits(&committed) {
            return Err(AckFault::Stranger(committed));
        }
        committed.show(&mut self.pass);
        apply_front(&mut self.durable, &mut self.queue, self.flight);
        self.number += self.flight as u64;
        self.flight = 0;
        Ok(self.number)
    }
}

// The length of the longest prefix whose records fit in `room` octets.
fn longest(queue: &VecDeque<Command>, room: usize) -> usize
    requires { LARGEST_COMMAND_RECORD ≤ room }
    ensures longest { IsLongest room (values queue.now.items) result }
    ensures some { 0 < length queue.now.items → 1 ≤ result }
{
    let mut octets = 0;
    for count in 0..queue.len() {
        let next = command_record_octets(Version::newest(), &queue[count]);
        if room - octets < next {
            return count;
        }
        octets += next;
    }
    queue.len()
}

// Copies the first `count` commands; their sets are shared.
fn copy_front(
    alloc: Global,
    queue: &VecDeque<Command>,
    count: usize,
) -> Result<Vec<Command>, AllocError>
    requires { count ≤ length queue.now.items }
    ensures { IfOk result (λ commands. values commands.items ≡ take count (values queue.now.items)) }
{
    let mut commands = Vec::with_capacity(alloc, count)?;
    for place in 0..count {
        commands.push(queue[place].copy()?)?;
    }
    Ok(commands)
}

// Whether a batch has exactly the first `count` commands.
fn is_front<F: Name>(committed: &Committed<F>, queue: &VecDeque<Command>, count: usize) -> bool
    requires { count ≤ length queue.now.items }
    ensures { IsTrue result ↔ (committed.now.commands ≡ take count (values queue.now.items)) }
{
    if committed.len() != count {
        return false;
    }
    for place in 0..count {
        let Some(command) = committed.command(place) else {
            unreachable!()
        };
        if !is_same(command, &queue[place]) {
            return false;
        }
    }
    true
}

// Whether two commands are equal.
fn is_same(one: &Command, two: &Command) -> bool
    ensures { IsTrue result ↔ (value_of one.now ≡ value_of two.now) }
{
    *one == *two
}

// Removes the first `count` commands from the queue and applies them.
fn apply_front(durable: &mut MasterState, queue: &mut VecDeque<Command>, count: usize)
    requires count { count ≤ length queue.old.items }
    requires legal { legal durable.old (values queue.old.items) ≡ true }
    ensures durable { durable.new ≡ after durable.old (take count (values queue.old.items)) }
    ensures queue { values queue.new.items ≡ drop count (values queue.old.items) }
    ensures room { deque_capacity queue.new ≡ deque_capacity queue.old }
{
    for _done in 0..count {
        let Some(command) = queue.pop_front() else {
            unreachable!()
        };
        durable.apply(command);
    }
}
