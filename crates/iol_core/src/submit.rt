//! Commands that clients submit.

ghost use Rattle.std.specs.Prelude.{◌≡◌};
ghost use Rattle.iol_types.specs.Command.{command_of, value_of};
ghost use Rattle.iol_core.specs.Submit.{IsSubmit, submit_fault, ticket_state};

use crate::core_value::Core;
use crate::ticket::{SubmitFault, Ticket, TicketState};
use iol_front::Name;
use iol_types::{Change, Command};

impl<F: Name> Core<F> {
    /// Appends a change to the waiting commands, under the next number. It allocates no memory.
    ///
    /// # Errors
    /// The first cause that applies, in the order of [`SubmitFault`]: `Stopped`; `Command` if the change does not
    /// pass in the live state; `QueueFull` if 64 commands wait; `Exhausted` if the last number is 2^62. Nothing
    /// changes.
    pub fn submit(&mut self, change: Change) -> Result<Ticket, SubmitFault>
        ensures { IsSubmit self.old (command_of change) self.new result }
    {
        let command = command_of(&change);
        let same = command_of(&change);
        match self.submit_fault(&command) {
            Some(fault) => Err(fault),
            None => Ok(self.enqueue(command, same)),
        }
    }

    // Why a command is refused, or `None` if it is accepted.
    fn submit_fault(&self, command: &Command) -> Option<SubmitFault>
        ensures { result ≡ submit_fault self.now (value_of command.now) }
    {
        if self.is_stopped() {
            return Some(SubmitFault::Stopped);
        }
        match self.live().check(command) {
            Ok(()) => self.queue_fault(),
            Err(fault) => Some(SubmitFault::Command(fault)),
        }
    }

    /// Returns what is known of an accepted command.
    pub fn ticket(&self, ticket: Ticket) -> TicketState
        ensures { result ≡ ticket_state self.now ticket }
    {
        if ticket.number() <= self.number {
            TicketState::Durable
        } else if self.writes_no_more() {
            TicketState::Unsure
        } else {
            TicketState::Waiting
        }
    }
}

// The command of a change.
fn command_of(change: &Change) -> Command
    ensures { value_of result ≡ command_of change.now }
{
    change.command()
}
