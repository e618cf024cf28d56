//! What a client can know of its command.

ghost use Rattle.std.specs.Prelude.{◌≡◌};

use iol_types::CommandFault;
use std::marker::Model;
use thiserror::Error;

/// An accepted command, identified by its number.
#[derive(Clone, Copy, Debug, PartialEq, Eq)]
pub struct Ticket {
    number: u64,
}

impl Model for Ticket {
    ghost use Rattle.std.specs.Prelude.{ℕ};

    ghost Value = { ℕ };

    ghost view = { λ t. t.number };

    ghost inverse = { λ n. record { number = n } };
}

impl Ticket {
    // Creates the ticket of the command with this number.
    pub(crate) fn of(number: u64) -> Ticket
        ensures { result ≡ number }
    {
        Ticket { number }
    }

    /// The number of the command.
    pub fn number(self) -> u64
        ensures { result ≡ self }
    {
        self.number
    }
}

/// What is known of a command.
#[derive(Clone, Copy, Debug, PartialEq, Eq)]
pub enum TicketState {
    /// The command waits for the disk.
    Waiting,
    /// The command is durable.
    Durable,
    /// Nothing more is written, and the command is not known to be durable: it may or may not be
    /// found after recovery.
    Unsure,
}

/// Why a command is refused. The causes are checked in this order.
#[derive(Clone, Copy, Debug, PartialEq, Eq, Error)]
pub enum SubmitFault {
    /// No more commands are accepted.
    #[error("the master has stopped")]
    Stopped,
    /// The command does not pass in the live state.
    #[error("{0}")]
    Command(CommandFault),
    /// 64 commands wait.
    #[error("the queue is full")]
    QueueFull,
    /// No number is left: the last one is 2^62.
    #[error("no number is left")]
    Exhausted,
}
