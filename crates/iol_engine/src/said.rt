//! The value of a command, as ghost state without octets.

ghost use Rattle.std.specs.Prelude.{◌≡◌};
ghost use Rattle.std.specs.Borrow.{ftrue};
ghost use Rattle.iol_types.specs.Command.{CommandValue};

use iol_types::Command;
use std::marker::Model;

/// The value of a command. It has no octets: only contracts see it, so that a trace needs no memory for a set.
#[derive(Drop)]
pub struct Said {
    pub ghost command: { CommandValue },
}

impl Model for Said {
    ghost also_owns = { λ _. ftrue };
}

// The command whose value a `Said` takes.
#[derive(Clone, Copy, Drop)]
struct Source<'a> {
    command: &'a Command,
}

impl Said {
    ghost use Rattle.iol_types.specs.Command.{value_of};
    ghost use Rattle.iol_engine.specs.Said.{said_of};

    // Makes the `Said` of a command.
    pub(crate) fn of(command: &Command) -> Said
        ensures { result.command ≡ value_of command.now }
    {
        Said::read_off(&Source { command })
    }

    // Makes a `Said`. The proof is by hand, since no code can set ghost state.
    fn read_off(_source: &Source<'_>) -> Said
        ensures { result ≡ said_of _source.now }
    {
        Said {}
    }
}
