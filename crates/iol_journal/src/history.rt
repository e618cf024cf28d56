//! What a journal has done since it was recovered, as a ghost value.

ghost use Rattle.std.specs.Prelude.{◌≡◌, ℕ, List, []};
ghost use Rattle.std.specs.Borrow.{ftrue};
ghost use Rattle.iol_types.specs.Command.{CommandValue};
ghost use Rattle.iol_types.specs.State.{State};

use crate::batch::Batch;
use iol_types::MasterState;
use std::marker::Model;

/// What a journal has done since it was recovered: the number and the state that were found, and the commands
/// written since. It is ghost state that only contracts see.
#[derive(Drop)]
pub struct History {
    pub ghost first: { ℕ },
    pub ghost start: { State },
    pub ghost commands: { List CommandValue },
}

impl Model for History {
    ghost also_owns = { λ _. ftrue };
}

// It owns nothing, so it may be sent to another thread.
unsafe impl Send for History {}

// The values from which a history is made.
#[derive(Clone, Copy, Drop)]
enum Source<'a> {
    // the number and the state that recovery found
    Begun(u64, &'a MasterState),
    // the history so far, and a batch written after it
    Continued(&'a History, &'a Batch),
    // the number and the state that a history leads to, and the commands of another history after them
    Ended(&'a History, &'a History),
    // only the commands of a batch
    Alone(&'a Batch),
}

impl History {
    ghost use Rattle.iol_journal.specs.History.{history_of, ended_after};
    ghost use Rattle.iol_layout.specs.Body.{values};
    ghost use Rattle.iol_journal.specs.Planned.{written_after};

    /// The history after recovery found this number and state: nothing is written since.
    pub fn begun(number: u64, state: &MasterState) -> History
        ensures { result ≡ record { first = number; start = state.now; commands = [] } }
    {
        History::read_off(&Source::Begun(number, state))
    }

    /// The history with one more batch written.
    pub fn with_batch(&self, batch: &Batch) -> History
        ensures { result ≡ written_after self.now (values batch.now.commands.items) }
    {
        History::read_off(&Source::Continued(self, batch))
    }

    /// An empty history that begins where this one leads to, followed by the commands of `batch`.
    pub fn behind(&self, batch: &History) -> History
        ensures { result ≡ ended_after self.now batch.now }
    {
        History::read_off(&Source::Ended(self, batch))
    }

    /// A history of which only the commands matter: those of a batch.
    pub fn of(batch: &Batch) -> History
        ensures { result.commands ≡ values batch.now.commands.items }
    {
        History::read_off(&Source::Alone(batch))
    }

    // Proved by hand, because no code can set ghost state.
    fn read_off(_source: &Source<'_>) -> History
        ensures { result ≡ history_of _source.now }
    {
        History {}
    }
}
