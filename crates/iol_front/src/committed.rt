//! A batch that is published.

ghost use Rattle.std.specs.Prelude.{◌≡◌, ◌+◌, ◌≤◌, ◌++◌, [], length, MatchOption, Some, slice_get};
ghost use mathlib.Core.List.{IsPrefix};
ghost use Rattle.iol_types.specs.Command.{value_of};
ghost use Rattle.iol_journal.specs.Body.{values};
ghost use Rattle.iol_journal.specs.Numbers.{LAST_NUMBER};
ghost use Rattle.iol_front.specs.Seats.{reader, before_last};

use crate::name::Name;
use crate::pass::Pass;
use crate::seat::FrontSeat;
use iol_journal::Batch;
use iol_types::Command;
use std::marker::{Model, PhantomData};

/// A batch that is published. It cannot be copied. Contracts see it with the commands before it.
#[derive(Drop)]
pub struct Committed<F: Name> {
    batch: Batch,
    seat: FrontSeat,
    of: PhantomData<F>,
}

impl<F: Name> Model for Committed<F> {
    ghost use Rattle.std.specs.Prelude.{◌≡◌, ◌+◌, ◌-◌, ◌≤◌, ◌++◌, [], length, take};
    ghost use Rattle.iol_journal.specs.Body.{values};
    ghost use Rattle.iol_journal.specs.Numbers.{LAST_NUMBER};
    ghost use Rattle.iol_front.specs.Fronts.{CommittedView};
    ghost use Rattle.iol_front.specs.Seats.{reader, before_last};

    ghost Value = { CommittedView };

    ghost view = { λ c. record {
      before = before_last c.seat.me.0.seen (values c.batch.commands.items);
      commands = values c.batch.commands.items;
    } };

    ghost invariant = { λ c. (c.seat.table_id ≡ F.front.table)
        × (c.seat.me ≡ (
          reader F.front.start (before_last c.seat.me.0.seen (values c.batch.commands.items)
              ++ values c.batch.commands.items),
          [],
        ))
        × (c.batch.first ≡ F.front.start.number + length (before_last c.seat.me.0.seen (values c.batch.commands.items)) + 1)
        × (c.batch.first + length c.batch.commands.items ≤ LAST_NUMBER + 1) };
}

impl<F: Name> Committed<F> {
    // Makes a committed batch of the batch that a seat has seen last.
    pub(crate) fn at(batch: Batch, seat: FrontSeat) -> Committed<F>
        requires table { seat.table_id ≡ F.front.table }
        requires seat { seat.me
            ≡ (reader F.front.start (before_last seat.me.0.seen (values batch.commands.items) ++ values batch.commands.items), []) }
        requires first { batch.first ≡ F.front.start.number + length (before_last seat.me.0.seen (values batch.commands.items)) + 1 }
        requires bound { batch.first + length batch.commands.items ≤ LAST_NUMBER + 1 }
        ensures { result ≡ record {
          before = before_last seat.me.0.seen (values batch.commands.items);
          commands = values batch.commands.items;
        } }
    {
        Committed {
            batch,
            seat,
            of: PhantomData,
        }
    }

    /// The number of the first command of the batch.
    pub fn first(&self) -> u64
        ensures first { result ≡ F.front.start.number + length self.now.before + 1 }
        ensures bound { result + length self.now.commands ≤ LAST_NUMBER + 1 }
    {
        self.batch.first
    }

    /// The number of commands of the batch.
    pub fn len(&self) -> usize
        ensures { result ≡ length self.now.commands }
    {
        self.batch.commands.len()
    }

    /// The command at this place of the batch, if there is one.
    pub fn command(&self, i: usize) -> Option<&Command>
        ensures { MatchOption result (length self.now.commands ≤ i) (λ command. slice_get self.now.commands i
            ≡ Some (value_of command.now)) }
    {
        self.batch.commands.get(i)
    }

    /// Shows the batch to a pass: from then on the pass has seen it. It allocates no memory.
    pub fn show(&mut self, pass: &mut Pass<F>)
        ensures same { self.new ≡ self.old }
        ensures kept { IsPrefix pass.old pass.new }
        ensures shown { IsPrefix (self.old.before ++ self.old.commands) pass.new }
    {
        pass.learn(&mut self.seat);
    }
}
