//! The one value that publishes.

ghost use Rattle.std.specs.Prelude.{◌≡◌, ◌+◌, ◌≤◌, ◌++◌, [], length, IfOk};
ghost use mathlib.Core.List.{IsPrefix};
ghost use Rattle.std.specs.Arc.{arc_value};
ghost use Rattle.iol_journal.specs.Numbers.{LAST_NUMBER};
ghost use Rattle.iol_front.specs.Seats.{publisher};

use crate::committed::Committed;
use crate::name::Name;
use crate::pass::Pass;
use crate::seat::{Board, FrontSeat, add_batch, look_at, split_off, take_in};
use iol_journal::Written;
use std::alloc::{AllocError, Global};
use std::marker::{Model, PhantomData};
use std::sync::Arc;

/// Only the publisher appends batches to the list, and it cannot be copied. Contracts see it as the whole list.
#[derive(Drop)]
pub struct Publisher<F: Name> {
    board: Arc<Board, Global>,
    seat: FrontSeat,
    number: u64,
    of: PhantomData<F>,
}

impl<F: Name> Model for Publisher<F> {
    ghost use Rattle.std.specs.Prelude.{◌≡◌, ◌+◌, ◌≤◌, List, [], length};
    ghost use Rattle.std.specs.Arc.{arc_value};
    ghost use Rattle.iol_types.specs.Command.{CommandValue};
    ghost use Rattle.iol_journal.specs.Numbers.{LAST_NUMBER};
    ghost use Rattle.iol_front.specs.Seats.{publisher};

    ghost Value = { List CommandValue };

    ghost view = { λ p. p.seat.me.0.seen };

    ghost invariant = { λ p. ((arc_value p.board).shared.table_id ≡ F.front.table) × (F.front.table.words ≡ 1)
        × (p.seat.table_id ≡ F.front.table)
        × (p.seat.me ≡ (publisher F.front.start p.seat.me.0.seen, [])) × (p.number ≡ F.front.start.number + length p.seat.me.0.seen)
        × (p.number ≤ LAST_NUMBER) };
}

impl<F: Name> Publisher<F> {
    // Makes a publisher at the table of its front, with nothing published.
    pub(crate) fn first(board: Arc<Board, Global>, seat: FrontSeat, number: u64) -> Publisher<F>
        requires table { ((arc_value board).shared.table_id ≡ F.front.table) × (F.front.table.words ≡ 1) × (seat.table_id ≡ F.front.table) }
        requires seat { seat.me ≡ (publisher F.front.start [], []) }
        requires number { (number ≡ F.front.start.number) × (number ≤ LAST_NUMBER) }
        ensures { result ≡ [] }
    {
        Publisher {
            board,
            seat,
            number,
            of: PhantomData,
        }
    }

    /// The number of the last command that was published, or the start number.
    pub fn number(&self) -> u64
        ensures number { result ≡ F.front.start.number + length self.now }
        ensures bound { result ≤ LAST_NUMBER }
    {
        self.number
    }

    /// Makes a pass that has seen the whole list.
    ///
    /// # Errors
    /// `AllocError` if out of memory, or if the front has as many passes as can be counted; the publisher stays as it
    /// was.
    pub fn pass(&mut self) -> Result<Pass<F>, AllocError>
        ensures same { self.new ≡ self.old }
        ensures pass { IfOk result (λ pass. pass ≡ self.old) }
    {
        let board = Arc::try_clone(&self.board)?;
        let seat = split_off(&self.board, &mut self.seat);
        Ok(Pass::at(board, seat, self.number))
    }

    /// States that what a pass has seen is a prefix of the list. Nothing changes: it is for proofs, and costs three
    /// steps on the word.
    pub fn covers(&mut self, pass: &mut Pass<F>)
        ensures same { (self.new ≡ self.old) × (pass.new ≡ pass.old) }
        ensures begins { IsPrefix pass.old self.old }
    {
        let told = pass.told();
        take_in(&self.board, &mut self.seat, told);
        look_at(&self.board, &mut self.seat);
    }

    /// Appends a batch that is durable to the list, all at once. It allocates no memory.
    pub fn publish(&mut self, written: Written) -> Committed<F>
        requires { written.first ≡ F.front.start.number + length self.old + 1 }
        ensures list { self.new ≡ self.old ++ written.commands }
        ensures batch { (result.before ≡ self.old) × (result.commands ≡ written.commands) }
    {
        let batch = written.into_batch();
        self.number = add_batch(&self.board, &mut self.seat, self.number, &batch);
        let seat = split_off(&self.board, &mut self.seat);
        Committed::at(batch, seat)
    }
}
