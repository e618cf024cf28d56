//! A pass, which has seen a prefix of the list.

ghost use Rattle.std.specs.Prelude.{◌≡◌, ◌+◌, ◌≤◌, true, [], length, IfOk};
ghost use mathlib.Core.List.{IsPrefix};
ghost use Rattle.std.specs.Arc.{arc_value};
ghost use Rattle.iol_journal.specs.Numbers.{LAST_NUMBER};
ghost use Rattle.iol_front.specs.Seats.{reader};

use crate::name::Name;
use crate::seat::{Board, FrontSeat, look_at, retire_seat, split_off, take_in};
use std::alloc::{AllocError, Global};
use std::marker::{Model, PhantomData};
use std::sync::Arc;

/// A pass has seen a prefix of the list, and counts its commands. Contracts see it as that prefix.
#[derive(Drop)]
pub struct Pass<F: Name> {
    board: Arc<Board, Global>,
    seat: FrontSeat,
    number: u64,
    of: PhantomData<F>,
}

impl<F: Name> Model for Pass<F> {
    ghost use Rattle.std.specs.Prelude.{◌≡◌, ◌+◌, ◌≤◌, List, [], length};
    ghost use Rattle.std.specs.Arc.{arc_value};
    ghost use Rattle.iol_types.specs.Command.{CommandValue};
    ghost use Rattle.iol_journal.specs.Numbers.{LAST_NUMBER};
    ghost use Rattle.iol_front.specs.Seats.{reader};

    ghost Value = { List CommandValue };

    ghost view = { λ p. p.seat.me.0.seen };

    ghost invariant = { λ p. ((arc_value p.board).shared.table_id ≡ F.front.table) × (F.front.table.words ≡ 1)
        × (p.seat.table_id ≡ F.front.table)
        × (p.seat.me ≡ (reader F.front.start p.seat.me.0.seen, [])) × (p.number ≡ F.front.start.number + length p.seat.me.0.seen)
        × (p.number ≤ LAST_NUMBER) };
}

impl<F: Name> Pass<F> {
    // Makes a pass at the table of its front, with a seat that has seen the commands up to this number.
    pub(crate) fn at(board: Arc<Board, Global>, seat: FrontSeat, number: u64) -> Pass<F>
        requires table { ((arc_value board).shared.table_id ≡ F.front.table) × (F.front.table.words ≡ 1) × (seat.table_id ≡ F.front.table) }
        requires seat { seat.me ≡ (reader F.front.start seat.me.0.seen, []) }
        requires number { number ≡ F.front.start.number + length seat.me.0.seen }
        requires bound { number ≤ LAST_NUMBER }
        ensures { result ≡ seat.me.0.seen }
    {
        Pass {
            board,
            seat,
            number,
            of: PhantomData,
        }
    }

    /// The number of the last command that it has seen, or the start number.
    pub fn count(&self) -> u64
        ensures count { result ≡ F.front.start.number + length self.now }
        ensures bound { result ≤ LAST_NUMBER }
    {
        self.number
    }

    /// Reads how many commands are published, and returns the number of the last one. It does not wait, and allocates
    /// no memory.
    pub fn look(&mut self) -> u64
        ensures kept { IsPrefix self.old self.new }
        ensures count { result ≡ F.front.start.number + length self.new }
        ensures bound { result ≤ LAST_NUMBER }
    {
        self.number = look_at(&self.board, &mut self.seat);
        self.number
    }

    /// Makes another pass that has seen the same commands.
    ///
    /// # Errors
    /// `AllocError` if out of memory, or if the front has as many passes as can be counted; this pass stays as it was.
    pub fn another(&mut self) -> Result<Pass<F>, AllocError>
        ensures same { self.new ≡ self.old }
        ensures pass { IfOk result (λ pass. pass ≡ self.old) }
    {
        let board = Arc::try_clone(&self.board)?;
        let seat = split_off(&self.board, &mut self.seat);
        Ok(Pass::at(board, seat, self.number))
    }

    /// Both passes look, the other first. What each has seen then begins with what either had seen before, and what the
    /// other has seen is a prefix of what this pass has seen.
    pub fn meet(&mut self, other: &mut Pass<F>)
        ensures kept { IsPrefix self.old self.new }
        ensures given { IsPrefix other.old other.new }
        ensures brought { IsPrefix self.old other.new }
        ensures met { IsPrefix other.new self.new }
    {
        other.learn(&mut self.seat);
        self.learn(&mut other.seat);
    }

    // Makes a seat that reports what this pass has seen.
    pub(crate) fn told(&mut self) -> FrontSeat
        ensures same { self.new ≡ self.old }
        ensures told { (result.table_id ≡ F.front.table) × (result.me ≡ (reader F.front.start self.old, [])) }
    {
        split_off(&self.board, &mut self.seat)
    }

    // Takes over what a seat of the same front has seen, and looks.
    pub(crate) fn learn(&mut self, seat: &mut FrontSeat)
        requires table { seat.old.table_id ≡ F.front.table }
        requires says { (seat.old.me.0.says ≡ true) × (seat.old.me.1 ≡ []) }
        ensures same { (seat.new.table_id ≡ seat.old.table_id) × (seat.new.me ≡ seat.old.me) }
        ensures kept { IsPrefix self.old self.new }
        ensures told { IsPrefix seat.old.me.0.seen self.new }
    {
        let told = split_off(&self.board, seat);
        take_in(&self.board, &mut self.seat, told);
        self.number = look_at(&self.board, &mut self.seat);
    }

    /// Ends the pass: from then on its seat says nothing. No clause says so, as no value of the pass is left.
    pub fn retire(self) {
        let Pass {
            board,
            mut seat,
            number: _,
            of: _,
        } = self;
        retire_seat(&board, &mut seat);
    }
}
