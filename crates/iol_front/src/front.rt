//! A front before it has a name.

ghost use Rattle.std.specs.Prelude.{◌≡◌, ◌≤◌, [], IfOk};
ghost use Rattle.iol_journal.specs.Numbers.{LAST_NUMBER};

use crate::name::Name;
use crate::publisher::Publisher;
use crate::seat::{Board, FrontSeat, Opening};
use iol_types::MasterState;
use std::alloc::{AllocError, Global};
use std::marker::Model;
use std::snapshot::Snapshot;
use std::sync::Arc;

/// A front that has no name yet. Contracts see which front it is.
#[derive(Drop)]
pub struct Front {
    board: Arc<Board, Global>,
    seat: FrontSeat,
    number: u64,
}

impl Model for Front {
    ghost use Rattle.std.specs.Prelude.{◌≡◌, ◌≤◌, []};
    ghost use Rattle.std.specs.Arc.{arc_value};
    ghost use Rattle.iol_journal.specs.Numbers.{LAST_NUMBER};
    ghost use Rattle.iol_front.specs.Fronts.{FrontId};
    ghost use Rattle.iol_front.specs.Seats.{publisher};

    ghost Value = { FrontId };

    ghost view = { λ f. record {
      table = (arc_value f.board).shared.table_id;
      start = record { number = f.number; state = (arc_value f.board).shared.key.state.value };
    } };

    ghost invariant = { λ f. ((arc_value f.board).shared.table_id.words ≡ 1) × (f.seat.table_id ≡ (arc_value f.board).shared.table_id)
        × (f.seat.me ≡ (publisher (record { number = f.number; state = (arc_value f.board).shared.key.state.value }) [], []))
        × (f.number ≤ LAST_NUMBER) };
}

impl Front {
    /// Makes a front that starts with this number, 0 to [`LAST_NUMBER`](iol_journal::LAST_NUMBER), and this state, with
    /// nothing published yet. The state is not kept: only contracts see it.
    ///
    /// # Errors
    /// `AllocError` if out of memory.
    pub fn new(alloc: Global, start: u64, state: &MasterState) -> Result<Front, AllocError>
        requires { start ≤ LAST_NUMBER }
        ensures { IfOk result (λ front. front.start ≡ record { number = start; state = state.now }) }
    {
        let opening = Opening {
            number: start,
            state: Snapshot::of(state),
        };
        let (board, seat) = Board::of_words(alloc, &[start], &opening)?;
        let board = Arc::new(alloc, board)?;
        Ok(Front {
            board,
            seat,
            number: start,
        })
    }

    /// The publisher of this front, under the front's name. It allocates no memory.
    pub fn publisher<F: Name>(self) -> Publisher<F>
        requires { self ≡ F.front }
        ensures { result ≡ [] }
    {
        let Front {
            board,
            seat,
            number,
        } = self;
        Publisher::first(board, seat, number)
    }
}
