//! The word, its rule, and the five kinds of step that a seat makes on the word.

ghost use Rattle.std.specs.Prelude.{◌≡◌, ◌+◌, ◌≤◌, true, [], length};
ghost use Rattle.iol_journal.specs.Body.{values};
ghost use Rattle.iol_journal.specs.Numbers.{LAST_NUMBER};
ghost use Rattle.iol_front.specs.Seats.{another_of, told_by, silent};
ghost use Rattle.iol_front.specs.Rule.{LooksAt, Grows};

use atomic_table::{Join, Play, Seat, Split, Table, TableRule};
use iol_journal::Batch;
use iol_types::MasterState;
use std::alloc::Global;
use std::marker::Model;
use std::snapshot::Snapshot;

// What a seat knows. No value of this type is made: it is ghost state, which only contracts see.
pub struct View;

impl Model for View {
    ghost use Rattle.iol_front.specs.Seats.{SeatView, silent};

    ghost Value = { SeatView };

    ghost view = { λ _. silent };
}

// The number and the state that a front starts with.
#[derive(Drop)]
pub struct Opening {
    pub number: u64,
    pub state: Snapshot<MasterState>,
}

// The rule of the word.
pub struct Law;

impl TableRule<Batch, View, Opening> for Law {
    ghost use Rattle.iol_front.specs.Seats.{publisher};
    ghost use Rattle.iol_front.specs.Rule.{CountsList};
    ghost use Rattle.std.specs.Prelude.{[]};

    ghost holds = { λ k. CountsList (record { number = k.number; state = k.state.value }) };

    ghost first = { λ k. publisher (record { number = k.number; state = k.state.value }) [] };
}

// A step that splits a seat in two, or joins another one to it.
pub struct Share;

impl Split<View> for Share {
    ghost use Rattle.iol_front.specs.Seats.{another_of};

    ghost left = { λ v. v };

    ghost right = { another_of };
}

impl Join<View> for Share {
    ghost use Rattle.iol_front.specs.Seats.{told_by, silent};

    ghost both = { told_by };

    ghost spent = { silent };
}

// A look at the word.
pub struct Look;

impl Play<Batch, View> for Look {
    ghost use Rattle.iol_front.specs.Rule.{Looked};

    ghost then = { Looked };
}

// A step that appends a batch to the list.
pub struct AddBatch;

impl Play<Batch, View> for AddBatch {
    ghost use Rattle.iol_front.specs.Rule.{Published};

    ghost then = { Published };
}

// A step that retires a seat.
pub struct Retire;

impl Play<Batch, View> for Retire {
    ghost use Rattle.iol_front.specs.Rule.{Retired};

    ghost then = { Retired };
}

// The table of the word.
pub type Board = Table<Batch, View, Opening, Law, Global>;

// A seat at the table.
pub type FrontSeat = Seat<Batch, View>;

// Makes another seat that has seen the same commands.
pub(crate) fn split_off(board: &Board, seat: &mut FrontSeat) -> FrontSeat
    requires place { (seat.old.table_id ≡ board.now.shared.table_id) × (board.now.shared.table_id.words ≡ 1) }
    ensures same { (seat.new.table_id ≡ seat.old.table_id) × (seat.new.me ≡ seat.old.me) }
    ensures made { (result.table_id ≡ seat.old.table_id) × (result.me ≡ (another_of seat.old.me.0, [])) }
{
    board.shared.split_seat::<Share>(seat)
}

// Joins another seat, and takes over what that one has seen.
pub(crate) fn take_in(board: &Board, seat: &mut FrontSeat, other: FrontSeat)
    requires place { (seat.old.table_id ≡ board.now.shared.table_id) × (other.table_id ≡ board.now.shared.table_id)
        × (board.now.shared.table_id.words ≡ 1) }
    requires says { (other.me.0.says ≡ true) × (other.me.1 ≡ []) }
    ensures same { seat.new.table_id ≡ seat.old.table_id }
    ensures told { seat.new.me ≡ (told_by seat.old.me.0 other.me.0, seat.old.me.1) }
{
    board.shared.join_seat::<Share>(seat, other);
}

// Reads the word: the start number plus the number of published commands.
pub(crate) fn look_at(board: &Board, seat: &mut FrontSeat) -> u64
    requires place { (seat.old.table_id ≡ board.now.shared.table_id) × (board.now.shared.table_id.words ≡ 1) }
    requires says { (seat.old.me.0.says ≡ true) × (seat.old.me.1 ≡ []) }
    ensures same { (seat.new.table_id ≡ seat.old.table_id) × (seat.new.me.1 ≡ []) }
    ensures looked { LooksAt seat.old.me.0 result seat.new.me.0 }
{
    board.shared.load::<Look>(seat, 0)
}

// Appends a batch to the whole list.
pub(crate) fn add_batch(board: &Board, seat: &mut FrontSeat, count: u64, batch: &Batch) -> u64
    requires place { (seat.old.table_id ≡ board.now.shared.table_id) × (board.now.shared.table_id.words ≡ 1) }
    requires owns { (seat.old.me.0.says ≡ true) × (seat.old.me.0.publishes ≡ true) × (seat.old.me.1 ≡ []) }
    requires count { count ≡ seat.old.me.0.start.number + length seat.old.me.0.seen }
    requires fits { count + length batch.now.commands.items ≤ LAST_NUMBER }
    ensures same { (seat.new.table_id ≡ seat.old.table_id) × (seat.new.me.1 ≡ []) }
    ensures grown { Grows seat.old.me.0 (values batch.now.commands.items) seat.new.me.0 }
    ensures next { result ≡ count + length batch.now.commands.items }
{
    let next = count + batch.commands.len() as u64;
    board
        .shared
        .compare_exchange_with::<AddBatch>(seat, 0, count, next, batch);
    next
}

// Retires a seat: from then on it says nothing.
pub(crate) fn retire_seat(board: &Board, seat: &mut FrontSeat)
    requires place { (seat.old.table_id ≡ board.now.shared.table_id) × (board.now.shared.table_id.words ≡ 1) }
    requires bare { seat.old.me.1 ≡ [] }
    ensures { seat.new.me.0 ≡ silent }
{
    board.shared.load::<Retire>(seat, 0);
}
