//! Those who may move cartridges: the operator, and a host by its seat.
ghost use Rattle.std.specs.Prelude.{◌≡◌, ◌+◌};

use super::seats::Seat;
use ledgers::{MoveBook, Moves, Parties};
use std::marker::Model;
use std::sync::Wait;

/// One who may move a cartridge, with the count of the moves that it made. No other value can meet `book`: only a count
/// that `Tally` gave raises the book of the moves.
pub trait Mover<H: Parties> {
    /// The same one, after one more move.
    ghost moved_once: { Self → Self };

    /// Enters one move, in the book and in the count of this one. Where 2^64 - 1 are entered already, the call waits on
    /// `rt` and never returns.
    fn enter_move<R: Wait>(&mut self, rt: &R, book: &mut MoveBook<H>)
        ensures mover { self.new ≡ moved_once self.old }
        ensures book { book.new ≡ book.old + 1 };
}

/// The operator's token: how many moves the operator made. Only `Library::new` gives one (own).
#[derive(Drop)]
pub struct Operator<H: Parties> {
    moves: Moves<H>,
}

impl<H: Parties> Model for Operator<H> {
    ghost use Rattle.std.specs.Prelude.{ℕ};

    ghost Value = { ℕ };

    ghost view = { λ o. o.moves };
}

impl<H: Parties> Operator<H> {
    /// How many moves the operator made.
    pub fn moved(&self) -> u64
        ensures { result ≡ self.now }
    {
        self.moves.count()
    }

    // The operator who has this count.
    pub(crate) fn of(moves: Moves<H>) -> Operator<H>
        ensures { result ≡ moves }
    {
        Operator { moves }
    }
}

impl<H: Parties> Mover<H> for Operator<H> {
    ghost moved_once = { λ moved. moved + 1 };

    fn enter_move<R: Wait>(&mut self, rt: &R, book: &mut MoveBook<H>) {
        book.enter(rt, &mut self.moves);
    }
}

impl<H: Parties> Mover<H> for Seat<H> {
    ghost moved_once = { λ seat. record seat { moved = seat.moved + 1 } };

    fn enter_move<R: Wait>(&mut self, rt: &R, book: &mut MoveBook<H>) {
        book.enter(rt, &mut self.moves);
    }
}
