//! Moves of cartridges, counted for those who make them.
ghost use Rattle.std.specs.Prelude.{◌≡◌, ◌+◌};

use crate::parties::Parties;
use std::marker::{Model, PhantomData};
use std::sync::Wait;

/// How many moves someone has made. Only `Tally` gives such a count, one to the operator and one to each host; it is 0
/// then. Only `MoveBook::enter` raises it. It cannot be copied (own).
#[derive(Drop)]
pub struct Moves<H: Parties> {
    count: u64,
    library: PhantomData<H>,
}

impl<H: Parties> Model for Moves<H> {
    ghost use Rattle.std.specs.Prelude.{◌≡◌, ℕ};

    ghost Value = { ℕ };

    ghost view = { λ m. m.count };
}

impl<H: Parties> Moves<H> {
    /// How many moves were made.
    pub fn count(&self) -> u64
        ensures { result ≡ self.now }
    {
        self.count
    }

    // No move yet.
    pub(crate) fn none() -> Moves<H>
        ensures { result ≡ 0 }
    {
        Moves {
            count: 0,
            library: PhantomData,
        }
    }
}

/// The book of the moves in a library, whoever makes them. Only `Tally::open` gives one. Who has it and the count of
/// the one who moves can enter a move, and nobody else (own).
#[derive(Drop)]
pub struct MoveBook<H: Parties> {
    total: u64,
    library: PhantomData<H>,
}

impl<H: Parties> Model for MoveBook<H> {
    ghost use Rattle.std.specs.Prelude.{◌≡◌, ℕ};

    ghost Value = { ℕ };

    ghost view = { λ b. b.total };
}

impl<H: Parties> MoveBook<H> {
    /// Enters one move for the one who has the count `moves`. Where 2^64 - 1 moves are entered already, in the book or
    /// for this one, the call waits on `rt` and never returns.
    pub fn enter<R: Wait>(&mut self, rt: &R, moves: &mut Moves<H>)
        ensures book { self.new ≡ self.old + 1 }
        ensures moves { moves.new ≡ moves.old + 1 }
    {
        if self.total == u64::MAX || moves.count == u64::MAX {
            for _ in rt.forever() {}
            unreachable!()
        }
        self.total += 1;
        moves.count += 1;
    }

    // The book without any move.
    pub(crate) fn none() -> MoveBook<H>
        ensures { result ≡ 0 }
    {
        MoveBook {
            total: 0,
            library: PhantomData,
        }
    }
}
