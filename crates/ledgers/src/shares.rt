//! A party's share of its ledger.
ghost use Rattle.std.specs.Prelude.{◌≡◌, ◌+◌, ◌^◌, ◌<◌, ◌≤◌};

use crate::parties::Parties;
use std::marker::Model;
use std::sync::ledger::{Book, Share};

/// A party's share of its ledger: how many changes were entered for the party, below 2^64. Only `Tally::enter` raises
/// this number, and a share cannot be copied. A bay's share is kept with the bay, a host's share in its `Seat`. A share
/// that is dropped is missing when the shares are gathered (own).
#[derive(Drop)]
pub struct PartyShare<L: Parties> {
    amount: u64,
    part: Share<L>,
}

impl<L: Parties> Model for PartyShare<L> {
    ghost use Rattle.std.specs.Prelude.{◌≡◌, ℕ};

    ghost Value = { ℕ };

    ghost view = { λ s. s.amount };

    ghost invariant = { λ s. (s.part.parts ≡ 1) × (s.part.amount ≡ s.amount) };
}

impl<L: Parties> PartyShare<L> {
    /// How many changes were entered for the party.
    pub fn amount(&self) -> u64
        ensures { result ≡ self.now }
    {
        self.amount
    }

    // The share of this part, without entries.
    pub(crate) fn of(part: Share<L>) -> PartyShare<L>
        requires { (part.parts ≡ 1) × (part.amount ≡ 0) }
        ensures { result ≡ 0 }
    {
        PartyShare { amount: 0, part }
    }

    // Enters one change for the party in its ledger's book.
    pub(crate) fn enter(&mut self, book: &mut Book<L>)
        requires { book.old.total + 1 < 2 ^ 64 }
        ensures share { self.new ≡ self.old + 1 }
        ensures book { book.new.total ≡ book.old.total + 1 }
        ensures bound { self.new ≤ book.new.total }
    {
        book.audit(&mut self.part);
        book.add(&mut self.part, 1);
        self.amount += 1;
    }

    // The share's part of the ledger, which has the share's amount.
    pub(crate) fn into_part(self) -> Share<L>
        ensures { (result.parts ≡ 1) × (result.amount ≡ self) }
    {
        self.part
    }
}
