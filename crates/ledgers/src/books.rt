//! One ledger, while changes are entered and while its shares are gathered. It occupies no bytes of memory.
ghost use Rattle.std.specs.Prelude.{◌≡◌, ◌+◌, ◌-◌, ◌^◌, ◌<◌, ◌≤◌};
ghost use Rattle.ledgers.specs.Ledgers.{IsBlankOf, and_share, no_share};

use crate::parties::Parties;
use crate::shares::PartyShare;
use std::marker::Model;
use std::sync::ledger::{Blank, Book, Share};

/// The book of a ledger in which changes are entered, and the parts of the ledger that no party has yet.
#[derive(Drop)]
pub(crate) struct OpenBook<L: Parties> {
    book: Book<L>,
    left: Share<L>,
}

impl<L: Parties> Model for OpenBook<L> {
    ghost use Rattle.std.specs.Prelude.{◌≡◌};
    ghost use Rattle.ledgers.specs.Inner.Books.{OpenState};

    ghost Value = { OpenState };

    ghost view = { λ b. record { total = b.book.total; left = b.left.parts } };

    ghost invariant = { λ b. (b.left.amount ≡ 0) × (L.all ≡ L.parts) };
}

impl<L: Parties> OpenBook<L> {
    /// Opens the book of a blank ledger. Nothing is entered, and no party has its share yet.
    pub(crate) fn open(blank: Blank) -> OpenBook<L>
        requires { IsBlankOf blank L.name L.parts L.all }
        ensures { result ≡ record { total = 0; left = L.all } }
    {
        let (book, left) = blank.open::<L>();
        OpenBook { book, left }
    }

    /// Returns the share of one more party, for which nothing is entered yet.
    pub(crate) fn give(&mut self) -> PartyShare<L>
        requires { 0 < self.old.left }
        ensures share { result ≡ 0 }
        ensures left { self.new ≡ record self.old { left = self.old.left - 1 } }
    {
        PartyShare::of(self.left.split_off(1, 0))
    }

    /// Enters one change for the party with this share.
    pub(crate) fn enter(&mut self, share: &mut PartyShare<L>)
        requires { self.old.total + 1 < 2 ^ 64 }
        ensures share { share.new ≡ share.old + 1 }
        ensures book { self.new ≡ record self.old { total = self.old.total + 1 } }
        ensures bound { share.new ≤ self.new.total }
    {
        share.enter(&mut self.book);
    }

    /// Closes the book: from now on no change is entered, and shares are gathered.
    pub(crate) fn gather(self) -> ClosedBook<L>
        ensures { result ≡ record { total = self.total; gathered = no_share } }
    {
        let OpenBook { book, left } = self;
        let mut left = left;
        let part = left.empty();
        ClosedBook { book, part }
    }
}

/// The book of a ledger in which no change is entered any more, and the shares that were gathered.
#[derive(Drop)]
pub(crate) struct ClosedBook<L: Parties> {
    book: Book<L>,
    part: Share<L>,
}

impl<L: Parties> Model for ClosedBook<L> {
    ghost use Rattle.std.specs.Prelude.{◌≡◌};
    ghost use Rattle.ledgers.specs.Inner.Books.{ClosedState};

    ghost Value = { ClosedState };

    ghost view = { λ b.
        record { total = b.book.total; gathered = record { shares = b.part.parts; changes = b.part.amount } } };

    ghost invariant = { λ b. L.all ≡ L.parts };
}

impl<L: Parties> ClosedBook<L> {
    /// Takes back a party's share.
    pub(crate) fn take(&mut self, share: PartyShare<L>)
        ensures taken { self.new ≡ record self.old { gathered = and_share self.old.gathered share } }
        ensures bound { self.new.gathered.changes ≤ self.new.total }
    {
        self.part.merge(share.into_part());
        self.book.audit(&mut self.part);
    }

    /// Changes nothing. It establishes for a proof that the gathered shares have at most the total, and exactly the
    /// total where the shares of all parties are gathered.
    pub(crate) fn audit(&mut self)
        ensures same { self.new ≡ self.old }
        ensures bound { self.new.gathered.changes ≤ self.new.total }
        ensures all { self.new.gathered.shares ≡ L.all → self.new.gathered.changes ≡ self.new.total }
    {
        self.book.audit(&mut self.part);
    }
}
