//! A host's seat.
ghost use Rattle.std.specs.Prelude.{◌≡◌, ◌+◌, ◌^◌, ◌<◌, true, false};

use ledgers::{Moves, Parties, PartyShare, Tally};
use std::marker::Model;
use std::sync::Wait;
use vtl_base::Nexus;

/// A host's seat in a library: its nexus, how many of its commands were answered, how many moves the host made, and its
/// share of the ledger of the hosts. The seat moves with its host, even to another thread. A seat that is dropped is
/// missing when the seats are gathered (own).
#[derive(Drop)]
pub struct Seat<H: Parties> {
    nexus: Nexus,
    answered: u64,
    pub(super) moves: Moves<H>,
    share: PartyShare<H>,
}

impl<H: Parties> Model for Seat<H> {
    ghost use Rattle.library.specs.Seats.{SeatState};

    ghost Value = { SeatState };

    ghost view = { λ s. record { nexus = s.nexus; answered = s.answered; moved = s.moves; amount = s.share } };
}

impl<H: Parties> Seat<H> {
    /// The host's nexus, from 1 to 64.
    pub fn nexus(&self) -> Nexus
        ensures { result ≡ self.now.nexus }
    {
        self.nexus
    }

    /// How many commands of the host were answered.
    pub fn answered(&self) -> u64
        ensures { result ≡ self.now.answered }
    {
        self.answered
    }

    /// How many moves the host made.
    pub fn moved(&self) -> u64
        ensures { result ≡ self.now.moved }
    {
        self.moves.count()
    }

    /// How many changes were entered for the host: the accepted changes of its commands.
    pub fn amount(&self) -> u64
        ensures { result ≡ self.now.amount }
    {
        self.share.amount()
    }

    // The seat of the host with this nexus, of which no command was answered.
    pub(crate) fn of(nexus: Nexus, share: PartyShare<H>, moves: Moves<H>) -> Seat<H>
        ensures { result ≡ record { nexus = nexus; answered = 0; moved = moves; amount = share } }
    {
        Seat {
            nexus,
            answered: 0,
            moves,
            share,
        }
    }

    // Whether 2^64 - 1 commands of the host are counted as answered, so that one more can not be counted.
    fn is_full(&self) -> bool
        ensures within { result ≡ false → self.now.answered + 1 < 2 ^ 64 }
        ensures full { result ≡ true → self.now.answered + 1 ≡ 2 ^ 64 }
    {
        self.answered == u64::MAX
    }

    // Counts one more command of the host as answered. Where 2^64 - 1 are counted already, the call waits on `rt` and
    // never returns. Only the two calls that ask a half, or both, count an answer.
    pub(super) fn count_answer<R: Wait>(&mut self, rt: &R)
        ensures { self.new ≡ record self.old { answered = self.old.answered + 1 } }
    {
        if self.is_full() {
            for _ in rt.forever() {}
            unreachable!()
        }
        self.answered += 1;
    }

    // Enters in both ledgers one change that the bay with this share accepted from the host.
    pub(super) fn enter<B: Parties, R: Wait>(
        &mut self,
        rt: &R,
        tally: &mut Tally<B, H>,
        bay: &mut PartyShare<B>,
    )
        ensures bay { bay.new ≡ bay.old + 1 }
        ensures seat { self.new ≡ record self.old { amount = self.old.amount + 1 } }
    {
        tally.enter(rt, bay, &mut self.share);
    }

    // The seat's share, which has the seat's amount.
    pub(crate) fn into_share(self) -> PartyShare<H>
        ensures { result ≡ self.amount }
    {
        self.share
    }
}
