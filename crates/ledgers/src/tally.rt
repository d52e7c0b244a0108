//! Both ledgers, while changes are entered.
ghost use Rattle.std.specs.Prelude.{◌≡◌, ◌+◌, ◌-◌, ◌^◌, ◌<◌};
ghost use Rattle.ledgers.specs.Ledgers.{IsBlankOf, no_share};

use crate::books::OpenBook;
use crate::gathering::Gathering;
use crate::moves::{MoveBook, Moves};
use crate::parties::Parties;
use crate::shares::PartyShare;
use std::marker::Model;
use std::sync::Wait;
use std::sync::ledger::Blank;

/// The ledger of the bays and the ledger of the hosts, to be guarded by a lock of their own. Their totals are always
/// equal, since one call enters a change in both (own).
#[derive(Drop)]
pub struct Tally<B: Parties, H: Parties> {
    total: u64,
    bays: OpenBook<B>,
    hosts: OpenBook<H>,
}

impl<B: Parties, H: Parties> Model for Tally<B, H> {
    ghost use Rattle.std.specs.Prelude.{◌≡◌};
    ghost use Rattle.ledgers.specs.Ledgers.{TallyState};

    ghost Value = { TallyState };

    ghost view = { λ t. record { total = t.total; bays_left = t.bays.left; hosts_left = t.hosts.left } };

    ghost invariant = { λ t. (t.bays.total ≡ t.total) × (t.hosts.total ≡ t.total) };
}

impl<B: Parties, H: Parties> Tally<B, H> {
    /// Opens both ledgers, which must be blank. No change is entered, and no party has its share yet. With them come
    /// the book of the moves, and the count of the moves that the operator makes; none is entered.
    pub fn open(bay_ledger: Blank, host_ledger: Blank) -> (Tally<B, H>, MoveBook<H>, Moves<H>)
        requires bays { IsBlankOf bay_ledger B.name B.parts B.all }
        requires hosts { IsBlankOf host_ledger H.name H.parts H.all }
        ensures tally { result.0 ≡ record { total = 0; bays_left = B.all; hosts_left = H.all } }
        ensures moves { (result.1 ≡ 0) × (result.2 ≡ 0) }
    {
        let tally = Tally {
            total: 0,
            bays: OpenBook::open(bay_ledger),
            hosts: OpenBook::open(host_ledger),
        };
        (tally, MoveBook::none(), Moves::none())
    }

    /// Returns the share of one more bay, for which no change is entered yet. At least one bay must still be without a
    /// share.
    pub fn add_bay(&mut self) -> PartyShare<B>
        requires { 0 < self.old.bays_left }
        ensures share { result ≡ 0 }
        ensures left { self.new ≡ record self.old { bays_left = self.old.bays_left - 1 } }
    {
        self.bays.give()
    }

    /// Returns the share of one more host, for which no change is entered yet, and the count of its moves, of which
    /// none is entered. At least one host must still be without a share.
    pub fn add_host(&mut self) -> (PartyShare<H>, Moves<H>)
        requires { 0 < self.old.hosts_left }
        ensures share { (result.0 ≡ 0) × (result.1 ≡ 0) }
        ensures left { self.new ≡ record self.old { hosts_left = self.old.hosts_left - 1 } }
    {
        (self.hosts.give(), Moves::none())
    }

    /// Enters in both ledgers one change that a bay accepted from a host, by the shares of both. Where 2^64 - 1 changes
    /// are entered already, the call waits on `rt` and never returns.
    pub fn enter<R: Wait>(&mut self, rt: &R, bay: &mut PartyShare<B>, host: &mut PartyShare<H>)
        ensures bay { bay.new ≡ bay.old + 1 }
        ensures host { host.new ≡ host.old + 1 }
        ensures total { self.new ≡ record self.old { total = self.old.total + 1 } }
        ensures bounds { (bay.new < 2 ^ 64) × (host.new < 2 ^ 64) }
    {
        if self.total == u64::MAX {
            for _ in rt.forever() {}
            unreachable!()
        }
        self.bays.enter(bay);
        self.hosts.enter(host);
        self.total += 1;
    }

    /// Closes both ledgers: from now on no change is entered, and shares are gathered.
    pub fn gather(self) -> Gathering<B, H>
        ensures { result ≡ record { total = self.total; bays = no_share; hosts = no_share } }
    {
        let Tally { total, bays, hosts } = self;
        Gathering::of(total, bays.gather(), hosts.gather())
    }
}
