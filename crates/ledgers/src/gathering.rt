//! Both ledgers, while their shares are gathered.
ghost use Rattle.std.specs.Prelude.{◌≡◌, ◌<◌, ◌≤◌, IfOk, IfErr};
ghost use Rattle.ledgers.specs.Ledgers.{and_share, no_share};

use crate::books::ClosedBook;
use crate::parties::Parties;
use crate::shares::PartyShare;
use std::marker::Model;
use thiserror::Error;

/// The error of `Gathering::compare`: the gathered seats have fewer changes than were entered, so at least one seat is
/// missing (own).
#[derive(Clone, Copy, PartialEq, Eq, Debug, Error)]
#[error("seats with {seats} of {total} changes")]
pub struct SeatsMissing {
    /// How many changes were entered in either ledger.
    pub total: u64,
    /// How many of these changes were entered for the gathered seats.
    pub seats: u64,
}

/// The ledger of the bays and the ledger of the hosts, once both are closed. The shares of the bays and the seats of
/// the hosts are taken back in any order, and then the seats are compared with the total. No call allocates memory
/// (own).
#[derive(Drop)]
pub struct Gathering<B: Parties, H: Parties> {
    total: u64,
    seats: u64,
    bays: ClosedBook<B>,
    hosts: ClosedBook<H>,
}

impl<B: Parties, H: Parties> Model for Gathering<B, H> {
    ghost use Rattle.std.specs.Prelude.{◌≡◌};
    ghost use Rattle.ledgers.specs.Ledgers.{GatheringState};

    ghost Value = { GatheringState };

    ghost view = { λ g. record { total = g.total; bays = g.bays.gathered; hosts = g.hosts.gathered } };

    ghost invariant = { λ g.
        (g.bays.total ≡ g.total) × (g.hosts.total ≡ g.total) × (g.hosts.gathered.changes ≡ g.seats) };
}

impl<B: Parties, H: Parties> Gathering<B, H> {
    // The gathering of ledgers with this total, without any share yet.
    pub(crate) fn of(total: u64, bays: ClosedBook<B>, hosts: ClosedBook<H>) -> Gathering<B, H>
        requires totals { (bays.total ≡ total) × (hosts.total ≡ total) }
        requires none { (bays.gathered ≡ no_share) × (hosts.gathered ≡ no_share) }
        ensures { result ≡ record { total = total; bays = no_share; hosts = no_share } }
    {
        Gathering {
            total,
            seats: 0,
            bays,
            hosts,
        }
    }

    /// Takes back a bay's share.
    pub fn take_bay(&mut self, share: PartyShare<B>)
        ensures { self.new ≡ record self.old { bays = and_share self.old.bays share } }
    {
        self.bays.take(share);
    }

    /// Takes back the share of a host, from its seat.
    pub fn take_host(&mut self, share: PartyShare<H>)
        ensures { self.new ≡ record self.old { hosts = and_share self.old.hosts share } }
    {
        let amount = share.amount();
        self.hosts.take(share);
        self.seats += amount;
    }

    /// Returns how many changes were entered in either ledger, or `SeatsMissing` where the gathered seats have fewer.
    /// Once the seats of all hosts are gathered, the result is Ok. Once the shares of all bays are gathered, they have
    /// as many changes as were entered.
    pub fn compare(self) -> Result<u64, SeatsMissing>
        ensures within { (self.bays.changes ≤ self.total) × (self.hosts.changes ≤ self.total) }
        ensures bays { self.bays.shares ≡ B.all → self.bays.changes ≡ self.total }
        ensures hosts { self.hosts.shares ≡ H.all → self.hosts.changes ≡ self.total }
        ensures ok { IfOk result (λ total. (total ≡ self.total) × (self.hosts.changes ≡ self.total)) }
        ensures missing { IfErr result (λ missing. (missing.total ≡ self.total)
            × (missing.seats ≡ self.hosts.changes) × (missing.seats < missing.total)) }
    {
        let Gathering {
            total,
            seats,
            bays: mut bay_book,
            hosts: mut host_book,
        } = self;
        bay_book.audit();
        host_book.audit();
        if seats < total {
            return Err(SeatsMissing { total, seats });
        }
        Ok(total)
    }
}
