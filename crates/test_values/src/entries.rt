//! Changes entered for bays and for hosts, and their gathering at the end; moves entered for those who make them.
ghost use Rattle.std.specs.Prelude.{◌≡◌};
ghost use Rattle.ledgers.specs.Ledgers.{IsBlankOf};

use ledgers::{Gathering, MoveBook, Moves, Parties, PartyShare, SeatsMissing, Tally};
use std::marker::Brand;
use std::process::Abort;
use std::sync::Wait;
use std::sync::ledger::Blank;
use test_assertions::assert_equal;

// Two bays and three hosts, for which five changes were entered; the operator and the hosts, for whom five moves were.
#[derive(Drop)]
struct Day<B: Parties, H: Parties> {
    tally: Tally<B, H>,
    bays: (PartyShare<B>, PartyShare<B>),
    hosts: (PartyShare<H>, PartyShare<H>, PartyShare<H>),
}

fn entered<B: Parties, H: Parties, R: Abort + Wait>(
    rt: &R,
    bay_ledger: Blank,
    host_ledger: Blank,
) -> Day<B, H>
    requires bays { IsBlankOf bay_ledger B.name B.parts B.all }
    requires two { bay_ledger.parts ≡ 2 }
    requires hosts { IsBlankOf host_ledger H.name H.parts H.all }
    requires three { host_ledger.parts ≡ 3 }
{
    let (mut tally, book, operator) = Tally::open(bay_ledger, host_ledger);
    let mut left = tally.add_bay();
    let mut right = tally.add_bay();
    let (mut first, moves) = tally.add_host();
    let (mut second, others) = tally.add_host();
    let (third, _) = tally.add_host();
    are_moves(rt, book, operator, moves, others);
    tally.enter(rt, &mut left, &mut first);
    tally.enter(rt, &mut left, &mut second);
    tally.enter(rt, &mut right, &mut second);
    tally.enter(rt, &mut left, &mut second);
    tally.enter(rt, &mut right, &mut first);
    Day {
        tally,
        bays: (left, right),
        hosts: (first, second, third),
    }
}

// Moves are entered for each who makes them.
fn are_moves<H: Parties, R: Abort + Wait>(
    rt: &R,
    book: MoveBook<H>,
    operator: Moves<H>,
    first: Moves<H>,
    second: Moves<H>,
) {
    let (mut book, mut operator, mut first) = (book, operator, first);
    for _ in 0..3u8 {
        book.enter(rt, &mut operator);
    }
    book.enter(rt, &mut first);
    book.enter(rt, &mut operator);
    assert_equal!(rt; (operator.count(), first.count(), second.count()), (4, 1, 0));
}

fn are_entered<B: Parties, H: Parties>(rt: &impl Abort, day: &Day<B, H>) {
    let Day {
        tally: _,
        bays,
        hosts,
    } = day;
    assert_equal!(rt; (bays.0.amount(), bays.1.amount()), (3, 2));
    assert_equal!(rt; (hosts.0.amount(), hosts.1.amount(), hosts.2.amount()), (2, 3, 0));
}

// Takes back the share of the host with this number, unless it is the missing one.
fn take_but<B: Parties, H: Parties>(
    gathering: &mut Gathering<B, H>,
    share: PartyShare<H>,
    number: u8,
    missing: u8,
) {
    if number != missing {
        gathering.take_host(share);
    }
}

// The result at the end if the share of the host with this number is missing.
fn gathered<B: Parties, H: Parties, R: Abort + Wait>(
    rt: &R,
    bay_ledger: Blank,
    host_ledger: Blank,
    missing: u8,
) -> Result<u64, SeatsMissing>
    requires bays { IsBlankOf bay_ledger B.name B.parts B.all }
    requires two { bay_ledger.parts ≡ 2 }
    requires hosts { IsBlankOf host_ledger H.name H.parts H.all }
    requires three { host_ledger.parts ≡ 3 }
{
    let day = entered::<B, H, R>(rt, bay_ledger, host_ledger);
    are_entered(rt, &day);
    let Day { tally, bays, hosts } = day;
    let mut gathering = tally.gather();
    gathering.take_bay(bays.0);
    take_but(&mut gathering, hosts.0, 1, missing);
    take_but(&mut gathering, hosts.1, 2, missing);
    gathering.take_bay(bays.1);
    take_but(&mut gathering, hosts.2, 3, missing);
    gathering.compare()
}

// A host whose share is missing, or none, and the result then.
static MISSING: &'static [(u8, Result<u64, SeatsMissing>)] = &[
    (0, Ok(5)),
    (1, Err(SeatsMissing { total: 5, seats: 3 })),
    (2, Err(SeatsMissing { total: 5, seats: 2 })),
    (3, Ok(5)),
];

#[test]
fn a_missing_seat_shows_by_its_changes(rt: HostRuntime) {
    for &(missing, answer) in MISSING {
        let found = gathered::<Brand, Brand, HostRuntime>(
            &rt,
            Blank::new(2),
            Blank::new(3),
            missing,
        );
        assert_equal!(rt; found, answer; missing);
    }
}
