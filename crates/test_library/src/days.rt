//! A library is opened, its hosts act in threads, and it is finished.
ghost use Rattle.std.specs.Prelude.{◌≡◌, ◌<◌, length, nat_eq, All};
ghost use Rattle.std.specs.List.{IsDistinct};
ghost use Rattle.vtl_base.specs.declared.limits.TheConstants.{DRIVES};
ghost use Rattle.ledgers.specs.Ledgers.{IsBlankOf};
ghost use Rattle.library.specs.Counts.{AcceptedNone, places_filled, which_are_there};
ghost use Rattle.library.specs.RingRows.{AreRings};

use crate::acts::{Act, plays};
use crate::samples::{First, Sample, TestDisk, make_sample};
use crate::stages::{LATE, Stage};
use library::{FinishError, Finished, Library, Parties, RingRow, Rings, Seat, Unopened};
use std::alloc::Global;
use std::marker::Brand;
use std::process::Abort;
use std::sync::ledger::Blank;
use std::sync::{Arc, Wait};
use std::test::Fail;
use std::thread;
use std::thread::Threads;
use std::time::Clock;
use tape_buffer::Buffered;
use tape_disk::Disk;
use test_assertions::{assert_equal, assert_holds};
use test_gates::{count_fresh, hosts};

/// The acts of a library's hosts, and how the library ends.
#[derive(Clone, Copy)]
pub struct Day {
    /// The acts of each host, from number 1 on, each in a thread of its own.
    pub hosts: &'static [&'static [&'static [Act]]],
    /// How many changes their seats have afterwards.
    pub amounts: &'static [u64],
    /// The counts of drives 1 and 2, or why the library did not end well; if it is None, the counts are not known.
    pub end: Option<Result<(u64, u64), FinishError>>,
}

// All hosts play their parts, each in a thread of its own.
fn all_play<
    D: Disk + Drop + Send,
    B: Parties + Rings + Send + Sync,
    H: Parties + Send + Sync,
    R: Threads + Wait + Abort + Clock + Sync,
>(
    rt: &R,
    alloc: Global,
    library: &Library<D, B, H>,
    stage: &Stage,
    hosts: &[&[&[Act]]],
    seats: &mut [Seat<H>],
) {
    thread::for_each_mut(
        rt,
        seats,
        64,
        &|place, seat| {
            if let Some(parts) = hosts.get(place) {
                plays(rt, alloc, library, stage, seat, *parts);
            }
        },
    );
}

// The seats are those of the hosts from number 1 on, with these amounts.
fn have_amounts<H: Parties>(rt: &impl Abort, seats: &[Seat<H>], amounts: &[u64]) {
    for (place, (seat, amount)) in seats.iter().zip(amounts.iter()).enumerate() {
        assert_equal!(rt; usize::from(seat.nexus().number()), place.saturating_add(1));
        assert_equal!(rt; seat.amount(), *amount; place);
    }
}

// The same over ledgers that the call picks.
fn spend_over<
    D: Disk + Drop + Send,
    B: Parties + Rings + Send + Sync,
    H: Parties + Send + Sync,
    R: Threads + Wait + Abort + Clock + Sync,
>(
    rt: &R,
    alloc: Global,
    parts: Unopened<'_, D>,
    stage: &Stage,
    day: &Day,
) -> Result<Finished<D>, Fail>
    requires places { length parts.bays.items ≡ DRIVES }
    requires fresh { All (λ bay. AcceptedNone bay) parts.bays.items }
    requires rings { (which_are_there parts.rings ≡ which_are_there parts.bays.items) × AreRings B.ring parts.rings }
    requires hosts { IsDistinct nat_eq parts.hosts.now }
    requires bay_ledger { IsBlankOf parts.bay_ledger B.name B.parts B.all × (B.all ≡ places_filled parts.bays.items) }
    requires host_ledger { IsBlankOf parts.host_ledger H.name H.parts H.all × (H.all ≡ length parts.hosts.now) }
{
    match Library::<D, B, H>::new(alloc, parts) {
        Ok((library, seats, operator)) => {
            let mut seats = seats;
            all_play(rt, alloc, &library, stage, day.hosts, seats.as_mut_slice());
            have_amounts(rt, seats.as_slice(), day.amounts);
            Ok(library.finish(rt, seats, operator))
        }
        Err(_) => Err(Fail::from("no library")),
    }
}

/// Opens a library of a day's hosts and of so many cartridges that are loaded, or of three in slots; the hosts act, and
/// it is finished. Call number `fails` of the first disk of cartridge 1 fails, and a sync of it that is to last waits
/// until this much is freed.
pub fn spend<R: Threads + Wait + Abort + Clock + Sync>(
    rt: &R,
    alloc: Global,
    fails: u64,
    freed: u64,
    loaded: u8,
    day: &Day,
) -> Result<(), Fail> {
    let stage = Stage::new(freed, false);
    let stage = Arc::new(alloc, stage)?;
    let Sample { bays, slots } = make_sample(rt, alloc, &stage, loaded, First::Fails(fails))?;
    let drives = count_fresh(bays.as_slice())?;
    let rings = RingRow::of_drives(alloc, bays.as_slice())?;
    let hosts = hosts(alloc, day.hosts.len().min(64) as u8)?;
    let finished = spend_over::<TestDisk, Brand, Brand, R>(
        rt,
        alloc,
        Unopened {
            bays,
            rings,
            slots,
            hosts: hosts.as_slice(),
            bay_ledger: Blank::new(drives),
            host_ledger: Blank::new(hosts.len() as u64),
        },
        &stage,
        day,
    )?;
    assert_equal!(rt; stage.value(LATE), 0);
    match day.end {
        Some(end) => has_ended(rt, &finished, end),
        None => assert_holds!(rt; finished.counts.is_ok()),
    }
    are_all_there(rt, &finished, if loaded == 0 { 3 } else { 2 });
    Ok(())
}

/// The library has ended so, with two drives.
pub fn has_ended<D: Disk + Drop>(
    rt: &impl Abort,
    finished: &Finished<D>,
    end: Result<(u64, u64), FinishError>,
) {
    let wanted = match end {
        Ok((one, two)) => {
            let mut counts = [None; 16];
            counts[0] = Some(one);
            counts[1] = Some(two);
            Ok(counts)
        }
        Err(error) => Err(error),
    };
    assert_equal!(rt; finished.counts, wanted);
}

// The number in the barcode of a cartridge, whose two digits are in its file after place 14.
fn number_of(medium: &Buffered<TestDisk>) -> usize {
    let Some(disk) = medium.disk() else {
        return 0;
    };
    match disk.inner().inner().bytes().get(15..17) {
        Some([tens, ones]) => usize::from(*tens % 16) * 10 + usize::from(*ones % 16),
        _ => 0,
    }
}

// One more cartridge with this number.
fn add_one(counts: &mut [u8; 17], number: usize) {
    if number < 17 {
        counts[number] = counts[number].saturating_add(1);
    }
}

// How often there is a cartridge with each number up to 16.
fn count_numbers(finished: &Finished<TestDisk>) -> [u8; 17] {
    let mut counts = [0u8; 17];
    for parked in finished.left.slots().iter().flatten() {
        add_one(&mut counts, number_of(parked.medium()));
    }
    for bay in finished.left.bays().iter().flatten() {
        if let Some(medium) = bay.drive().medium() {
            add_one(&mut counts, number_of(medium));
        }
    }
    counts
}

/// Two drives and the slots are returned, and the cartridges from number 1 up to this one, each once.
pub fn are_all_there(rt: &impl Abort, finished: &Finished<TestDisk>, most: usize) {
    for (number, count) in count_numbers(finished).iter().enumerate() {
        assert_equal!(rt; *count == 1, number >= 1 && number <= most; number);
    }
    assert_equal!(rt; finished.left.bays().len(), 16);
    for (place, bay) in finished.left.bays().iter().enumerate() {
        assert_equal!(rt; bay.is_some(), place < 2; place);
    }
    assert_equal!(rt; finished.left.slots().len(), 256);
}

/// Sixteen drives are returned, each with the cartridge of its number.
pub fn are_in_their_places(rt: &impl Abort, finished: &Finished<TestDisk>) {
    let mut last = 0usize;
    for bay in finished.left.bays().iter().flatten() {
        last = last.saturating_add(1);
        let number = match bay.drive().medium() {
            Some(medium) => number_of(medium),
            None => 0,
        };
        assert_equal!(rt; number, last);
    }
    assert_equal!(rt; last, 16);
}
