//! A drive of one thread, and a host of a library that threads share, which are served, over frames that were worked by
//! hand.
ghost use Rattle.std.specs.Prelude.{◌≡◌, length, nat_eq, All};
ghost use Rattle.std.specs.List.{IsDistinct};
ghost use Rattle.vtl_base.specs.declared.limits.TheConstants.{DRIVES};
ghost use Rattle.ledgers.specs.Ledgers.{IsBlankOf};
ghost use Rattle.library.specs.Counts.{AcceptedNone, places_filled, which_are_there};
ghost use Rattle.library.specs.RingRows.{AreRings};

use crate::frames::{bytes_of, loaded, row};
use element_slots::Slots;
use ledgers::Parties;
use library::{Library, RingRow, Rings, Seat, Unopened};
use std::alloc::Global;
use std::marker::Brand;
use std::process::Abort;
use std::sync::Wait;
use std::sync::ledger::Blank;
use std::test::Fail;
use tape_disk::{Disk, MemDisk};
use test_assertions::assert_equal;
use test_gates::{count_fresh, hosts};
use vtl_serve::{OneBay, OneHost, serve_bay, serve_host};
use vtl_wire::WireFault;

type End = Result<(), WireFault>;

// Commands of host 1 to drive 2: the power on condition; a WRITE of three bytes; a REWIND; a READ of the three.
static REQUESTS: &'static [&'static str] = &[
    "01 01 02 06 00000000 00000007 00000000 000000000000",
    "01 01 02 06 00000003 00000008 00000000 0a0000000300 616263",
    "01 01 02 06 00000000 00000009 00000000 010000000000",
    "01 01 02 06 00000000 0000000a 00000000 080000000300",
];

static ANSWERS: &'static [&'static str] = &[
    "01 01 02 12 00000000 00000007 00000000 700006000000000a00000000290000000000",
    "01 01 00 00 00000000 00000008 00000000",
    "01 01 00 00 00000000 00000009 00000000",
    "01 01 00 00 00000003 0000000a 00000000 616263",
];

// Behind them a frame that is refused: a command to a drive that is not there, a move, an inventory, and, by the host,
// a command of another one.
static REFUSED: [&'static str; 4] = [
    "01 01 03 06 00000000 0000000d 00000000 000000000000",
    "02 00 00 08 00000000 0000000d 00000000 000003e9 00000002",
    "03 00 00 00 00000000 0000000d 00000000",
    "01 02 02 06 00000000 0000000d 00000000 000000000000",
];

// The requests with one frame more, and how that ends.
fn asked(alloc: Global, refused: Option<&&'static str>) -> Result<(Vec<u8>, End), Fail> {
    let mut input = bytes_of(alloc, REQUESTS)?;
    let Some(frame) = refused else {
        return Ok((input, Ok(())));
    };
    input.extend_from_slice(bytes_of(alloc, &[*frame])?.as_slice())?;
    Ok((input, Err(WireFault::BadFrame { frame: 5 })))
}

// What a drive writes for an input, how that ends, and how many changes it then has accepted.
fn serving<D: Disk + Drop>(
    alloc: Global,
    mut served: OneBay<D>,
    input: &[u8],
) -> (End, Vec<u8>, u64) {
    let mut reader = input;
    let mut written = Vec::new(alloc);
    let end = serve_bay(alloc, &mut served, &mut reader, &mut written);
    let bay = served.into_bay();
    let accepted = bay.accepted();
    drop(bay);
    (end, written, accepted)
}

#[test]
fn a_drive_is_served(rt: HostRuntime) -> Result<(), Fail> {
    let output = bytes_of(rt.alloc(), ANSWERS)?;
    for place in 0..4 {
        let (input, wanted) = asked(rt.alloc(), REFUSED[..3].get(place))?;
        let (number, bay) = loaded(rt.alloc(), 2)?;
        let served = OneBay::new(number, bay);
        let (end, written, accepted) = serving(rt.alloc(), served, input.as_slice());
        assert_equal!(rt; end, wanted; place);
        assert_equal!(rt; written.as_slice(), output.as_slice(); place);
        assert_equal!(rt; accepted, 1; place);
    }
    Ok(())
}

// What a host sends, what it is answered, and how that ends.
type Served<'a> = (&'a [u8], &'a [u8], End);

// Serves the host of each seat, of which there is one. It is answered so; its seat counts four commands and no move,
// and grows by one change.
fn serve_each<D: Disk + Drop, B: Parties + Rings, H: Parties, R: Wait + Abort>(
    rt: &R,
    alloc: Global,
    library: &Library<D, B, H>,
    seats: Vec<Seat<H>>,
    served: Served<'_>,
) -> Result<Vec<Seat<H>>, Fail> {
    let mut back = Vec::new(alloc);
    for seat in seats {
        let mut host = OneHost::new(rt, library, seat);
        let mut reader = served.0;
        let mut written = Vec::new(alloc);
        let end = serve_host(alloc, &mut host, &mut reader, &mut written);
        assert_equal!(rt; end, served.2);
        assert_equal!(rt; written.as_slice(), served.1);
        let seat = host.into_seat();
        assert_equal!(rt; (seat.answered(), seat.moved(), seat.amount()), (4, 0, 1));
        back.push(seat)?;
    }
    Ok(back)
}

// The same over ledgers that the call picks; then the library ends well, and drive 2 has counted one change. Four
// commands were answered, and nothing was moved.
fn serve_over<D: Disk + Drop, B: Parties + Rings, H: Parties, R: Wait + Abort>(
    rt: &R,
    alloc: Global,
    parts: Unopened<'_, D>,
    served: Served<'_>,
) -> Result<(), Fail>
    requires places { length parts.bays.items ≡ DRIVES }
    requires fresh { All (λ bay. AcceptedNone bay) parts.bays.items }
    requires rings { (which_are_there parts.rings ≡ which_are_there parts.bays.items) × AreRings B.ring parts.rings }
    requires hosts { IsDistinct nat_eq parts.hosts.now }
    requires bay_ledger { IsBlankOf parts.bay_ledger B.name B.parts B.all × (B.all ≡ places_filled parts.bays.items) }
    requires host_ledger { IsBlankOf parts.host_ledger H.name H.parts H.all × (H.all ≡ length parts.hosts.now) }
{
    match Library::<D, B, H>::new(alloc, parts) {
        Ok((library, seats, operator)) => {
            let seats = serve_each(rt, alloc, &library, seats, served)?;
            let finished = library.finish(rt, seats, operator);
            let mut counts = [None; 16];
            counts[0] = Some(0);
            counts[1] = Some(1);
            assert_equal!(rt; finished.counts, Ok(counts));
            assert_equal!(rt; (finished.answered, finished.moved), (4, 0));
            Ok(())
        }
        Err(_) => Err(Fail::from("no library")),
    }
}

// Serves the host of a library of two drives.
fn serving_host<R: Wait + Abort>(rt: &R, alloc: Global, served: Served<'_>) -> Result<(), Fail> {
    let bays = row(alloc, 2)?;
    let drives = count_fresh(bays.as_slice())?;
    let rings = RingRow::of_drives(alloc, bays.as_slice())?;
    let hosts = hosts(alloc, 1)?;
    serve_over::<MemDisk, Brand, Brand, R>(
        rt,
        alloc,
        Unopened {
            bays,
            rings,
            slots: Slots::new(alloc)?,
            hosts: hosts.as_slice(),
            bay_ledger: Blank::new(drives),
            host_ledger: Blank::new(hosts.len() as u64),
        },
        served,
    )
}

#[test]
fn a_host_is_served(rt: HostRuntime) -> Result<(), Fail> {
    let output = bytes_of(rt.alloc(), ANSWERS)?;
    for place in 0..5 {
        let (input, end) = asked(rt.alloc(), REFUSED.get(place))?;
        serving_host(&rt, rt.alloc(), (input.as_slice(), output.as_slice(), end))?;
    }
    Ok(())
}
