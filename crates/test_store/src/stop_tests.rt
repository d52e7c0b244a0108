//! A stop at each call of the disk, through orders to a drive.
use crate::asking::{
    A_NEW, A_WITHOUT_APTPL, BY_A, CHECK, FAULT, Found, GOOD, Host, NEW, NO_STORE, NONE, REGISTER,
    REGISTERED, RESERVE_5, RESERVED, SIDE, SIDE_WITH_TAIL, SIDE_WITHOUT_APTPL, TEST_UNIT_READY,
    WITHOUT_APTPL, found, host_over, new_host,
};
use aptpl_store::StoreError::{BadRecord, Damaged};
use std::alloc::Global;
use std::process::Abort;
use std::test::Fail;
use tape_disk::{Disk, FuseDisk, MemDisk};
use test_assertions::{assert_equal, assert_holds};
use test_crashes::{Run, Stop, stop_at_each_call};
use vtl_base::{Nexus, NoMemory};

// A command of host 1, the data sent with it, and its status where all succeeds.
type Order = (&'static [u8], &'static [u8], u8);

// Host 1 gives orders to a drive: over a new store, or over the store on the disk; or that is only opened.
#[derive(Clone, Copy, PartialEq, Eq)]
enum Work {
    Making,
    Leaving,
    Opening,
}

const MAKING: &'static [Order] = &[
    (TEST_UNIT_READY, NONE, CHECK),
    (REGISTER, A_NEW, GOOD),
    (RESERVE_5, BY_A, GOOD),
];

const LEAVING: &'static [Order] = &[
    (TEST_UNIT_READY, NONE, CHECK),
    (REGISTER, A_WITHOUT_APTPL, GOOD),
];

const NO_ORDERS: &'static [Order] = &[];

// Whether all orders succeed.
fn ordered<D: Disk + Drop>(drive: &mut Host<D>, orders: &[Order]) -> bool {
    let Some(host) = Nexus::new(1) else {
        unreachable!()
    };
    for (cdb, sent, status) in orders {
        if drive.execute(host, cdb, sent).status.code() != *status {
            return false;
        }
    }
    true
}

// The disk after the orders, and whether all of them succeed.
fn reached(
    alloc: Global,
    drive: &mut Host<FuseDisk<MemDisk>>,
    orders: &[Order],
) -> (MemDisk, bool) {
    let ended = ordered(drive, orders);
    match drive.keeper().disk().inner().copy() {
        Ok(reached) => (reached, ended),
        Err(_) => (MemDisk::new(alloc), false),
    }
}

impl Run for Work {
    fn run(&self, alloc: Global, disk: FuseDisk<MemDisk>) -> (MemDisk, bool) {
        let (host, orders) = match self {
            Work::Making => (new_host(alloc, disk), MAKING),
            Work::Leaving => (host_over(alloc, disk), LEAVING),
            Work::Opening => (host_over(alloc, disk), NO_ORDERS),
        };
        match host {
            Ok(mut drive) => reached(alloc, &mut drive, orders),
            // A store that is refused ends the work, where the cause is not a fault.
            Err(refused) => {
                let ended = refused.error != FAULT;
                (refused.disk.into_inner(), ended)
            }
        }
    }
}

// What may be found after at most this many calls: one state or another.
type Moment = (u64, Found, Found);

// Making a store takes five calls, saving four.
const OVER_NOTHING: &'static [Moment] = &[
    (0, NO_STORE, NO_STORE),
    (4, NO_STORE, NEW),
    (5, NEW, NEW),
    (8, NEW, REGISTERED),
    (9, REGISTERED, REGISTERED),
    (12, REGISTERED, RESERVED),
    (13, RESERVED, RESERVED),
];

// Where a store was before, it is gone with the first call.
const OVER_A_STORE: &'static [Moment] = &[
    (0, WITHOUT_APTPL, WITHOUT_APTPL),
    (4, NO_STORE, NEW),
    (5, NEW, NEW),
    (8, NEW, REGISTERED),
    (9, REGISTERED, REGISTERED),
    (12, REGISTERED, RESERVED),
    (13, RESERVED, RESERVED),
];

// Opening a store takes a sync, two reads of the header, two of each frame, and one of the last gate.
const OVER_THE_SIDE: &'static [Moment] = &[
    (8, RESERVED, RESERVED),
    (11, RESERVED, WITHOUT_APTPL),
    (12, WITHOUT_APTPL, WITHOUT_APTPL),
];

// The first save over a tail takes five calls: it cuts the tail off before it writes.
const OVER_A_TAIL: &'static [Moment] = &[
    (11, RESERVED, RESERVED),
    (12, RESERVED, WITHOUT_APTPL),
    (13, WITHOUT_APTPL, WITHOUT_APTPL),
];

// The first bytes of the disk, with a value at one place.
type Image = (&'static [u8], usize, usize, u8);

const TAILED: Image = (SIDE_WITH_TAIL, 84, 0, 0xa5);

const LEFT: Image = (SIDE_WITHOUT_APTPL, 82, 0, 0xa5);

// The disk, the work, how many calls of the disk it takes, and what may be found where it stops.
type Course = (Image, Work, u64, &'static [Moment]);

static COURSES: &'static [Course] = &[
    ((NONE, 0, 0, 0xa5), Work::Making, 13, OVER_NOTHING),
    (LEFT, Work::Making, 13, OVER_A_STORE),
    ((SIDE, 64, 0, 0xa5), Work::Leaving, 12, OVER_THE_SIDE),
    (TAILED, Work::Leaving, 13, OVER_A_TAIL),
];

// Openings, how many calls they take, and what is found. One that is refused ends there: behind a sync, two reads of
// the header, one of each gate, or one of each body.
static OPENINGS: &'static [(Image, u64, Found)] = &[
    ((SIDE, 64, 0, 0xa5), 8, RESERVED),
    (TAILED, 8, RESERVED),
    (LEFT, 10, WITHOUT_APTPL),
    ((SIDE, 26, 0, 0xa5), 1, NO_STORE),
    ((SIDE, 64, 9, 0x07), 3, NO_STORE),
    ((SIDE, 27, 0, 0xa5), 3, Err(Damaged { at: 27 })),
    ((SIDE, 45, 0, 0xa5), 4, Err(Damaged { at: 27 })),
    ((SIDE, 63, 0, 0xa5), 5, Err(Damaged { at: 45 })),
    ((SIDE, 64, 63, 0xa5), 6, Err(Damaged { at: 63 })),
    ((SIDE, 64, 32, 0x02), 7, Err(BadRecord { at: 27 })),
    ((SIDE, 64, 50, 0x02), 8, Err(BadRecord { at: 45 })),
];

fn disk_of(alloc: Global, image: Image) -> Result<MemDisk, NoMemory> {
    let (bytes, len, place, value) = image;
    let mut changed = Vec::from_slice(alloc, &bytes[..bytes.len().min(len)])?;
    if let Some(byte) = changed.get_mut(place) {
        *byte = value;
    }
    MemDisk::from_bytes(alloc, changed.as_slice())
}

fn may_be_found(left: Found, calls: u64, moments: &[Moment]) -> bool {
    for &(upto, old, new) in moments {
        if calls <= upto {
            return left == old || left == new;
        }
    }
    false
}

// What is found at each stop is allowed there, and the work has ended directly after its last call. An opening changes
// nothing. Each is stopped nine times.
fn stopped(
    rt: &impl Abort,
    alloc: Global,
    image: Image,
    work: Work,
    total: u64,
    moments: &[Moment],
) -> Result<(), Fail> {
    let before = disk_of(alloc, image)?;
    let stops = stop_at_each_call(alloc, &before, &work)?;
    assert_equal!(rt; stops.len() as u64 / 9, total.saturating_add(1));
    for stop in stops {
        let Stop { calls, ended, disk } = stop;
        assert_holds!(rt; work != Work::Opening || disk.bytes() == before.bytes(); calls);
        let left = found(alloc, disk);
        assert_holds!(rt; may_be_found(left, calls, moments); (left, calls));
        assert_equal!(rt; ended, calls == total; calls);
    }
    Ok(())
}

#[test]
fn an_order_is_stopped_at_each_call(rt: HostRuntime) -> Result<(), Fail> {
    for &(image, work, total, moments) in COURSES {
        stopped(&rt, rt.alloc(), image, work, total, moments)?;
    }
    for &(image, total, here) in OPENINGS {
        let moments = [(total, here, here)];
        stopped(&rt, rt.alloc(), image, Work::Opening, total, &moments)?;
    }
    Ok(())
}
