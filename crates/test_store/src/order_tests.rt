//! Orders to a drive over a store, with losses of power, what is on the disk, and sides that are read.
use crate::asking::{
    A_NEW, A_OVER_A, A_WITHOUT_APTPL, BY_A, CHECK, CONFLICT, Found, GOOD, NEW, NEW_SIDE, NO_KEYS,
    NO_STORE, NONE, POWERED_ON, READ_KEYS, READ_RESERVATION, REGISTER, RESERVE_5, RESERVED, REWIND,
    Row, SIDE, SIDE_WITHOUT_APTPL, TEST_UNIT_READY, WITHOUT_APTPL, ask_all, found, host_over, made,
};
use aptpl_store::StoreError;
use pr_core::{Keeper, Reservations};
use std::alloc::Global;
use std::process::Abort;
use std::test::Fail;
use tape_disk::MemDisk;
use test_assertions::{assert_equal, assert_holds};

const KEY_A: &'static [u8] = b"\0\0\0\0\0\0\0\x08\0\0\0\0\0\0\0\xa1";

const KEY_A_RAISED: &'static [u8] = b"\0\0\0\x02\0\0\0\x08\0\0\0\0\0\0\0\xa1";

const HELD_BY_A: &'static [u8] = b"\0\0\0\0\0\0\0\x10\0\0\0\0\0\0\0\xa1\0\0\0\0\0\x05\0\0";

const HELD_BY_A_RAISED: &'static [u8] = b"\0\0\0\x01\0\0\0\x10\0\0\0\0\0\0\0\xa1\0\0\0\0\0\x05\0\0";

// Host 1 registers with APTPL and reserves. An order that changes nothing, and one that changes only the
// generation, save nothing.
const RESERVING: &'static [Row] = &[
    (1, TEST_UNIT_READY, NONE, CHECK, POWERED_ON, 0),
    (1, REGISTER, A_NEW, GOOD, NONE, 1),
    (1, RESERVE_5, BY_A, GOOD, NONE, 2),
    (1, RESERVE_5, BY_A, GOOD, NONE, 2),
    (1, REGISTER, A_OVER_A, GOOD, NONE, 2),
    (1, READ_KEYS, NONE, GOOD, KEY_A_RAISED, 2),
];

// All is left except the generation; then host 1 registers without APTPL.
const LEAVING: &'static [Row] = &[
    (1, TEST_UNIT_READY, NONE, CHECK, POWERED_ON, 2),
    (2, TEST_UNIT_READY, NONE, CHECK, POWERED_ON, 2),
    (1, READ_KEYS, NONE, GOOD, KEY_A, 2),
    (1, READ_RESERVATION, NONE, GOOD, HELD_BY_A, 2),
    (2, REWIND, NONE, CONFLICT, NONE, 2),
    (1, REGISTER, A_WITHOUT_APTPL, GOOD, NONE, 3),
    (1, READ_RESERVATION, NONE, GOOD, HELD_BY_A_RAISED, 3),
];

const LEFT: &'static [Row] = &[
    (1, TEST_UNIT_READY, NONE, CHECK, POWERED_ON, 3),
    (1, READ_KEYS, NONE, GOOD, NO_KEYS, 3),
    (1, READ_RESERVATION, NONE, GOOD, NO_KEYS, 3),
];

// From one loss of power to the next: the commands of hosts, the bytes on the disk then, and how many syncs
// it took: two to make the store, one to open it, and two for each save.
type Course = (&'static [Row], &'static [u8], u64);

static COURSES: &'static [Course] = &[
    (&[], NEW_SIDE, 3),
    (RESERVING, SIDE, 5),
    (LEAVING, SIDE_WITHOUT_APTPL, 3),
    (LEFT, SIDE_WITHOUT_APTPL, 1),
];

fn asked(rt: &impl Abort, alloc: Global, disk: MemDisk, course: Course) -> Result<MemDisk, Fail> {
    let (rows, bytes, syncs) = course;
    let Ok(mut drive) = host_over(alloc, disk) else {
        return Err(Fail::from("not opened"));
    };
    ask_all(rt, &mut drive, rows);
    let reached = drive.keeper().disk();
    assert_equal!(rt; (reached.bytes(), reached.syncs()), (bytes, syncs));
    Ok(reached.copy()?.crash(0, 0xa5)?)
}

#[test]
fn reservations_outlive_a_loss_of_power(rt: HostRuntime) -> Result<(), Fail> {
    let Ok(store) = made(rt.alloc(), MemDisk::new(rt.alloc())) else {
        return Err(Fail::from("not made"));
    };
    store.known();
    assert_equal!(rt; (store.name(), store.room()), (b"DRIVE1          ", 1_099_511_627_748));
    let mut disk = store.close();
    for course in COURSES {
        disk = asked(&rt, rt.alloc(), disk, *course)?;
    }
    Ok(())
}

// Memory is reserved for 256 saves at first.
#[test]
fn more_is_saved_than_was_reserved(rt: HostRuntime) -> Result<(), Fail> {
    let Ok(mut store) = made(rt.alloc(), MemDisk::new(rt.alloc())) else {
        return Err(Fail::from("not made"));
    };
    for save in 0..300u32 {
        assert_holds!(rt; store.save(&Reservations::empty()).is_ok(); save);
    }
    assert_equal!(rt; found(rt.alloc(), store.close()), Ok((300, [0; 4])));
    Ok(())
}

// A cartridge, and a store whose first frame is bad and its second good.
const CARTRIDGE: &'static [u8] = b"\xa5VTLCART1\0\x01T00001L6        \0\0\0\0\0\0\x10\0\0";

const BAD_FIRST: &'static [u8] = b"\xa5VTLRESV1\0\0DRIVE1          \
    \xa5\0\0\0\x0d\x02\0\0\x01\x01\0\0\0\0\0\0\0\xa1\
    \xa5\0\0\0\x0d\x01\x05\x01\x01\x01\0\0\0\0\0\0\0\xa1\
    \0";

// A side, how many of its bytes are on the disk, and what is found.
static SIDES: &'static [(&'static [u8], usize, Found)] = &[
    (NEW_SIDE, 28, NEW),
    (SIDE, 64, RESERVED),
    (SIDE_WITHOUT_APTPL, 82, WITHOUT_APTPL),
    (CARTRIDGE, 36, NO_STORE),
    (SIDE, 26, NO_STORE),
    (SIDE, 27, Err(StoreError::Damaged { at: 27 })),
    (SIDE, 63, Err(StoreError::Damaged { at: 45 })),
    (BAD_FIRST, 64, Err(StoreError::BadRecord { at: 27 })),
];

#[test]
fn sides_are_read(rt: HostRuntime) -> Result<(), Fail> {
    for &(side, size, wanted) in SIDES {
        let disk = MemDisk::from_bytes(rt.alloc(), side.get(..size).unwrap_or(NONE))?;
        assert_equal!(rt; found(rt.alloc(), disk), wanted; size);
    }
    Ok(())
}
