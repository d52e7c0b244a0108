//! The saves of a drive's reservations, and the answers to hosts where the keeper refuses.
use crate::asked::{
    A_NEW, Answer, B_NEW, BAD_FIELD, BAD_LENGTH, BY_A, BY_B, CLEAR, CLEARED, CONFLICT, FAILED,
    GOOD, NO_KEYS, NO_MEMORY, NONE, READ_KEYS, READ_RESERVATION, REGISTER, RELEASE_5, RESERVE_5,
    REWIND, Row, STORE_FULL, TEST_UNIT_READY,
};
use crate::asking::{SOUND, ask_all, asks, greet};
use drive_commands::Drive;
use pr_core::Reservations;
use std::alloc::Global;
use std::process::Abort;
use std::test::Fail;
use test_media::{SaveFault, SavePlan, StagedKeeper, StagedMedium};
use vtl_base::NoMemory;

type Kept = Drive<StagedMedium, StagedKeeper>;

// A drive with a tape, whose keeper has this room, and a save of which fails.
fn with_keeper(alloc: Global, room: u64, plan: Option<SavePlan>) -> Result<Kept, NoMemory> {
    let keeper = StagedKeeper::new(Reservations::empty(), room, plan);
    let left = Reservations::empty().power_loss();
    let medium = StagedMedium::new(alloc, &[4_096], 4_096, SOUND)?;
    Drive::power_on(alloc, keeper, left, Some(medium)).map_err(|_| NoMemory)
}

// Two keys, and the first one's reservation.
const TWO: &'static [u8] = b"\0\0\0\x02\0\0\0\x10\0\0\0\0\0\0\0\xa1\0\0\0\0\0\0\0\xb2";

const HELD: &'static [u8] = b"\0\0\0\x02\0\0\0\x10\0\0\0\0\0\0\0\xa1\0\0\0\0\0\x05\0\0";

// Orders, each of which is to be saved, and the keys and the reservation before each.
static SAVED_ORDERS: &'static [(Row<'static>, &'static [u8], &'static [u8])] = &[
    (
        (1, REGISTER, A_NEW, GOOD),
        b"\0\0\0\0\0\0\0\0",
        b"\0\0\0\0\0\0\0\0",
    ),
    (
        (2, REGISTER, B_NEW, GOOD),
        b"\0\0\0\x01\0\0\0\x08\0\0\0\0\0\0\0\xa1",
        b"\0\0\0\x01\0\0\0\0",
    ),
    ((1, RESERVE_5, BY_A, GOOD), TWO, b"\0\0\0\x02\0\0\0\0"),
    ((2, CLEAR, BY_B, GOOD), TWO, HELD),
];

// The old reservations stay.
fn stand(rt: &impl Abort, drive: &mut Kept, keys: &'static [u8], held: &'static [u8]) {
    asks(rt, drive, (1, READ_KEYS, NONE, Answer::Good(keys)), 0);
    asks(
        rt,
        drive,
        (2, READ_RESERVATION, NONE, Answer::Good(held)),
        1,
    );
}

// The conditions that are then reported to both hosts.
static AFTER_A_CLEARING: &'static [Row<'static>] = &[
    (1, TEST_UNIT_READY, NONE, CLEARED),
    (2, TEST_UNIT_READY, NONE, GOOD),
];

// The save of this order is refused, and from then on each one where the device failed; else the order succeeds when it
// is sent again.
fn is_refused(rt: &impl Abort, drive: &mut Kept, at: usize, refusal: Answer, stays: bool) {
    greet(rt, drive, &[1, 2, 3]);
    for (turn, &(row, keys, held)) in SAVED_ORDERS.iter().enumerate() {
        let fails = turn == at || stays && turn > at;
        if fails {
            asks(rt, drive, (row.0, row.1, row.2, refusal), turn);
        }
        if turn <= at || !stays {
            stand(rt, drive, keys, held);
        }
        if !fails || !stays {
            asks(rt, drive, row, turn);
        }
    }
}

#[test]
fn memory_runs_out_in_a_save(rt: HostRuntime) -> Result<(), Fail> {
    for after in 0..4u32 {
        let by = SaveFault::NoMemory;
        let mut drive = with_keeper(rt.alloc(), 4_096, Some(SavePlan { after, by }))?;
        is_refused(&rt, &mut drive, after as usize, NO_MEMORY, false);
        ask_all(&rt, &mut drive, AFTER_A_CLEARING);
    }
    Ok(())
}

// The answers after a save has met a device fault.
static AFTER_A_FAULT: &'static [Row<'static>] = &[
    (3, CLEAR, BY_A, FAILED),
    (3, REGISTER, NO_KEYS, FAILED),
    (1, CLEAR, &[0; 23], BAD_FIELD),
    (1, &[0x5f, 3, 0, 0, 0, 0, 0, 0, 0, 0], NONE, BAD_LENGTH),
    (1, REWIND, NONE, GOOD),
    (2, TEST_UNIT_READY, NONE, GOOD),
];

// After a device fault each order that passes its checks has the answer of the one whose save failed, before
// the machine is called. No condition is established, and reads and the medium go on.
#[test]
fn the_device_fails_in_a_save(rt: HostRuntime) -> Result<(), Fail> {
    for after in 0..4u32 {
        let by = SaveFault::Device;
        let mut drive = with_keeper(rt.alloc(), 4_096, Some(SavePlan { after, by }))?;
        is_refused(&rt, &mut drive, after as usize, FAILED, true);
        ask_all(&rt, &mut drive, AFTER_A_FAULT);
    }
    Ok(())
}

// A state with one registration takes 18 bytes of a store, with two 27, with none 9.
static FULL_STORE: &'static [Row<'static>] = &[
    (1, REGISTER, A_NEW, GOOD),
    (2, REGISTER, B_NEW, STORE_FULL),
    (
        2,
        READ_KEYS,
        NONE,
        Answer::Good(b"\0\0\0\x01\0\0\0\x08\0\0\0\0\0\0\0\xa1"),
    ),
    (2, CLEAR, BY_B, CONFLICT),
    (1, RELEASE_5, BY_A, GOOD),
    (1, RESERVE_5, BY_A, STORE_FULL),
    (1, CLEAR, BY_A, GOOD),
    (1, READ_KEYS, NONE, Answer::Good(b"\0\0\0\x02\0\0\0\0")),
];

#[test]
fn a_store_is_full(rt: HostRuntime) -> Result<(), Fail> {
    let mut drive = with_keeper(rt.alloc(), 27, None)?;
    greet(&rt, &mut drive, &[1, 2]);
    ask_all(&rt, &mut drive, FULL_STORE);
    Ok(())
}
