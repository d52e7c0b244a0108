//! A fault at each call of either disk in a storing, a turn and a loading, and sides that are refused.
use crate::samples::{
    CHANGED, EMPTY, END, ERASE, FAILED, GOOD, INQUIRED, INQUIRY, LATE_ERROR, LOAD, MARK, MODE_0,
    NO_MEDIUM, NONE, ONE, READ_1, READ_ERROR, READY, REWIND, Row, SELECT_4, Tape, UNLOAD, WRITE_1,
    WRITE_ERROR, WRITE_OUT, Wanted, ask, asks, greeted, reads, switch_off,
};
use std::alloc::Global;
use std::process::Abort;
use std::test::Fail;
use tape_disk::{Disk, MemDisk, OnceDisk};
use test_assertions::assert_equal;
use volume_core::Turn;

// A block is stored, and another waits.
const ONE_WAITS: &'static [Row<'static>] = &[
    (1, WRITE_1, b"a", GOOD),
    (1, WRITE_OUT, NONE, GOOD),
    (1, WRITE_1, b"b", GOOD),
];

// A block is stored, and the next must not wait.
const NONE_WAITS: &'static [Row<'static>] = &[
    (1, WRITE_1, b"a", GOOD),
    (1, WRITE_OUT, NONE, GOOD),
    (1, SELECT_4, MODE_0, GOOD),
];

// Two blocks are stored, and the position is before them.
const TWO_STAND: &'static [Row<'static>] = &[
    (1, WRITE_1, b"a", GOOD),
    (1, WRITE_1, b"b", GOOD),
    (1, REWIND, NONE, GOOD),
    (1, SELECT_4, MODE_0, GOOD),
];

// The commands before a command, the command, its answer where no call fails, and what the tape then holds
// without the frame in flight and with it.
type Case<'a> = (
    &'a [Row<'a>],
    &'a [u8],
    &'a [u8],
    Wanted<'a>,
    &'a [u8],
    &'a [u8],
);

static CASES: &'static [Case<'static>] = &[
    (ONE_WAITS, WRITE_OUT, NONE, GOOD, b"a", b"ab"),
    (ONE_WAITS, MARK, NONE, GOOD, b"a", b"ab|"),
    (ONE_WAITS, REWIND, NONE, GOOD, b"a", b"ab"),
    (ONE_WAITS, READ_1, NONE, END, b"a", b"ab"),
    (ONE_WAITS, ERASE, NONE, GOOD, b"a", b"ab"),
    (ONE_WAITS, LOAD, NONE, GOOD, b"a", b"ab"),
    (ONE_WAITS, UNLOAD, NONE, GOOD, b"a", b"ab"),
    (NONE_WAITS, WRITE_1, b"b", GOOD, b"a", b"ab"),
    (TWO_STAND, ERASE, NONE, GOOD, b"ab", b""),
];

// More calls than a test makes.
const NEVER: u64 = 1_000;

// A drive with a tape. The first disk fails at the call after the first number, the second disk after the
// second. Six calls of the first disk and one of the second switch the drive on. Four of the first store what
// comes before a case's command.
fn failing(
    rt: &impl Abort,
    alloc: Global,
    side: &[u8],
    calls: (u64, u64),
) -> Result<Tape<OnceDisk<MemDisk>>, Fail> {
    let first = OnceDisk::new(MemDisk::from_bytes(alloc, side)?, calls.0);
    let second = OnceDisk::new(MemDisk::new(alloc), calls.1);
    greeted(rt, alloc, first, second)
}

// The tape has failed. It is unloaded and loaded.
static FOUND_AGAIN: &'static [Row<'static>] = &[
    (1, READY, NONE, FAILED),
    (1, READ_1, NONE, FAILED),
    (1, LOAD, NONE, FAILED),
    (1, UNLOAD, NONE, GOOD),
    (1, READY, NONE, NO_MEDIUM),
    (1, LOAD, NONE, GOOD),
];

// A write, a sync, the write of the gate and a sync store a frame. A failed call does nothing, so the frame is
// there where the last call failed. The call after them does not belong to the case.
fn meets<D: Disk + Drop>(rt: &impl Abort, drive: &mut Tape<D>, case: &Case, calls: u64) {
    let (before, cdb, sent, wanted, without, with) = *case;
    asks(rt, drive, before);
    if calls == 14 {
        return ask(rt, drive, (1, cdb, sent, wanted), 0);
    }
    ask(rt, drive, (1, cdb, sent, WRITE_ERROR), 0);
    asks(rt, drive, FOUND_AGAIN);
    reads(rt, drive, if calls == 13 { with } else { without });
}

#[test]
fn a_fault_at_each_call_of_a_storing(rt: HostRuntime) -> Result<(), Fail> {
    for case in CASES {
        for calls in 10..15 {
            let mut drive = failing(&rt, rt.alloc(), EMPTY, (calls, NEVER))?;
            meets(&rt, &mut drive, case, calls);
            switch_off(drive);
        }
    }
    Ok(())
}

// A turn failed. That is reported to one host in place of its command, and to no other.
static REPORTED_ONCE: &'static [Row<'static>] = &[
    (1, INQUIRY, NONE, INQUIRED),
    (2, READY, NONE, LATE_ERROR),
    (1, READY, NONE, FAILED),
    (2, READY, NONE, FAILED),
    (2, INQUIRY, NONE, INQUIRED),
];

// A turn fails, which is reported, and the tape is found to hold this.
fn turn_fails<D: Disk + Drop>(rt: &impl Abort, drive: &mut Tape<D>, holds: &[u8]) {
    asks(rt, drive, ONE_WAITS);
    assert_equal!(rt; drive.turn(), Turn::Device);
    assert_equal!(rt; drive.turn(), Turn::Idle);
    asks(rt, drive, REPORTED_ONCE);
    asks(rt, drive, FOUND_AGAIN);
    reads(rt, drive, holds);
}

#[test]
fn a_fault_at_each_call_of_a_turn(rt: HostRuntime) -> Result<(), Fail> {
    for calls in 10..14 {
        let mut drive = failing(&rt, rt.alloc(), EMPTY, (calls, NEVER))?;
        let holds: &[u8] = if calls == 13 { b"ab" } else { b"a" };
        turn_fails(&rt, &mut drive, holds);
        switch_off(drive);
    }
    Ok(())
}

// The tape was not loaded at power on, but it is at the second command.
const LOADED_LATE: &'static [Row<'static>] = &[
    (1, READY, NONE, NO_MEDIUM),
    (1, LOAD, NONE, GOOD),
    (2, READY, NONE, CHANGED),
    (2, READY, NONE, GOOD),
];

// The tape is unloaded, and loaded only at the second command; that is reported to the other host once.
const LOADED_AGAIN: &'static [Row<'static>] = &[
    (1, UNLOAD, NONE, GOOD),
    (1, LOAD, NONE, READ_ERROR),
    (1, READY, NONE, NO_MEDIUM),
    (1, LOAD, NONE, GOOD),
    (2, READY, NONE, CHANGED),
    (2, READY, NONE, GOOD),
];

// A block could not be read.
const READ_AGAIN: &'static [Row<'static>] = &[
    (1, READ_1, NONE, READ_ERROR),
    (2, READY, NONE, FAILED),
    (1, UNLOAD, NONE, GOOD),
    (1, LOAD, NONE, GOOD),
];

// From how many calls of a disk on, and up to how many, a fault has these answers: of the first disk, or the second.
// On the first one a sync and a read decide which side counts; then come a sync, two reads of the header, two of gates
// and one of the body. On the second one there is a sync each time.
static LOADINGS: &'static [(u64, u64, bool, &'static [Row<'static>])] = &[
    (0, 8, true, LOADED_LATE),
    (8, 16, true, LOADED_AGAIN),
    (8, 9, true, READ_AGAIN),
    (0, 1, false, LOADED_LATE),
    (1, 2, false, LOADED_AGAIN),
];

// The tape has one block, which it has afterwards.
#[test]
fn a_fault_at_each_call_of_a_loading(rt: HostRuntime) -> Result<(), Fail> {
    for &(from, to, is_first, rows) in LOADINGS {
        for calls in from..to {
            let both = if is_first {
                (calls, NEVER)
            } else {
                (NEVER, calls)
            };
            let mut drive = failing(&rt, rt.alloc(), ONE, both)?;
            asks(&rt, &mut drive, rows);
            reads(&rt, &mut drive, b"a");
            switch_off(drive);
        }
    }
    Ok(())
}

// A refused side is in the drive, unloaded, and LOAD reports the error; UNLOAD changes nothing.
static UNREADABLE: &'static [Row<'static>] = &[
    (1, READY, NONE, NO_MEDIUM),
    (1, LOAD, NONE, READ_ERROR),
    (1, UNLOAD, NONE, GOOD),
    (1, LOAD, NONE, READ_ERROR),
    (2, READY, NONE, NO_MEDIUM),
];

// No cartridge's side, one partition too many, a record of an unknown kind, and an open last gate.
static WRONG: &'static [(usize, u8)] = &[(0, 0x00), (10, 0x05), (40, 0x04), (51, 0xa5)];

// The side with one block, with one of its bytes set to a value.
fn changed(alloc: Global, place: usize, value: u8) -> Result<MemDisk, Fail> {
    let mut side = ONE.to_vec(alloc)?;
    if place < side.len() {
        side[place] = value;
    }
    Ok(MemDisk::from_bytes(alloc, &side)?)
}

#[test]
fn a_side_that_is_refused(rt: HostRuntime) -> Result<(), Fail> {
    for &(place, value) in WRONG {
        let disk = changed(rt.alloc(), place, value)?;
        let mut drive = greeted(&rt, rt.alloc(), disk, MemDisk::new(rt.alloc()))?;
        asks(&rt, &mut drive, UNREADABLE);
        switch_off(drive);
    }
    Ok(())
}
