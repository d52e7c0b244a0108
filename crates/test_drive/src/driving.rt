//! Each public call once, over a medium whose side is limited and whose device fails.
use crate::asked::{
    Answer, BLOCK_LIMITS, CHANGED, END, ERASE, FAILED, FULL, FULL_BY_1, FULL_BY_3, FULL_BY_5, GOOD,
    HELLO, INQUIRY, IS, LATE_ERROR, LIMITS, LOAD, LOCATE_0, MARK, MARK_AT_ONCE, MARK_FORWARD,
    NO_MARKS, NO_MEMORY, NONE, NOTHING_PENDING, POSITION, POWERED_ON, READ_5, READ_ERROR,
    REQUEST_SENSE, REWIND, Row, SELECT, SENSE_MODE, TEST_UNIT_READY, THREE_MARKS, UNBUFFERED,
    UNKNOWN, UNLOAD, WRITE_5, WRITE_ERROR, WRITE_MARK,
};
use crate::asking::{AT_ONCE, Plain, SOUND, ask_all, asks, assert_answer, load, with_side};
use drive_commands::Fault;
use drive_theorems::{
    answers_are_determined, counts_are_held, events_run, honest_steps, replies_show_changes,
    runs_append, served_hosts_run,
};
use pr_core::NoKeeper;
use std::process::Abort;
use std::test::Fail;
use test_assertions::{assert_equal, assert_holds};
use test_media::FaultPlan;
use volume_core::{PlainMedium, Turn};
use vtl_base::NoMemory;

// A side of 50 bytes: a block of five bytes takes 20 of it, one of one byte 16, marks 15.
const FILLING: &'static [Row<'static>] = &[
    // a command block of no byte, before anything else
    (1, NONE, NONE, UNKNOWN),
    (1, TEST_UNIT_READY, NONE, POWERED_ON),
    (1, WRITE_5, b"hello", GOOD),
    (1, MARK_AT_ONCE, NONE, GOOD),
    (1, WRITE_5, b"hello", FULL_BY_5),
    (1, &[0x0a, 0, 0, 0, 1, 0], b"x", FULL_BY_1),
    (1, &[0x10, 1, 0, 0, 2, 0], NONE, GOOD),
    (1, &[0x10, 1, 0, 0, 3, 0], NONE, FULL_BY_3),
    (1, THREE_MARKS, NONE, FULL_BY_3),
];

const FULL_SIDE: &'static [Row<'static>] = &[
    (1, WRITE_5, b"hello", FULL_BY_5),
    (1, REWIND, NONE, GOOD),
    (1, READ_5, NONE, HELLO),
    (1, READ_5, NONE, MARK),
    (1, READ_5, NONE, MARK),
    (1, READ_5, NONE, MARK),
    (1, READ_5, NONE, END),
];

// A side of 20 bytes: a block of five bytes takes it all, and an erase would take 15.
const NO_ERASURE: &'static [Row<'static>] = &[
    (1, TEST_UNIT_READY, NONE, POWERED_ON),
    (1, WRITE_5, b"block", GOOD),
    (1, REWIND, NONE, GOOD),
    (1, ERASE, NONE, FULL),
    (1, READ_5, NONE, Answer::Good(b"block")),
    (1, READ_5, NONE, END),
];

const REWIND_FAILS: &'static [Row<'static>] = &[
    (1, TEST_UNIT_READY, NONE, POWERED_ON),
    (1, WRITE_5, b"hello", GOOD),
    (1, REWIND, NONE, WRITE_ERROR),
    (1, TEST_UNIT_READY, NONE, FAILED),
    (1, REWIND, b"x", FAILED),
    (1, READ_5, NONE, FAILED),
    (1, &[0xa5; 12], NONE, UNKNOWN),
    (64, REWIND, NONE, POWERED_ON),
];

const MARKS_FAIL: &'static [Row<'static>] = &[
    (1, TEST_UNIT_READY, NONE, POWERED_ON),
    (1, WRITE_5, b"hello", GOOD),
    (1, WRITE_MARK, NONE, GOOD),
    (1, WRITE_MARK, NONE, WRITE_ERROR),
];

const READ_FAILS: &'static [Row<'static>] = &[
    (1, TEST_UNIT_READY, NONE, POWERED_ON),
    (1, WRITE_5, b"hello", GOOD),
    (1, WRITE_5, b"world", GOOD),
    (1, REWIND, NONE, GOOD),
    (1, READ_5, NONE, HELLO),
    (1, REWIND, NONE, GOOD),
    (1, READ_5, NONE, READ_ERROR),
];

// In unbuffered mode a write is stored before its answer.
const WRITE_FAILS: &'static [Row<'static>] = &[
    (1, TEST_UNIT_READY, NONE, POWERED_ON),
    (1, SELECT, UNBUFFERED, GOOD),
    (1, WRITE_5, b"hello", WRITE_ERROR),
    (1, SENSE_MODE, NONE, Answer::Good(b"\x03\0\0\0")),
];

const HAS_FAILED: &'static [Row<'static>] = &[
    (1, TEST_UNIT_READY, NONE, FAILED),
    (1, REWIND, NONE, FAILED),
];

const BEFORE_A_TURN: &'static [Row<'static>] = &[
    (1, TEST_UNIT_READY, NONE, POWERED_ON),
    (1, WRITE_5, b"hello", GOOD),
    (1, REWIND, NONE, GOOD),
    (1, WRITE_5, b"world", GOOD),
];

// The deferred error is reported at the first command with a known code, whichever host sends it.
const REPORTED_ONCE: &'static [Row<'static>] = &[
    (1, &[0xa5; 12], NONE, UNKNOWN),
    (2, TEST_UNIT_READY, NONE, LATE_ERROR),
    (2, TEST_UNIT_READY, NONE, POWERED_ON),
    (2, TEST_UNIT_READY, NONE, FAILED),
    (1, REWIND, NONE, FAILED),
];

// Which storing fails, which reading, and the room of the side; commands, what a turn does then, and commands after it.
type Course = (
    (Option<u32>, Option<u32>, u64),
    &'static [Row<'static>],
    Turn,
    &'static [Row<'static>],
);

static COURSES: &'static [Course] = &[
    ((None, None, 50), FILLING, Turn::Stored(3), FULL_SIDE),
    ((None, None, 20), NO_ERASURE, Turn::Idle, &[]),
    ((Some(0), None, 1_000), REWIND_FAILS, Turn::Idle, HAS_FAILED),
    ((Some(1), None, 1_000), MARKS_FAIL, Turn::Idle, HAS_FAILED),
    ((Some(0), None, 1_000), WRITE_FAILS, Turn::Idle, HAS_FAILED),
    ((None, Some(1), 1_000), READ_FAILS, Turn::Idle, HAS_FAILED),
    (
        (Some(1), None, 1_000),
        BEFORE_A_TURN,
        Turn::Device,
        REPORTED_ONCE,
    ),
];

fn goes_on(rt: &impl Abort, drive: &mut Plain, rows: &[Row], turn: Turn, then: &[Row]) {
    ask_all(rt, drive, rows);
    assert_equal!(rt; drive.turn(), turn);
    ask_all(rt, drive, then);
}

#[test]
fn a_drive_answers(rt: HostRuntime) -> Result<(), Fail> {
    for &((store, fetch, room), rows, turn, then) in COURSES {
        let plan = FaultPlan {
            store,
            fetch,
            ..SOUND
        };
        let mut drive = with_side(rt.alloc(), room, plan)?;
        goes_on(&rt, &mut drive, rows, turn, then);
    }
    Ok(())
}

// A block is pending, and the device fails while it is stored: each command ends in this way, before its work.
static STORED_FIRST: &'static [&'static [u8]] = &[
    MARK_FORWARD,
    &[0x11, 3, 0, 0, 0, 0],
    LOCATE_0,
    &[0x2b, 0, 0, 0, 0, 0, 9, 0, 0, 0],
    POSITION,
    ERASE,
    READ_5,
    NO_MARKS,
];

static BEFORE_A_FAULT: &'static [Row<'static>] = &[
    (1, TEST_UNIT_READY, NONE, POWERED_ON),
    (1, WRITE_5, b"block", GOOD),
];

// Answers after the medium has failed: commands that need no medium are carried out.
static AFTER_A_FAULT: &'static [Row<'static>] = &[
    (1, POSITION, NONE, FAILED),
    (1, ERASE, NONE, FAILED),
    (1, LOCATE_0, NONE, FAILED),
    (1, INQUIRY, NONE, IS),
    (1, BLOCK_LIMITS, NONE, LIMITS),
    (1, REQUEST_SENSE, NONE, NOTHING_PENDING),
];

fn stores_first(rt: &impl Abort, drive: &mut Plain, cdb: &[u8]) {
    ask_all(rt, drive, BEFORE_A_FAULT);
    asks(rt, drive, (1, cdb, NONE, WRITE_ERROR), 0);
    ask_all(rt, drive, AFTER_A_FAULT);
}

#[test]
fn what_is_pending_is_stored_first(rt: HostRuntime) -> Result<(), Fail> {
    for cdb in STORED_FIRST {
        let mut drive = with_side(rt.alloc(), 1_000, AT_ONCE)?;
        stores_first(&rt, &mut drive, cdb);
    }
    Ok(())
}

// A deferred error is reported before an attention, once.
const BY_REQUEST_SENSE: &'static [Row<'static>] = &[
    (2, INQUIRY, NONE, IS),
    (2, &[0xa5; 12], NONE, UNKNOWN),
    (
        2,
        REQUEST_SENSE,
        NONE,
        Answer::Good(b"\x71\0\x03\0\0\0\0\x0a\0\0\0\0\x0c\0\0\0\0\0"),
    ),
    (
        2,
        REQUEST_SENSE,
        NONE,
        Answer::Good(b"\x70\0\x06\0\0\0\0\x0a\0\0\0\0\x29\0\0\0\0\0"),
    ),
    (2, POSITION, NONE, FAILED),
    (1, TEST_UNIT_READY, NONE, FAILED),
];

// UNLOAD reports it and does nothing else; then LOAD opens what is on the side, without what was pending.
const AFTER_AN_UNLOADING: &'static [Row<'static>] = &[
    (1, UNLOAD, NONE, LATE_ERROR),
    (1, TEST_UNIT_READY, NONE, FAILED),
    (1, UNLOAD, NONE, GOOD),
    (1, LOAD, NONE, GOOD),
    (1, TEST_UNIT_READY, NONE, GOOD),
    (1, READ_5, NONE, END),
    (2, TEST_UNIT_READY, NONE, POWERED_ON),
    (2, TEST_UNIT_READY, NONE, CHANGED),
];

// Where the cartridge was moved out of the drive and back before any command.
const AFTER_A_MOVE: &'static [Row<'static>] = &[
    (1, TEST_UNIT_READY, NONE, LATE_ERROR),
    (1, TEST_UNIT_READY, NONE, CHANGED),
    (1, READ_5, NONE, END),
    (2, TEST_UNIT_READY, NONE, POWERED_ON),
    (2, TEST_UNIT_READY, NONE, CHANGED),
];

// Whether the cartridge is moved after a turn that met a fault, and the answers then.
static LATE: &'static [(bool, &'static [Row<'static>])] = &[
    (false, BY_REQUEST_SENSE),
    (false, AFTER_AN_UNLOADING),
    (true, AFTER_A_MOVE),
];

fn move_out_and_in(rt: &impl Abort, drive: &mut Plain) {
    match drive.unload() {
        Ok(medium) => assert_holds!(rt; load(rt, drive, medium).is_none()),
        Err(_) => assert_holds!(rt; false, "nothing came out"),
    }
}

fn is_late(rt: &impl Abort, drive: &mut Plain, moves: bool, rows: &[Row]) {
    goes_on(rt, drive, BEFORE_A_FAULT, Turn::Device, &[]);
    if moves {
        move_out_and_in(rt, drive);
    }
    assert_holds!(rt; drive.has_deferred_error());
    ask_all(rt, drive, rows);
    assert_holds!(rt; !drive.has_deferred_error());
}

// A deferred error belongs to the drive: it stays while the cartridge is moved.
#[test]
fn a_deferred_error_outlives_a_cartridge(rt: HostRuntime) -> Result<(), Fail> {
    for &(moves, rows) in LATE {
        let mut drive = with_side(rt.alloc(), 1_000, AT_ONCE)?;
        is_late(&rt, &mut drive, moves, rows);
    }
    Ok(())
}

// Faults, and the report of each.
static FAULTS: &'static [(Fault, Answer<'static>)] = &[
    (Fault::Writing, WRITE_ERROR),
    (Fault::Reading, READ_ERROR),
    (Fault::SideFull { residue: None }, FULL),
    (Fault::SideFull { residue: Some(1) }, FULL_BY_1),
];

#[test]
fn faults_are_reported(rt: HostRuntime) {
    let alloc = rt.alloc();
    assert_answer(&rt, &Fault::from(NoMemory).reply(alloc), NO_MEMORY, 0);
    for (at, &(fault, wanted)) in FAULTS.iter().enumerate() {
        assert_answer(&rt, &fault.reply(alloc), wanted, at);
    }
    honest_steps::<PlainMedium>();
    served_hosts_run::<PlainMedium, NoKeeper>();
    events_run::<PlainMedium, NoKeeper>();
    replies_show_changes::<PlainMedium, NoKeeper>();
    counts_are_held();
    answers_are_determined();
    runs_append();
}
