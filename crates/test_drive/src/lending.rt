//! Commands with lent data: what is left of them, how many changes were accepted, and which half of a drive answers.
use crate::asked::{
    Answer, BAD_FIELD, END, ERASE, FAILED, FULL_BY_5, GOOD, HELLO, LOAD, LOCATE_0, MARK,
    MARK_AT_ONCE, MARK_BACK, NO_MARKS, NO_MEDIUM, NONE, NOTHING_PENDING, POSITION, POWERED_ON,
    READ_5, REQUEST_SENSE, REWIND, Row, SELECT, TEST_UNIT_READY, THREE_MARKS, UNBUFFERED, UNLOAD,
    WRITE_0, WRITE_5, WRITE_ERROR, WRITE_MARK,
};
use crate::asking::{Plain, SOUND, assert_answer, switched_on, with_side};
use scsi_sense::Reply;
use std::alloc::Global;
use std::process::Abort;
use std::test::Fail;
use test_assertions::assert_equal;
use test_media::{FaultPlan, StagedMedium};
use vtl_base::{Bytes, Nexus};

// A command, the data that are left, and how many changes the drive has accepted after it.
type Lent<'a> = (Row<'a>, &'a [u8], u64);

// A block of 4,081 bytes takes 4,097 of a partition of 4,096.
const TOO_LONG: &'static [u8] = &[0x5a; 4_081];

const WRITE_TOO_LONG: &'static [u8] = &[0x0a, 0, 0, 0x0f, 0xf1, 0];

const FULL_BY_4081: Answer<'static> = Answer::Sense(0xf0, 0x4d, 4_081, 0, 2);

// After a block of five bytes, which takes 21, one of 3,804 bytes ends at 3,841; the early zone begins above
// 3,840.
const LONG: &'static [u8] = &[0x5a; 3_804];

const WRITE_LONG: &'static [u8] = &[0x0a, 0, 0, 0x0e, 0xdc, 0];

const EARLY_WARNING: Answer<'static> = Answer::Sense(0xf0, 0x40, 0, 0, 2);

// All commands that change a medium, some that do not, and some that are refused.
const CHANGES: &'static [Lent<'static>] = &[
    ((1, WRITE_5, b"hello", POWERED_ON), b"hello", 0),
    ((1, WRITE_5, b"hello", GOOD), NONE, 1),
    ((1, WRITE_0, NONE, GOOD), NONE, 1),
    ((1, WRITE_5, b"hell", BAD_FIELD), b"hell", 1),
    ((1, WRITE_TOO_LONG, TOO_LONG, FULL_BY_4081), TOO_LONG, 1),
    ((1, NO_MARKS, NONE, GOOD), NONE, 1),
    ((1, THREE_MARKS, NONE, GOOD), NONE, 2),
    ((1, REWIND, NONE, GOOD), NONE, 2),
    ((1, READ_5, NONE, HELLO), NONE, 2),
    ((1, ERASE, NONE, GOOD), NONE, 3),
    ((1, WRITE_LONG, LONG, EARLY_WARNING), NONE, 4),
    ((1, UNLOAD, NONE, GOOD), NONE, 4),
    ((1, WRITE_5, b"hello", NO_MEDIUM), b"hello", 4),
    ((1, LOAD, NONE, GOOD), NONE, 4),
    ((1, ERASE, NONE, GOOD), NONE, 5),
    ((1, ERASE, NONE, GOOD), NONE, 6),
];

// A side of 50 bytes: a block of five bytes takes 20 of it.
const UP_TO_THE_END: &'static [Lent<'static>] = &[
    ((1, TEST_UNIT_READY, NONE, POWERED_ON), NONE, 0),
    ((1, WRITE_5, b"hello", GOOD), NONE, 1),
    ((1, WRITE_5, b"world", GOOD), NONE, 2),
    ((1, WRITE_5, b"again", FULL_BY_5), b"again", 2),
];

// MODE SELECT sets the unbuffered mode; its list stays. A block is accepted, and then the device fails.
const FAILS_BEHIND: &'static [Lent<'static>] = &[
    ((1, TEST_UNIT_READY, NONE, POWERED_ON), NONE, 0),
    ((1, SELECT, UNBUFFERED, GOOD), UNBUFFERED, 0),
    ((1, WRITE_5, b"hello", WRITE_ERROR), NONE, 1),
    ((1, WRITE_5, b"world", FAILED), b"world", 1),
];

// An ERASE first stores what is pending, and the device fails: the ERASE is not accepted.
const FAILS_BEFORE: &'static [Lent<'static>] = &[
    ((1, TEST_UNIT_READY, NONE, POWERED_ON), NONE, 0),
    ((1, WRITE_5, b"hello", GOOD), NONE, 1),
    ((1, ERASE, NONE, WRITE_ERROR), NONE, 1),
    ((1, WRITE_5, b"hello", FAILED), b"hello", 1),
];

// The room of a side, the storing that fails, and the commands.
static COURSES: &'static [(u64, Option<u32>, &'static [Lent<'static>])] = &[
    (10_000, None, CHANGES),
    (50, None, UP_TO_THE_END),
    (1_000, Some(0), FAILS_BEHIND),
    (1_000, Some(0), FAILS_BEFORE),
];

fn lends(rt: &impl Abort, alloc: Global, drive: &mut Plain, rows: &[Lent]) -> Result<(), Fail> {
    for (at, &((host, cdb, sent, wanted), left, accepted)) in rows.iter().enumerate() {
        let nexus = Nexus::new(host).expect(rt, "a nexus");
        let mut lent = Bytes::from_slice(alloc, sent)?;
        let reply = drive.execute_lent(nexus, cdb, &mut lent);
        assert_answer(rt, &reply, wanted, at);
        assert_equal!(rt; (lent.as_slice(), drive.accepted()), (left, accepted); at);
    }
    Ok(())
}

#[test]
fn a_block_is_taken_where_it_is_accepted(rt: HostRuntime) -> Result<(), Fail> {
    for &(room, store, rows) in COURSES {
        let mut drive = with_side(rt.alloc(), room, FaultPlan { store, ..SOUND })?;
        assert_equal!(rt; drive.accepted(), 0);
        lends(&rt, rt.alloc(), &mut drive, rows)?;
    }
    Ok(())
}

// The part of a drive that answers a command: the hosts' half alone, or both where the disk is needed.
#[derive(Clone, Copy, PartialEq, Eq, Debug)]
enum Half {
    Alone,
    Both,
}

type Halved<'a> = (Half, Row<'a>);

const ALONE: Half = Half::Alone;

const BOTH: Half = Half::Both;

const AT_OBJECT_0: Answer<'static> = Answer::Good(b"\x80\0\0\0\0\0\0\0\0\0\0\0\0\0\0\0\0\0\0\0");

// Blocks of fewer than six bytes are taken without the disk, in buffered mode, and then in unbuffered mode none.
const IN_BOTH_MODES: &'static [Halved<'static>] = &[
    (ALONE, (1, TEST_UNIT_READY, NONE, POWERED_ON)),
    (ALONE, (1, WRITE_5, b"hello", GOOD)),
    (BOTH, (1, &[0x0a, 0, 0, 0, 6, 0], b"worlds", GOOD)),
    (ALONE, (1, MARK_AT_ONCE, NONE, GOOD)),
    (BOTH, (1, NO_MARKS, NONE, GOOD)),
    (BOTH, (1, WRITE_MARK, NONE, GOOD)),
    (BOTH, (1, MARK_BACK, NONE, GOOD)),
    (BOTH, (1, READ_5, NONE, MARK)),
    (BOTH, (1, READ_5, NONE, END)),
    (BOTH, (1, REWIND, NONE, GOOD)),
    (BOTH, (1, READ_5, NONE, HELLO)),
    (BOTH, (1, ERASE, NONE, GOOD)),
    (BOTH, (1, LOCATE_0, NONE, GOOD)),
    (BOTH, (1, POSITION, NONE, AT_OBJECT_0)),
    (ALONE, (1, SELECT, UNBUFFERED, GOOD)),
    (ALONE, (1, WRITE_0, NONE, GOOD)),
    (ALONE, (1, MARK_AT_ONCE, NONE, BAD_FIELD)),
    (BOTH, (1, WRITE_5, b"world", GOOD)),
    (BOTH, (1, LOAD, NONE, GOOD)),
    (BOTH, (1, UNLOAD, NONE, GOOD)),
];

// Nothing is stored before the first command for both halves, and that storing fails. All checks come first, and then
// only LOAD UNLOAD needs both halves.
const UNTIL_A_FAULT: &'static [Halved<'static>] = &[
    (ALONE, (1, TEST_UNIT_READY, NONE, POWERED_ON)),
    (ALONE, (1, WRITE_5, b"hello", GOOD)),
    (ALONE, (1, REWIND, b"x", BAD_FIELD)),
    (ALONE, (1, WRITE_5, b"hell", BAD_FIELD)),
    (ALONE, (1, REQUEST_SENSE, NONE, NOTHING_PENDING)),
    (BOTH, (1, REWIND, NONE, WRITE_ERROR)),
    (ALONE, (1, TEST_UNIT_READY, NONE, FAILED)),
    (ALONE, (1, WRITE_5, b"hello", FAILED)),
    (BOTH, (1, LOAD, NONE, FAILED)),
    (BOTH, (1, UNLOAD, NONE, GOOD)),
    (ALONE, (1, REWIND, NONE, NO_MEDIUM)),
    (BOTH, (1, LOAD, NONE, GOOD)),
    (ALONE, (1, TEST_UNIT_READY, NONE, GOOD)),
];

// The storing that fails, and the commands.
static HALVES: &'static [(Option<u32>, &'static [Halved<'static>])] = &[
    (None, IN_BOTH_MODES),
    (Some(0), UNTIL_A_FAULT),
];

// The reply to a command, by the hosts' half alone or by both. Where both are needed, the data are still there.
fn run(rt: &impl Abort, drive: &mut Plain, half: Half, row: Row, lent: &mut Bytes) -> Reply {
    let (host, cdb, sent, _) = row;
    let nexus = Nexus::new(host).expect(rt, "a nexus");
    match drive.execute_alone(nexus, cdb, lent) {
        Some(reply) => {
            assert_equal!(rt; Half::Alone, half; cdb);
            reply
        }
        None => {
            assert_equal!(rt; (Half::Both, lent.as_slice()), (half, sent); cdb);
            drive.execute_lent(nexus, cdb, lent)
        }
    }
}

fn assert_halves(
    rt: &impl Abort,
    alloc: Global,
    drive: &mut Plain,
    rows: &[Halved],
) -> Result<(), Fail> {
    for (at, &(half, row)) in rows.iter().enumerate() {
        let mut lent = Bytes::from_slice(alloc, row.2)?;
        let reply = run(rt, drive, half, row, &mut lent);
        assert_answer(rt, &reply, row.3, at);
    }
    Ok(())
}

#[test]
fn both_answer_where_the_disk_is_needed(rt: HostRuntime) -> Result<(), Fail> {
    let alloc = rt.alloc();
    for &(store, rows) in HALVES {
        let medium = StagedMedium::new(alloc, &[4_096], 1_000, FaultPlan { store, ..SOUND })?;
        let mut drive = switched_on(alloc, Some(medium.taking_alone(6)))?;
        assert_halves(&rt, alloc, &mut drive, rows)?;
    }
    Ok(())
}
