//! Which commands cost a sync, step by step, with each reply to the byte, whether their data are borrowed or
//! lent.
use crate::samples::{
    EMPTY, ERASE, GOOD, LOCATE_1, MARK_AT_ONCE, MODE_0, MODE_1, NONE, Row, SELECT_4, Tape, WRITE_1,
    WRITE_OUT, ask_by, found, greeted, switch_off, syncs,
};
use std::alloc::Global;
use std::process::Abort;
use std::test::Fail;
use tape_disk::MemDisk;
use test_assertions::assert_equal;
use volume_core::Turn;

// A step that is done a number of times, and how many syncs all of it takes: a row, a buffered WRITE of some
// bytes, or a flusher's turn with its result.
#[derive(Clone, Copy)]
enum Step<'a> {
    Asks(u32, Row<'a>, u64),
    Writes(u32, u32, u64),
    Turns(Turn, u64),
}

const BYTE: Row<'static> = (1, WRITE_1, b"x", GOOD);

const MARKED: Row<'static> = (1, MARK_AT_ONCE, NONE, GOOD);

const OUT: Row<'static> = (1, WRITE_OUT, NONE, GOOD);

// Ten writes wait, and become one frame; then nothing waits.
const TEN: &'static [Step<'static>] = &[
    Step::Asks(10, BYTE, 0),
    Step::Asks(1, OUT, 2),
    Step::Turns(Turn::Idle, 0),
    Step::Asks(1, OUT, 0),
];

// A turn returns how many changes waited.
const TURNS: &'static [Step<'static>] = &[
    Step::Asks(1, BYTE, 0),
    Step::Turns(Turn::Stored(1), 2),
    Step::Asks(10, BYTE, 0),
    Step::Turns(Turn::Stored(10), 2),
    Step::Asks(256, BYTE, 0),
    Step::Turns(Turn::Stored(256), 2),
    Step::Turns(Turn::Idle, 0),
];

// The 257th change finds the others stored, and waits alone.
const CHANGES: &'static [Step<'static>] = &[
    Step::Asks(256, BYTE, 0),
    Step::Asks(1, BYTE, 2),
    Step::Turns(Turn::Stored(1), 2),
    Step::Asks(256, MARKED, 0),
    Step::Asks(1, MARKED, 2),
    Step::Turns(Turn::Stored(1), 2),
    Step::Asks(256, MARKED, 0),
    Step::Asks(1, BYTE, 2),
    Step::Turns(Turn::Stored(1), 2),
];

// The same for the byte past 4,194,304; filemarks have none.
const BYTES: &'static [Step<'static>] = &[
    Step::Writes(4, 1_048_576, 0),
    Step::Asks(1, BYTE, 2),
    Step::Turns(Turn::Stored(1), 2),
    Step::Writes(64, 65_536, 0),
    Step::Asks(192, MARKED, 0),
    Step::Asks(1, MARKED, 2),
    Step::Turns(Turn::Stored(1), 2),
    Step::Writes(2, 1_048_576, 0),
    Step::Asks(254, MARKED, 0),
    Step::Turns(Turn::Stored(256), 2),
    Step::Writes(3, 1_048_576, 0),
    Step::Writes(1, 1_048_575, 0),
    Step::Asks(1, BYTE, 0),
    Step::Asks(1, BYTE, 2),
    Step::Turns(Turn::Stored(1), 2),
];

// Unbuffered, each write and each erase is stored at once; the mode alone stores nothing. Buffered again, an
// erase stores what waits, and waits itself.
const UNBUFFERED: &'static [Step<'static>] = &[
    Step::Asks(1, (1, WRITE_1, b"a", GOOD), 0),
    Step::Asks(1, (1, SELECT_4, MODE_0, GOOD), 0),
    Step::Asks(1, (1, WRITE_1, b"b", GOOD), 2),
    Step::Asks(3, (1, WRITE_1, b"c", GOOD), 6),
    Step::Asks(1, (1, LOCATE_1, NONE, GOOD), 0),
    Step::Asks(1, (1, ERASE, NONE, GOOD), 2),
    Step::Asks(1, (1, SELECT_4, MODE_1, GOOD), 0),
    Step::Asks(1, (1, WRITE_1, b"d", GOOD), 0),
    Step::Asks(1, (1, ERASE, NONE, GOOD), 2),
    Step::Turns(Turn::Stored(1), 2),
];

// Host 1 writes blocks of this size, which is GOOD.
fn writes(
    rt: &impl Abort,
    alloc: Global,
    drive: &mut Tape<MemDisk>,
    is_lent: bool,
    blocks: (u32, u32),
) -> Result<(), Fail> {
    let (count, size) = blocks;
    let [_, high, middle, low] = size.to_be_bytes();
    let block = vec![in alloc; 0x5a; size as usize]?;
    let cdb = [0x0a, 0, high, middle, low, 0];
    for _ in 0..count {
        ask_by(rt, alloc, drive, is_lent, (1, &cdb, &block, GOOD));
    }
    Ok(())
}

// Whatever becomes of the bytes that are not sure, a crash leaves this of the tape.
fn is_left(rt: &impl Abort, alloc: Global, disk: &MemDisk, wanted: &[u8]) -> Result<(), Fail> {
    for keep in [0, 1, u64::MAX] {
        for fill in [0x00, 0xa5, 0xff] {
            let text = found(alloc, disk.copy()?.crash(keep, fill)?)?;
            assert_equal!(rt; text.as_slice(), wanted; (keep, fill));
        }
    }
    Ok(())
}

// Each step takes as many syncs as it says. Behind them a crash leaves this of the tape, if that is said.
fn goes(
    rt: &impl Abort,
    alloc: Global,
    drive: &mut Tape<MemDisk>,
    is_lent: bool,
    steps: &[Step],
    wanted: Option<&[u8]>,
) -> Result<(), Fail> {
    for (at, &step) in steps.iter().enumerate() {
        let before = syncs(drive);
        let wanted = match step {
            Step::Asks(count, row, wanted) => {
                for _ in 0..count {
                    ask_by(rt, alloc, drive, is_lent, row);
                }
                wanted
            }
            Step::Writes(count, size, wanted) => {
                writes(rt, alloc, drive, is_lent, (count, size))?;
                wanted
            }
            Step::Turns(turn, wanted) => {
                assert_equal!(rt; drive.turn(), turn; at);
                wanted
            }
        };
        assert_equal!(rt; syncs(drive).saturating_sub(before), wanted; (is_lent, at));
    }
    match (wanted, drive.disk()) {
        (None, _) => Ok(()),
        (Some(wanted), Some(disk)) => is_left(rt, alloc, disk, wanted),
        (Some(_), None) => Err(Fail::from("no medium")),
    }
}

// The steps from an empty tape.
fn is_done(
    rt: &impl Abort,
    alloc: Global,
    is_lent: bool,
    steps: &[Step],
    wanted: Option<&[u8]>,
) -> Result<(), Fail> {
    let disk = MemDisk::from_bytes(alloc, EMPTY)?;
    let mut drive = greeted(rt, alloc, disk, MemDisk::new(alloc))?;
    let done = goes(rt, alloc, &mut drive, is_lent, steps, wanted);
    switch_off(drive);
    done
}

// How many steps of a course are done, and what is left.
static COURSES: &'static [(&'static [Step<'static>], usize, &'static [u8])] = &[
    (TEN, 1, b""),
    (TEN, 4, b"xxxxxxxxxx"),
    (TURNS, 5, b"xxxxxxxxxxx"),
    (TURNS, 7, &[b'x'; 267]),
    (UNBUFFERED, 2, b""),
    (UNBUFFERED, 3, b"ab"),
    (UNBUFFERED, 6, b"a"),
    (UNBUFFERED, 10, b"ad"),
];

#[test]
fn writes_wait_for_one_frame(rt: HostRuntime) -> Result<(), Fail> {
    let alloc = rt.alloc();
    for is_lent in [false, true] {
        for &(steps, count, wanted) in COURSES {
            let steps = &steps[..steps.len().min(count)];
            is_done(&rt, alloc, is_lent, steps, Some(wanted))?;
        }
    }
    Ok(())
}

#[test]
fn a_change_too_many_is_preceded_by_a_settle(rt: HostRuntime) -> Result<(), Fail> {
    for is_lent in [false, true] {
        is_done(&rt, rt.alloc(), is_lent, CHANGES, None)?;
        is_done(&rt, rt.alloc(), is_lent, BYTES, None)?;
    }
    Ok(())
}
