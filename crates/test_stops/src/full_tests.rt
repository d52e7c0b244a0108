//! A drive over a side that is nearly full: what fits is accepted, to the byte.
use crate::drives::{switched_on, whole};
use crate::long_disks::LongDisk;
use crate::samples::{
    GOOD, MARK, NEW_STORE, NONE, POWERED_ON, READY, REWIND, WRITE_1, Wanted, ask,
};
use bay_moves::Bay;
use std::alloc::Global;
use std::process::Abort;
use std::test::Fail;
use tape_disk::Disk;
use test_assertions::assert_equal;
use volume_core::Turn;

// A step, with the expected answer of a command.
#[derive(Clone, Copy)]
enum Step {
    // A command, and how many zeros are sent with it.
    Is(&'static [u8], usize, Wanted<'static>),
    // A block of this size, or this many filemarks, do not fit.
    Full(&'static [u8], u32),
    Turns(Turn),
    // The last gate is at the last place that there is.
    AtEnd,
}

const NOTHING_ERASED: Wanted<'static> = (Some((0x70, 0x4d, 0, 0, 2)), &[]);

const WRITE_MIB: &'static [u8] = &[0x0a, 0, 0x10, 0, 0, 0];

// 393,020 bytes.
const WRITE_SHORTER: &'static [u8] = &[0x0a, 0, 0x05, 0xff, 0x3c, 0];

const WRITE_16: &'static [u8] = &[0x0a, 0, 0, 0, 16, 0];

const MARKS_0: &'static [u8] = &[0x10, 0, 0, 0, 0, 0];

const MARK_LATER: &'static [u8] = &[0x10, 1, 0, 0, 1, 0];

const ERASE: &'static [u8] = &[0x19, 0, 0, 0, 0, 0];

const TO_END: &'static [u8] = &[0x11, 3, 0, 0, 0, 0];

const POSITION: &'static [u8] = &[0x34, 0, 0, 0, 0, 0, 0, 0, 0, 0];

const ELEVEN: Wanted<'static> = (None, b"\0\0\0\0\0\0\0\x0b\0\0\0\x0b\0\0\0\0\0\0\0\0");

// A block that is stored at once.
const MIB: &'static [Step] = &[
    Step::Is(WRITE_MIB, 1_048_576, GOOD),
    Step::Is(MARKS_0, 0, GOOD),
];

// There is room for 7,733,217 bytes of frames. A block takes 15 bytes and its own, as each is a frame of its own, and
// so does a filemark. Seven that are stored take 1,048,591 each and leave 393,080. What waits counts too, each change
// as a frame of its own.
const WAITING: &'static [Step] = &[
    // of 393,080 bytes this leaves 45
    Step::Is(WRITE_SHORTER, 393_020, GOOD),
    Step::Is(MARK_LATER, 0, GOOD),
    // 31 bytes, and 30 are left; then 16, and 15 are
    Step::Full(WRITE_16, 16),
    Step::Is(MARK_LATER, 0, GOOD),
    Step::Full(WRITE_1, 1),
    Step::Is(MARK_LATER, 0, GOOD),
    Step::Full(MARK_LATER, 1),
    Step::Full(MARK, 1),
    Step::Full(WRITE_1, 1),
    // the four that waited are one frame of 5 bytes and 393,030 and 30, and leave 15, which an ERASE takes
    Step::Turns(Turn::Stored(4)),
    Step::Full(WRITE_1, 1),
    Step::Is(ERASE, 0, GOOD),
    Step::Full(MARK_LATER, 1),
    Step::Is(ERASE, 0, NOTHING_ERASED),
    Step::Turns(Turn::Idle),
    Step::AtEnd,
    Step::Full(MARK, 1),
    Step::Is(MARKS_0, 0, GOOD),
    Step::Is(REWIND, 0, GOOD),
    Step::Is(TO_END, 0, GOOD),
    Step::Is(POSITION, 0, ELEVEN),
];

// One step, with zeros as the data of a block.
fn does<D: Disk>(rt: &impl Abort, drive: &mut Bay<D>, zeros: &[u8], step: Step, at: usize) {
    let (cdb, sent, wanted) = match step {
        Step::Is(cdb, sent, wanted) => (cdb, sent, wanted),
        // a WRITE is sent its block
        Step::Full(cdb, count) => {
            let sent = if cdb.first() == Some(&0x0a) {
                count as usize
            } else {
                0
            };
            (cdb, sent, (Some((0xf0, 0x4d, count, 0, 2)), NONE))
        }
        Step::Turns(turn) => return assert_equal!(rt; drive.turn(), turn; at),
        Step::AtEnd => {
            let len = drive
                .drive()
                .medium()
                .map(|medium| medium.disk().map(|disk| disk.len()));
            return assert_equal!(rt; len, Some(Some(1_099_511_627_776)); at);
        }
    };
    let row = (1, cdb, &zeros[..zeros.len().min(sent)], wanted);
    ask(rt, drive, row, wanted, &at);
}

fn fills<D: Disk>(rt: &impl Abort, alloc: Global, drive: &mut Bay<D>) -> Result<(), Fail> {
    let zeros = vec![in alloc; 0u8; 1_048_576]?;
    let on = (1, READY, NONE, POWERED_ON);
    ask(rt, drive, on, POWERED_ON, &"on");
    for at in 0..7 {
        for step in MIB {
            does(rt, drive, zeros.as_slice(), *step, at);
        }
    }
    for (at, step) in WAITING.iter().enumerate() {
        does(rt, drive, zeros.as_slice(), *step, at);
    }
    Ok(())
}

#[test]
fn what_waits_fills_a_side(rt: HostRuntime) -> Result<(), Fail> {
    let tape = LongDisk::tape(rt.alloc())?;
    let second = LongDisk::of(rt.alloc(), NONE)?;
    let store = LongDisk::of(rt.alloc(), NEW_STORE)?;
    let mut drive = whole(switched_on(rt.alloc(), tape, second, store)?)?;
    let filled = fills(&rt, rt.alloc(), &mut drive);
    drop(drive);
    filled
}
