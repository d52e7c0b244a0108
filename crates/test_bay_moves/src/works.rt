//! Commands, moves and the end of a library, with a fault at each call of the disk of its cartridge.
use crate::samples::{
    Answer, CHANGED, GOOD, NEVER, NOT_PRESENT, POWERED_ON, READY, is_answer, library,
};
use crate::works::Step::{Asks, Finishes, Lends, Loads, Moves};
use bay_moves::{Held, Unwritten};
use scsi_sense::Status;
use std::alloc::Global;
use std::process::Abort;
use std::test::Fail;
use tape_disk::Disk;
use test_assertions::assert_equal;
use vtl_base::{Bytes, DriveNo, Nexus};

const NO_SOURCE: Answer = (Status::Check, 5, 0x3b, 0x0e);

const NOT_OPENED: Answer = (Status::Check, 3, 0x11, 0);

const NOT_WRITTEN: Answer = (Status::Check, 3, 0x0c, 0);

const FAILED: Answer = (Status::Check, 4, 0x44, 0);

const LOAD: &'static [u8] = &[0x1b, 0, 0, 0, 1, 0];

const REWIND: &'static [u8] = &[0x01, 0, 0, 0, 0, 0];

const READ_1: &'static [u8] = &[0x08, 0, 0, 0, 1, 0];

const WRITE_1: &'static [u8] = &[0x0a, 0, 0, 0, 1, 0];

// What is done with a library, and how it answers.
#[derive(Clone, Copy)]
enum Step {
    // The cartridge is moved into drive 1, which may meet the fault.
    Loads,
    Moves(u32, u32, Answer),
    // A command of host 1 to drive 1, its answer and the bytes.
    Asks(&'static [u8], Answer, &'static [u8]),
    // So often a block of one byte is lent to that drive: the answer, and how many are left.
    Lends(u32, Answer, usize),
    Finishes(Result<(), Unwritten>),
}

type Steps = &'static [&'static [Step]];

// A step has its answer; or it loads the cartridge, or meets the fault by that.
fn does<D: Disk + Drop>(
    rt: &impl Abort,
    alloc: Global,
    held: &mut Held<D>,
    step: Step,
    at: (usize, u64),
) -> Result<bool, Fail> {
    let nexus = Nexus::new(1).expect(rt, "1");
    let drive = DriveNo::new(1).expect(rt, "1");
    match step {
        Loads => return Ok(held.move_medium(1001, 1).sense.is_none()),
        Moves(from, to, wanted) => is_answer(rt, &held.move_medium(from, to), wanted, b"", at),
        Asks(cdb, wanted, bytes) => {
            // The `assert!` of `std`, since `command` requires this.
            assert!(rt; held.configured(drive));
            is_answer(rt, &held.command(nexus, drive, cdb, b""), wanted, bytes, at);
        }
        Lends(times, wanted, left) => {
            for _ in 0..times {
                let mut lent = Bytes::from_slice(alloc, b"x")?;
                assert!(rt; held.configured(drive));
                let reply = held.command_lent(nexus, drive, WRITE_1, &mut lent);
                is_answer(rt, &reply, wanted, b"", at);
                assert_equal!(rt; lent.len(), left; at);
            }
        }
        Finishes(wanted) => assert_equal!(rt; held.finish(), wanted; at),
    }
    Ok(true)
}

// Steps have their answers. False if the fault was met before.
fn does_all<D: Disk + Drop>(
    rt: &impl Abort,
    alloc: Global,
    held: &mut Held<D>,
    steps: &[&[Step]],
    fails: u64,
) -> Result<bool, Fail> {
    for (at, few) in steps.iter().enumerate() {
        for step in *few {
            if !does(rt, alloc, held, *step, (at, fails))? {
                return Ok(false);
            }
        }
    }
    Ok(true)
}

// A block is pending, or 256, which with one more take 4,369 bytes of 8,192.
const BLOCK: Steps = &[
    &[Loads, Asks(READY, POWERED_ON, b"")],
    &[Asks(READY, CHANGED, b""), Asks(READY, GOOD, b"")],
    &[Lends(1, GOOD, 0)],
];

const BLOCKS: Steps = &[
    &[Loads, Lends(1, POWERED_ON, 1), Lends(1, CHANGED, 1)],
    &[Lends(256, GOOD, 0)],
];

// A cartridge that is not loaded goes back to its source; after another drive it is there, and not loaded.
const BACK: Steps = &[
    &[Moves(1001, 1, NOT_OPENED), Moves(1, 1002, NO_SOURCE)],
    &[Moves(1001, 1, GOOD)],
];

const BACK_IN_1: Steps = &[
    &[Moves(1, 2, NOT_OPENED), Asks(READY, POWERED_ON, b"")],
    &[Asks(READY, CHANGED, b""), Asks(READY, NOT_PRESENT, b"")],
    &[Asks(LOAD, GOOD, b""), Asks(READY, GOOD, b"")],
    &[Moves(2, 1002, NO_SOURCE), Moves(1, 2, GOOD)],
    &[Moves(2, 1002, GOOD)],
];

// A cartridge that is not written out stays until it is moved again, which gives up what is pending.
const STAYS: Steps = &[
    &[Moves(1, 1002, NOT_WRITTEN), Asks(READY, FAILED, b"")],
    &[Moves(1002, 1003, NO_SOURCE), Moves(1, 1002, GOOD)],
    &[Moves(1002, 1003, GOOD)],
];

const IN_1: Steps = &[&[Loads]];

const INTO_1: Steps = &[&[Moves(1001, 1, GOOD)]];

const INTO_2: Steps = &[&[Moves(1, 2, GOOD)]];

const OUT: Steps = &[&[Moves(1, 1002, GOOD), Moves(1002, 1003, GOOD)]];

const ENDS: Steps = &[&[Finishes(Ok(())), Finishes(Ok(()))]];

const UNWRITTEN: Steps = &[&[Finishes(Err(Unwritten)), Finishes(Err(Unwritten))]];

const ONE_MORE: Steps = &[&[Lends(1, GOOD, 0)]];

const NO_MORE: Steps = &[&[Lends(1, NOT_WRITTEN, 1)]];

// Blocks are lent to a drive without a cartridge, and with one, stored, and read.
const LENT: Steps = &[
    &[Lends(1, POWERED_ON, 1), Lends(1, NOT_PRESENT, 1), Loads],
    &[Lends(1, CHANGED, 1), Lends(2, GOOD, 0)],
];

const NOT_READ: Steps = &[&[Asks(REWIND, NOT_WRITTEN, b""), Asks(READ_1, FAILED, b"")]];

const IS_READ: Steps = &[
    &[Asks(REWIND, GOOD, b""), Asks(READ_1, GOOD, b"x")],
    &[Asks(READ_1, GOOD, b"x")],
];

// Creating a cartridge makes five calls of its first disk, and opening it six: a sync and a read of the first bytes
// show that this disk counts; then come a sync, two reads of the header, and one of the closed gate after it. A frame
// takes four. Steps before a call may fail; how many calls come before, and up to which call one may fail; what comes
// where one fails, and where none does; and up to which call is tried.
static WORKS: &'static [(Steps, u64, u64, Steps, Steps, u64)] = &[
    (&[], 5, 11, BACK, INTO_1, 30),
    (IN_1, 11, 17, BACK_IN_1, INTO_2, 30),
    (BLOCK, 11, 15, UNWRITTEN, ENDS, 30),
    (BLOCK, 11, 15, STAYS, OUT, 30),
    (BLOCKS, 11, 15, NO_MORE, ONE_MORE, 30),
    (LENT, 11, 15, NOT_READ, IS_READ, 15),
];

#[test]
fn each_call_of_the_disk_of_a_cartridge_fails(rt: HostRuntime) -> Result<(), Fail> {
    for &(before, first, end, failed, passed, most) in WORKS {
        for fails in (5..most).chain([NEVER]) {
            let mut held = library(rt.alloc(), fails)?;
            let met = match does_all(&rt, rt.alloc(), &mut held, before, fails) {
                Ok(true) => {
                    let steps = if fails < end { failed } else { passed };
                    does_all(&rt, rt.alloc(), &mut held, steps, fails)
                }
                other => other,
            };
            drop(held);
            assert_equal!(rt; met?, fails >= first; fails);
        }
    }
    Ok(())
}
