//! A drive in two halves: what is answered while a turn is in flight, when both halves are needed, and turns in which
//! the device fails.
use crate::acts::Act;
use crate::acts::Act::{Any, Asks, Awaits, Counts, Ends, Flushes, Moves, Pauses, Raises, Times};
use crate::days::{Day, spend};
use crate::replies::{
    Answer, DEFERRED, END_OF_DATA, FAILED, GOOD, IS_READY, MARK, MARK_SOON, MARKS, ON, READ_1,
    READY, Step, WRITE_1, X,
};
use crate::samples::NEVER;
use crate::stages::{ARMED, FAILED_TURNS, FREED, HELD, SAID, STOOD, STORED, Stands};
use library::FinishError;
use std::test::Fail;

// Key 1 is registered, to be kept through a loss of power.
const REGISTER: &'static [u8] = b"\0\0\0\0\0\0\0\0\0\0\0\0\0\0\0\x01\0\0\0\0\x01\0\0\0";

// One registration was made, and one key is there, which is 1.
const KEYS: Answer = (None, b"\0\0\0\x01\0\0\0\x08\0\0\0\0\0\0\0\x01");

// Mode data of 12 bytes with a block descriptor: unit is in buffered mode.
const MODES: Answer = (None, b"\x0b\0\x10\x08");

// What needs no disk.
const NO_DISK: &'static [Step] = &[
    (1, WRITE_1, b"y", GOOD),
    (1, MARK_SOON, b"", GOOD),
    IS_READY,
    (1, &[0x1a, 0, 0, 0, 4, 0], b"", MODES),
    (1, &[0x5f, 0, 0, 0, 0, 0, 0, 0, 24, 0], REGISTER, GOOD),
    (1, &[0x5e, 0, 0, 0, 0, 0, 0, 0, 16, 0], b"", KEYS),
];

// A block of 262,144 bytes, of which the buffer holds 16.
const LONG: Step = (1, &[0x0a, 0, 4, 0, 0, 0], &[0x41; 262_144], GOOD);

// The flusher stands in its turn, where the disk's half is locked, until all of them are answered.
static BESIDE_A_TURN: Day = Day {
    hosts: &[
        &[
            &[Asks(&[ON, X]), Awaits(STOOD, 1), Asks(NO_DISK)],
            &[Raises(SAID), Asks(&[MARKS]), Ends(1)],
        ],
        &[&[Flushes(1, Stands::Inside(0, SAID, 1))]],
    ],
    amounts: &[4, 0],
    end: Some(Ok((4, 0))),
};

#[test]
fn hosts_do_not_wait_for_a_turn(rt: HostRuntime) -> Result<(), Fail> {
    spend(&rt, rt.alloc(), NEVER, 0, 2, &BESIDE_A_TURN)
}

// After a turn the hosts' half has all its room again: a block comes, a sync of the turn that stores it lasts, and 15
// more are written meanwhile, 4,194,304 bytes in all. The host of the next one waits for the end of the turn, which
// comes once another host is answered. It does not wait for the next turn, which begins at once.
static NO_ROOM_BESIDE_A_TURN: Day = Day {
    hosts: &[
        &[
            &[Asks(&[ON, X]), Awaits(STORED, 1), Raises(ARMED)],
            &[Asks(&[LONG]), Awaits(HELD, 1), Times(15, 0, &[LONG])],
            &[Raises(SAID), Asks(&[LONG]), Raises(SAID), Asks(&[MARKS])],
            &[Ends(1)],
        ],
        &[&[Awaits(SAID, 1), Pauses(2), Asks(&[ON]), Raises(FREED)]],
        &[&[Flushes(1, Stands::Inside(2, SAID, 2))]],
    ],
    amounts: &[19, 0, 0],
    end: Some(Ok((19, 0))),
};

#[test]
fn a_host_that_waits_for_room_holds_up_no_other(rt: HostRuntime) -> Result<(), Fail> {
    spend(&rt, rt.alloc(), NEVER, 1, 2, &NO_ROOM_BESIDE_A_TURN)
}

// The position is object 0 of partition 0.
const AT_THE_BEGINNING: Answer = (None, b"\x80\0\0\0\0\0\0\0\0\0\0\0\0\0\0\0\0\0\0\0");

const POSITION: Step = (1, &[0x34, 0, 0, 0, 0, 0, 0, 0, 0, 0], b"", AT_THE_BEGINNING);

// READ POSITION stores what waits, so it waits for the disk's half as long as the flusher stands in its turn.
static WAITS_FOR_A_TURN: Day = Day {
    hosts: &[
        &[
            &[Asks(&[ON]), Awaits(STOOD, 1), Asks(&[POSITION])],
            &[Counts(SAID, 1), Ends(1)],
        ],
        &[&[Awaits(STOOD, 1), Pauses(8), Raises(SAID)]],
        &[&[Flushes(1, Stands::Inside(0, SAID, 1))]],
    ],
    amounts: &[0, 0, 0],
    end: Some(Ok((0, 0))),
};

#[test]
fn what_needs_the_disk_waits_for_a_turn(rt: HostRuntime) -> Result<(), Fail> {
    spend(&rt, rt.alloc(), NEVER, 0, 2, &WAITS_FOR_A_TURN)
}

// A block is written, and waits for the flusher, whose turn fails.
const FAILS: &'static [Act] = &[Asks(&[ON, X]), Awaits(FAILED_TURNS, 1)];

// The reports after a failed turn: the turn once, and then the cartridge.
const IS_LATE: Step = (1, READY, b"", DEFERRED);

const HAS_FAILED: Step = (1, READY, b"", FAILED);

const IS_REPORTED: &'static [Act] = &[Asks(&[IS_LATE, HAS_FAILED, (1, WRITE_1, b"y", FAILED)])];

// The cartridge is unloaded, and loaded again. The block is there, or was not stored.
const IN_DOUBT: &'static [Answer] = &[(None, b"x"), END_OF_DATA];

const LOADS_AGAIN: &'static [Act] = &[
    Asks(&[(1, &[0x1b, 0, 0, 0, 0, 0], b"", GOOD)]),
    Asks(&[(1, &[0x1b, 0, 0, 0, 1, 0], b"", GOOD), IS_READY]),
    Any(1, (1, READ_1, b"", GOOD), IN_DOUBT),
];

const STORES_AGAIN: &'static [Act] = &[Asks(&[X]), Awaits(STORED, 1), Ends(1)];

// A flusher of drive 1.
const FLUSHES: &'static [&'static [Act]] = &[&[Flushes(1, Stands::Nowhere)]];

// No call of a turn fails.
static STORES: Day = Day {
    hosts: &[
        &[
            &[Asks(&[ON, X]), Awaits(STORED, 1), Ends(1)],
            &[Counts(FAILED_TURNS, 0)],
        ],
        FLUSHES,
    ],
    amounts: &[1, 0],
    end: Some(Ok((1, 0))),
};

// A call of a turn fails: not all is written out.
static UNWRITTEN: Day = Day {
    hosts: &[
        &[FAILS, IS_REPORTED, &[Ends(1), Counts(STORED, 0)]],
        FLUSHES,
    ],
    amounts: &[1, 0],
    end: Some(Err(FinishError::Unwritten)),
};

// Then the cartridge is loaded again: the tape is unchanged since before the turn, or has the block. More is stored.
static LOADED_AGAIN: Day = Day {
    hosts: &[&[FAILS, IS_REPORTED, LOADS_AGAIN, STORES_AGAIN], FLUSHES],
    amounts: &[2, 0],
    end: Some(Ok((2, 0))),
};

// Or the cartridge is moved out of the drive, which gives up what waits. No answer has reported the fault, so the end
// does.
static MOVED_OUT: Day = Day {
    hosts: &[&[FAILS, &[Moves(&[(1, 1001, GOOD)]), Ends(1)]], FLUSHES],
    amounts: &[1, 0],
    end: Some(Err(FinishError::Unwritten)),
};

// The flusher stands where it is informed of a failed turn, until the fault was reported to a host.
static REPORTED_FIRST: Day = Day {
    hosts: &[
        &[
            FAILS,
            &[Asks(&[IS_LATE, HAS_FAILED]), Raises(SAID), Ends(1)],
        ],
        &[&[Flushes(1, Stands::Behind(SAID, 1))]],
    ],
    amounts: &[1, 0],
    end: Some(Err(FinishError::Unwritten)),
};

// Creating a cartridge makes five calls of its first disk, and opening it six. A turn makes four more: a write, a sync,
// the write of the gate, and a sync.
#[test]
fn a_turn_in_which_the_device_fails(rt: HostRuntime) -> Result<(), Fail> {
    for fails in 11..15u64 {
        for day in [&UNWRITTEN, &MOVED_OUT, &LOADED_AGAIN, &REPORTED_FIRST] {
            spend(&rt, rt.alloc(), fails, 0, 2, day)?;
        }
    }
    spend(&rt, rt.alloc(), 15, 0, 2, &STORES)
}

// A sync of a turn lasts, and that or a later call fails. What is accepted meanwhile is answered; the fault is reported
// before a filemark that waits for the disk is answered, and nothing is accepted from then on. What was accepted behind
// the fault is gone once the cartridge is loaded again; the first block may be stored.
static REPORTED_LATE: Day = Day {
    hosts: &[
        &[
            &[Asks(&[ON]), Raises(ARMED), Asks(&[X]), Awaits(HELD, 1)],
            &[Asks(&[
                (1, WRITE_1, b"y", GOOD),
                (1, MARK_SOON, b"", GOOD),
                IS_READY,
            ])],
            &[Raises(FREED)],
            &[Asks(&[(1, MARK, b"", DEFERRED), (1, MARK, b"", FAILED)])],
            &[Asks(&[(1, WRITE_1, b"z", FAILED)])],
            LOADS_AGAIN,
            &[Asks(&[(1, READ_1, b"", END_OF_DATA)]), Ends(1)],
        ],
        FLUSHES,
    ],
    amounts: &[3, 0],
    end: Some(Ok((3, 0))),
};

#[test]
fn a_fault_is_reported_before_a_filemark_is_stored(rt: HostRuntime) -> Result<(), Fail> {
    for fails in 12..15u64 {
        spend(&rt, rt.alloc(), fails, 1, 2, &REPORTED_LATE)?;
    }
    Ok(())
}
