//! Worked answers: hosts at one drive and at two, cartridges that are moved, and flushers that rest.
use crate::acts::Act;
use crate::acts::Act::{
    Any, Asks, Awaits, Counts, Ends, Flushes, Moves, MovesAbout, Pauses, Raises, Sees, Session,
    Times, Turns,
};
use crate::days::{Day, spend};
use crate::replies::{
    Answer, CHANGED, END_OF_DATA, FILEMARK, GOOD, IS_READY, MARKS, NO_ADDRESS, NO_ROOM, NO_SOURCE,
    NOT_PRESENT, ON, ON_2, POWERED_ON, READ_1, READY, REWIND, Step, WRITE_1, X,
};
use crate::samples::NEVER;
use crate::stages::{BEGUN_2, ENDED, IDLE, SAID, STOOD, STORED, STORED_2, Stands};
use std::test::Fail;

// A block and a filemark are written and read.
const WRITTEN_AND_READ: &'static [Step] = &[
    ON,
    IS_READY,
    (1, &[0x0a, 0, 0, 0, 5, 0], b"hello", GOOD),
    MARKS,
    (1, REWIND, b"", GOOD),
    (1, &[0x08, 0, 0, 0, 5, 0], b"", (None, b"hello")),
    (1, &[0x08, 0, 0, 0, 5, 0], b"", FILEMARK),
];

// Three blocks are written, two of them to drive 2.
const BESIDE: &'static [Step] = &[
    (1, WRITE_1, b"v", POWERED_ON),
    ON_2,
    (2, WRITE_1, b"x", GOOD),
    (1, WRITE_1, b"y", GOOD),
    (2, WRITE_1, b"z", GOOD),
];

// Host 2 writes after host 1.
static BOTH: Day = Day {
    hosts: &[
        &[&[Session(WRITTEN_AND_READ), Raises(SAID)]],
        &[&[Awaits(SAID, 1), Asks(BESIDE)]],
    ],
    amounts: &[2, 3],
    end: Some(Ok((3, 2))),
};

#[test]
fn a_block_and_a_filemark(rt: HostRuntime) -> Result<(), Fail> {
    spend(&rt, rt.alloc(), NEVER, 0, 2, &BOTH)
}

// Moves that lend no drive, one as destination, one as source, or both. The drive to which a cartridge was moved is
// ready, and the other one is not.
static GOES_ROUND: Day = Day {
    hosts: &[&[
        &[Asks(&[ON, ON_2])],
        &[Moves(&[
            (1001, 1300, NO_ADDRESS),
            (1004, 1, NO_SOURCE),
            (1001, 1, GOOD),
        ])],
        &[Asks(&[
            (1, READY, b"", CHANGED),
            IS_READY,
            (2, READY, b"", NOT_PRESENT),
        ])],
        &[Moves(&[(1, 1, NO_ROOM), (1, 2, GOOD)])],
        &[Asks(&[(1, READY, b"", NOT_PRESENT)])],
        &[Asks(&[(2, READY, b"", CHANGED), (2, READY, b"", GOOD)])],
        &[Sees(&[2, 1002, 1003])],
        &[Moves(&[(2, 1256, GOOD), (1256, 1001, GOOD)])],
        &[Sees(&[1001, 1002, 1003])],
    ]],
    amounts: &[0],
    end: Some(Ok((0, 0))),
};

#[test]
fn a_cartridge_goes_round_both_drives(rt: HostRuntime) -> Result<(), Fail> {
    spend(&rt, rt.alloc(), NEVER, 0, 0, &GOES_ROUND)
}

// A WRITE to a drive while cartridges are moved.
const OF_A_WRITE: &'static [Answer] = &[GOOD, NOT_PRESENT, CHANGED, POWERED_ON];

const WRITES: &'static [&'static [Act]] = &[&[
    Any(60, X, OF_A_WRITE),
    Any(60, (2, WRITE_1, b"x", GOOD), OF_A_WRITE),
]];

// Hosts 1 and 2 write, and hosts 3 and 4 move the cartridges. How much is written depends on the threads.
static MOVED_ABOUT: Day = Day {
    hosts: &[WRITES, WRITES, &[&[MovesAbout]], &[&[MovesAbout]]],
    amounts: &[],
    end: None,
};

#[test]
fn cartridges_are_moved_while_hosts_write(rt: HostRuntime) -> Result<(), Fail> {
    spend(&rt, rt.alloc(), NEVER, 0, 0, &MOVED_ABOUT)
}

// Commands that accept no change.
const WITHOUT_CHANGE: &'static [Step] = &[
    IS_READY,
    (1, REWIND, b"", GOOD),
    (1, READ_1, b"", END_OF_DATA),
    (1, &[0x0a, 0, 0, 0, 0, 0], b"", GOOD),
    (1, &[0x10, 0, 0, 0, 0, 0], b"", GOOD),
];

// A thousand commands that accept no change leave the flusher idle, even over a while, as do an inventory and a refused
// move. One that accepts a change wakes it, and then it is idle again, until the library is closed.
static RESTS: Day = Day {
    hosts: &[
        &[
            &[Asks(&[ON]), Awaits(IDLE, 1), Times(200, 1, WITHOUT_CHANGE)],
            &[Sees(&[1, 2]), Moves(&[(1, 2, NO_ROOM)])],
            &[Pauses(1), Turns([1, 1, 0, 0]), Asks(&[X])],
            &[Awaits(STORED, 1), Awaits(IDLE, 2), Pauses(1)],
            &[Turns([3, 2, 1, 1]), Counts(ENDED, 0), Ends(1)],
            &[Turns([3, 2, 1, 1])],
        ],
        &[&[Flushes(1, Stands::Nowhere)]],
    ],
    amounts: &[1, 0],
    end: Some(Ok((1, 0))),
};

// A shut gate ends a flusher; a drive that is not there has none; and in a closed library none begins.
static ENDS_AT_ONCE: Day = Day {
    hosts: &[&[
        &[Asks(&[ON, X]), Flushes(1, Stands::Shut)],
        &[Flushes(3, Stands::Nowhere), Ends(2)],
        &[Flushes(1, Stands::Nowhere), Flushes(2, Stands::Nowhere)],
        &[Turns([0, 0, 0, 0]), Counts(BEGUN_2, 0)],
    ]],
    amounts: &[1],
    end: Some(Ok((1, 0))),
};

#[test]
fn a_flusher_rests_until_a_change_is_accepted(rt: HostRuntime) -> Result<(), Fail> {
    spend(&rt, rt.alloc(), NEVER, 0, 2, &ENDS_AT_ONCE)?;
    spend(&rt, rt.alloc(), NEVER, 0, 2, &RESTS)
}

// The flusher of drive 1 waits in its first turn, with the drive's lock, until all blocks at drive 2 are stored. Host 1
// writes one of these and rewinds drive 1, host 2 writes twenty.
static STANDS_IN_ITS_TURN: Day = Day {
    hosts: &[
        &[
            &[Asks(&[ON, ON_2]), Raises(SAID), Awaits(STOOD, 1)],
            &[Session(&[(2, WRITE_1, b"p", GOOD), (1, REWIND, b"", GOOD)])],
            &[Awaits(SAID, 3), Ends(2)],
        ],
        &[
            &[Asks(&[ON_2]), Raises(SAID), Awaits(STORED_2, 1)],
            &[Times(20, 1, &[(2, WRITE_1, b"q", GOOD)]), Raises(SAID)],
        ],
        &[&[Awaits(SAID, 2), Flushes(1, Stands::Inside(0, STORED_2, 21))]],
        &[&[Flushes(2, Stands::Nowhere)]],
    ],
    amounts: &[1, 20, 0, 0],
    end: Some(Ok((0, 21))),
};

#[test]
fn a_drive_works_while_another_stands_in_its_turn(rt: HostRuntime) -> Result<(), Fail> {
    spend(&rt, rt.alloc(), NEVER, 0, 2, &STANDS_IN_ITS_TURN)
}
