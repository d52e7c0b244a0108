//! The commands to a drive where a call of a disk fails, and what is found afterwards.
use crate::crashes::{Left, NOTHING, REGISTERED, RESERVED};
use crate::samples::{
    A_NEW, A_WITHOUT_APTPL, BY_A, CHANGED, FAILED, GOOD, HELD_BY_A, KEY_A, LOAD, MARK,
    MODE_CHANGED, NOBODY, NONE, NOT_PRESENT, POWERED_ON, READ_1, READ_ERROR, READ_KEYS,
    READ_RESERVATION, READY, REGISTER, RESERVE_5, Rows, SELECT_4, UNBUFFERED, UNLOAD, WRITE_1,
    WRITE_ERROR, WRITE_OUT, Wanted,
};
use crate::stop_tables::{AB_NEW, HELD, HELD_NEW, KEYED, NEW, Sides, Which};

/// What meets the fault.
#[derive(Clone, Copy)]
pub enum Action {
    /// A flusher's turn, which stores one change. Its fault is reported late, to the next host.
    Turn,
    /// A command of host 1, the data sent with it, its answer, and its answer where a call fails.
    Asked(&'static [u8], &'static [u8], Wanted<'static>, Wanted<'static>),
}

/// A name; the disk; how many of its calls come before the action, with the power on; how many the action makes; the
/// commands before; and the action.
pub type Case = (&'static str, Which, u64, u64, Rows, Action);

/// Actions of which each call of a disk fails, one at a time.
pub struct Faults {
    pub sides: Sides,
    pub cases: &'static [Case],
    /// The commands afterwards.
    pub then: Rows,
    /// The commands by which what was stored is found again; if there are none, by another drive over the same disks.
    pub again: Option<Rows>,
    /// What is left where a call fails; and what is found where the last one fails, if it is another: then a crash
    /// leaves either.
    pub left: &'static [Left],
}

/// Before all others.
pub const BOTH: Rows = &[(1, READY, NONE, POWERED_ON), (2, READY, NONE, POWERED_ON)];

const NO_MORE: Rows = &[];

// A block is stored, and another waits.
const WAITING: Rows = &[
    (1, WRITE_1, b"a", GOOD),
    (1, WRITE_OUT, NONE, GOOD),
    (1, WRITE_1, b"b", GOOD),
];

// A block is stored, and the next must not wait.
const NOT_WAITING: Rows = &[
    (1, WRITE_1, b"a", GOOD),
    (1, WRITE_OUT, NONE, GOOD),
    (1, SELECT_4, UNBUFFERED, GOOD),
    (2, READY, NONE, MODE_CHANGED),
];

// The tape has failed, and accepts nothing.
const TAKES_NOTHING: Rows = &[
    (1, READY, NONE, FAILED),
    (2, WRITE_1, b"c", FAILED),
    (1, MARK, NONE, FAILED),
    (2, WRITE_OUT, NONE, FAILED),
    (1, LOAD, NONE, FAILED),
];

// It is unloaded and loaded.
const LOADED: Rows = &[
    (1, UNLOAD, NONE, GOOD),
    (1, READY, NONE, NOT_PRESENT),
    (1, LOAD, NONE, GOOD),
    (2, READY, NONE, CHANGED),
    (2, READY, NONE, GOOD),
];

const UNLOADED: Rows = &[(1, UNLOAD, NONE, GOOD)];

// A cartridge that is not loaded accepts nothing, and is loaded.
const NOT_LOADED: Rows = &[
    (1, READY, NONE, NOT_PRESENT),
    (1, WRITE_1, b"c", NOT_PRESENT),
    (1, WRITE_OUT, NONE, NOT_PRESENT),
];

const LOADED_LATE: Rows = &[(1, LOAD, NONE, GOOD), (1, READY, NONE, GOOD)];

// Nobody is registered, the store accepts nothing, and the tape accepts a block.
const NOT_REGISTERED: Rows = &[
    (1, READ_KEYS, NONE, (None, NOBODY)),
    (1, REGISTER, A_NEW, FAILED),
    (1, RESERVE_5, BY_A, FAILED),
    (1, READ_KEYS, NONE, (None, NOBODY)),
    (1, WRITE_1, b"a", GOOD),
    (1, WRITE_OUT, NONE, GOOD),
];

// Host 1 is registered, which raised the generation, and holds nothing.
const NOT_RESERVED: Rows = &[
    (1, READ_RESERVATION, NONE, (None, b"\0\0\0\x01\0\0\0\0")),
    (1, RESERVE_5, BY_A, FAILED),
    (1, REGISTER, A_WITHOUT_APTPL, FAILED),
    (1, READ_RESERVATION, NONE, (None, b"\0\0\0\x01\0\0\0\0")),
];

// Host 1 is registered and holds the reservation.
const STILL_RESERVED: Rows = &[
    (1, READ_KEYS, NONE, (None, KEY_A)),
    (1, READ_RESERVATION, NONE, (None, HELD_BY_A)),
    (1, REGISTER, A_WITHOUT_APTPL, FAILED),
    (1, READ_KEYS, NONE, (None, KEY_A)),
];

const KEY: Rows = &[(1, REGISTER, A_NEW, GOOD)];

const SETTLES: Action = Action::Asked(WRITE_OUT, NONE, GOOD, WRITE_ERROR);

const UNLOADS: Action = Action::Asked(UNLOAD, NONE, GOOD, WRITE_ERROR);

const WRITES: Action = Action::Asked(WRITE_1, b"b", GOOD, WRITE_ERROR);

const LOADS: Action = Action::Asked(LOAD, NONE, GOOD, READ_ERROR);

const READS: Action = Action::Asked(READ_1, NONE, (None, b"a"), READ_ERROR);

const IS_ON: Action = Action::Asked(READY, NONE, GOOD, NOT_PRESENT);

const REGISTERS: Action = Action::Asked(REGISTER, A_NEW, GOOD, FAILED);

const RESERVES: Action = Action::Asked(RESERVE_5, BY_A, GOOD, FAILED);

const FORGETS: Action = Action::Asked(REGISTER, A_WITHOUT_APTPL, GOOD, FAILED);

const AB: Left = (b"ab", NOTHING);

/// A frame is stored, and a state saved, by a write after the closed gate, a sync, the write of the gate, and a sync. A
/// cartridge of two frames is opened by a sync and a read of the first bytes of its first disk, which show that this
/// disk counts. Then come a sync, two reads of its heading, three of gates and two of bodies.
pub static FAULTS: &'static [Faults] = &[
    Faults {
        sides: NEW,
        cases: &[
            ("a turn", Which::Tape, 10, 4, WAITING, Action::Turn),
            ("a settle", Which::Tape, 10, 4, WAITING, SETTLES),
            ("an unloading", Which::Tape, 10, 4, WAITING, UNLOADS),
            ("unbuffered", Which::Tape, 10, 4, NOT_WAITING, WRITES),
        ],
        then: TAKES_NOTHING,
        again: Some(LOADED),
        left: &[(b"a", NOTHING), AB],
    },
    Faults {
        sides: AB_NEW,
        cases: &[
            ("a load", Which::Tape, 10, 10, UNLOADED, LOADS),
            ("a power on", Which::Tape, 0, 10, NO_MORE, IS_ON),
            ("a load", Which::Second, 1, 1, UNLOADED, LOADS),
            ("a power on", Which::Second, 0, 1, NO_MORE, IS_ON),
        ],
        then: NOT_LOADED,
        again: Some(LOADED_LATE),
        left: &[AB],
    },
    Faults {
        sides: AB_NEW,
        cases: &[("a read", Which::Tape, 10, 1, NO_MORE, READS)],
        then: TAKES_NOTHING,
        again: Some(LOADED),
        left: &[AB],
    },
    Faults {
        sides: NEW,
        cases: &[("a save of a key", Which::Store, 4, 4, NO_MORE, REGISTERS)],
        then: NOT_REGISTERED,
        again: None,
        left: &[(b"a", NOTHING), (b"a", REGISTERED)],
    },
    Faults {
        sides: NEW,
        cases: &[("a reservation", Which::Store, 8, 4, KEY, RESERVES)],
        then: NOT_RESERVED,
        again: None,
        left: &[KEYED, HELD],
    },
    Faults {
        sides: HELD_NEW,
        cases: &[("without APTPL", Which::Store, 8, 4, NO_MORE, FORGETS)],
        then: STILL_RESERVED,
        again: None,
        left: &[(b"", RESERVED), (b"", NOTHING)],
    },
];
