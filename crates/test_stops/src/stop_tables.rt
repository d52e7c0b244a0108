//! The commands to a drive, its answers where a disk stops, and what a crash then leaves.
use crate::crashes::{Left, NOTHING, REGISTERED, RESERVED};
use crate::drives::NEVER;
use crate::samples::{
    A_NEW, A_TAPE, A_WITHOUT_APTPL, AB_TAPE, BY_A, FAILED, GOOD, HELD_BY_A, HELD_STORE, KEY_A,
    LEFT_STORE, LOAD, LOCATE_1, NEW_STORE, NEW_TAPE, NONE, NOT_PRESENT, POWERED_ON, READ_ERROR,
    READ_KEYS, READ_RESERVATION, READY, REGISTER, RESERVE_5, Rows, UNLOAD, WRITE_1, WRITE_ERROR,
    WRITE_OUT, Wanted,
};

/// Which disk stops: the cartridge's first or its second, or the store's.
#[derive(Clone, Copy, Debug)]
pub enum Which {
    Tape,
    Second,
    Store,
}

impl Which {
    /// How many calls of each disk pass, of the first, the second and the store's, where this many of this one do.
    pub fn calls(self, calls: u64) -> (u64, u64, u64) {
        match self {
            Which::Tape => (calls, NEVER, NEVER),
            Which::Second => (NEVER, calls, NEVER),
            Which::Store => (NEVER, NEVER, calls),
        }
    }
}

/// Where a run ends.
#[derive(Clone, Copy)]
pub enum End {
    NotOn,
    /// The command at this place, the first from 0 on that the stop affects, has this answer.
    At(usize, Wanted<'static>),
    Whole,
}

/// After this many calls of the disk, and after each lower number that no earlier moment covers: where the run ends,
/// and what the crashes leave, each of these by at least one.
pub type Moment = (u64, End, &'static [Left]);

/// The bytes of a disk, and the place of a gate that was then opened and not synced.
pub type Side = (&'static [u8], Option<u64>);

/// The sides of a cartridge, whose second disk is empty, and of a store.
pub type Sides = (Side, Side);

/// A run over these disks, of which one stops.
pub type Run = (&'static str, Which, Sides, Rows, &'static [Moment]);

pub const NEW: Sides = ((NEW_TAPE, None), (NEW_STORE, None));

pub const HELD_NEW: Sides = ((NEW_TAPE, None), (HELD_STORE, None));

pub const AB_NEW: Sides = ((AB_TAPE, None), (NEW_STORE, None));

const AB_OLD: Sides = ((AB_TAPE, None), (HELD_STORE, None));

const HALF_TAPE: Sides = ((A_TAPE, Some(51)), (HELD_STORE, None));

const HALF_STORE: Sides = ((AB_TAPE, None), (LEFT_STORE, Some(63)));

// Three blocks are written and stored; then one is written in place of the second, and stored.
const REWRITING: Rows = &[
    (1, READY, NONE, POWERED_ON),
    (1, WRITE_1, b"a", GOOD),
    (1, WRITE_1, b"b", GOOD),
    (1, WRITE_1, b"c", GOOD),
    (1, WRITE_OUT, NONE, GOOD),
    (1, LOCATE_1, NONE, GOOD),
    (1, WRITE_1, b"x", GOOD),
    (1, WRITE_OUT, NONE, GOOD),
];

// Host 1 registers a1 with APTPL, and reserves.
const RESERVING: Rows = &[
    (1, READY, NONE, POWERED_ON),
    (1, REGISTER, A_NEW, GOOD),
    (1, RESERVE_5, BY_A, GOOD),
    (1, READY, NONE, GOOD),
];

// It finds both again, and registers a1 over a1 without APTPL.
const LEAVING: Rows = &[
    (1, READY, NONE, POWERED_ON),
    (1, READ_KEYS, NONE, (None, KEY_A)),
    (1, READ_RESERVATION, NONE, (None, HELD_BY_A)),
    (1, REGISTER, A_WITHOUT_APTPL, GOOD),
    (1, READY, NONE, GOOD),
];

// A drive is switched on.
const OPENING: Rows = &[(1, READY, NONE, POWERED_ON), (1, READY, NONE, GOOD)];

// A cartridge is unloaded and loaded.
const LOADING: Rows = &[
    (1, READY, NONE, POWERED_ON),
    (1, READY, NONE, GOOD),
    (1, UNLOAD, NONE, GOOD),
    (1, LOAD, NONE, GOOD),
    (1, READY, NONE, GOOD),
];

const EMPTY: Left = (b"", NOTHING);

const ABC: Left = (b"abc", NOTHING);

const AX: Left = (b"ax", NOTHING);

/// A key, and a reservation of it.
pub const KEYED: Left = (b"", REGISTERED);

pub const HELD: Left = (b"", RESERVED);

const A_HELD: Left = (b"a", RESERVED);

const AB_HELD: Left = (b"ab", RESERVED);

const AB: Left = (b"ab", NOTHING);

// Opening a new store takes a sync, two reads of its heading and one of its gate; each frame takes two more reads.
// Opening a cartridge takes the same for the disk that counts. Before that, finding that disk takes a sync of each of
// the two and a read of the first bytes of the first. Storing takes a write after the closed gate, a sync, the write
// of the gate, and a sync: before the gate is written no crash leaves the frame, and after the last sync each does.
const REWRITTEN: &'static [Moment] = &[
    (5, End::At(1, NOT_PRESENT), &[EMPTY]),
    (8, End::At(4, WRITE_ERROR), &[EMPTY]),
    (9, End::At(4, WRITE_ERROR), &[EMPTY, ABC]),
    (12, End::At(7, WRITE_ERROR), &[ABC]),
    (13, End::At(7, WRITE_ERROR), &[ABC, AX]),
    (14, End::Whole, &[AX]),
];

const NOT_FOUND: &'static [Moment] = &[
    (0, End::At(1, NOT_PRESENT), &[EMPTY]),
    (1, End::Whole, &[AX]),
];

const NOT_OPENED: &'static [Moment] = &[(3, End::NotOn, &[EMPTY]), (4, End::Whole, &[AX])];

const SAVED_BESIDE: &'static [Moment] = &[
    (5, End::At(3, NOT_PRESENT), &[HELD]),
    (6, End::Whole, &[HELD]),
];

const SAVED: &'static [Moment] = &[
    (3, End::NotOn, &[EMPTY]),
    (6, End::At(1, FAILED), &[EMPTY]),
    (7, End::At(1, FAILED), &[EMPTY, KEYED]),
    (10, End::At(2, FAILED), &[KEYED]),
    (11, End::At(2, FAILED), &[KEYED, HELD]),
    (12, End::Whole, &[HELD]),
];

const FORGOTTEN: &'static [Moment] = &[
    (7, End::NotOn, &[HELD]),
    (10, End::At(3, FAILED), &[HELD]),
    (11, End::At(3, FAILED), &[HELD, EMPTY]),
    (12, End::Whole, &[EMPTY]),
];

const LOADED: &'static [Moment] = &[
    (9, End::At(1, NOT_PRESENT), &[AB_HELD]),
    (19, End::At(3, READ_ERROR), &[AB_HELD]),
    (20, End::Whole, &[AB_HELD]),
];

const LOADED_BESIDE: &'static [Moment] = &[
    (0, End::At(1, NOT_PRESENT), &[AB_HELD]),
    (1, End::At(3, READ_ERROR), &[AB_HELD]),
    (2, End::Whole, &[AB_HELD]),
];

// A side whose last gate is not synced is opened.
const TAPE_OPENED: &'static [Moment] = &[
    (0, End::At(1, NOT_PRESENT), &[A_HELD, AB_HELD]),
    (9, End::At(1, NOT_PRESENT), &[AB_HELD]),
    (10, End::Whole, &[AB_HELD]),
];

const STORE_OPENED: &'static [Moment] = &[
    (0, End::NotOn, &[AB_HELD, AB]),
    (9, End::NotOn, &[AB]),
    (10, End::Whole, &[AB]),
];

pub static RUNS: &'static [Run] = &[
    ("rewriting", Which::Tape, NEW, REWRITING, REWRITTEN),
    ("rewriting", Which::Second, NEW, REWRITING, NOT_FOUND),
    ("rewriting", Which::Store, NEW, REWRITING, NOT_OPENED),
    ("reserving", Which::Tape, NEW, RESERVING, SAVED_BESIDE),
    ("reserving", Which::Store, NEW, RESERVING, SAVED),
    ("leaving", Which::Store, HELD_NEW, LEAVING, FORGOTTEN),
    ("loading", Which::Tape, AB_OLD, LOADING, LOADED),
    ("loading", Which::Second, AB_OLD, LOADING, LOADED_BESIDE),
    ("opening", Which::Tape, HALF_TAPE, OPENING, TAPE_OPENED),
    ("opening", Which::Store, HALF_STORE, OPENING, STORE_OPENED),
];
