//! What is done with which disks, and what a stop at each call may leave of them.
use crate::samples::{
    DAMAGED_35, DAMAGED_55, DAMAGED_70, Found, Image, NEW, NOT_OURS, ONE, SIDE, TWO,
};
use crate::works::Work;
use crate::works::Work::{Append, Erase, Long, Place, Store};
use cartridge::CartridgeError;

// The side of two frames; behind its end gate a frame with a closed gate, and two bytes.
const TAILED: &'static [u8] = b"\xa5VTLCART1\0\x01T00001L6        \0\0\0\0\0\0\x10\0\
    \xa5\0\0\0\x0f\x01\0\0\0\0\0\0\0\0\x05hello\
    \xa5\0\0\0\x0a\x02\0\0\0\0\x01\0\0\0\x01\
    \0\0\0\0\x0f\x01\0\0\0\0\0\0\0\0\x05HELLO\0\xa5\xa5";

// The side with the first body added, and with an erase.
const ADDED: &'static [u8] = b"\xa5VTLCART1\0\x01T00001L6        \0\0\0\0\0\0\x10\0\
    \xa5\0\0\0\x0f\x01\0\0\0\0\0\0\0\0\x05hello\
    \xa5\0\0\0\x0a\x02\0\0\0\0\x01\0\0\0\x01\
    \xa5\0\0\0\x0f\x01\0\0\0\0\0\0\0\0\x05hello\0";

const ERASED: &'static [u8] = b"\xa5VTLCART1\0\x01T00001L6        \0\0\0\0\0\0\x10\0\
    \xa5\0\0\0\x0f\x01\0\0\0\0\0\0\0\0\x05hello\
    \xa5\0\0\0\x0a\x02\0\0\0\0\x01\0\0\0\x01\
    \xa5\0\0\0\x0a\x03\0\0\0\0\0\0\0\0\0\0";

// A store of drive 1 with no frames, and one byte behind its end gate.
const STORE_TAILED: &'static [u8] = b"\xa5VTLRESV1\0\0DRIVE1          \0\xa5";

const STORE_ADDED: &'static [u8] = b"\xa5VTLRESV1\0\0DRIVE1          \
    \xa5\0\0\0\x0f\x01\0\0\0\0\0\0\0\0\x05hello\0";

// From how many calls of the disk on this may be found, and from how many on it is, or what comes behind it.
type Left = &'static [(u64, u64, Found)];

const THREE: Found = (Ok(3), Ok((3, 4, 72)));

const FIRST: Found = (Ok(3), Ok((3, 1, 21)));

const GONE: Found = (Ok(3), Ok((3, 0, 0)));

const BARE: Found = (Ok(0), Err(CartridgeError::NotOurs));

const KEPT: Found = (Ok(1), Err(CartridgeError::NotOurs));

// Two blocks of 16,383 bytes and a mark, 16 bytes more each; two of 16,384.
const SHORT: Found = (Ok(1), Ok((1, 3, 32_814)));

const LONG: Found = (Ok(1), Ok((1, 3, 32_816)));

// Making a cartridge takes five calls, storing four, and opening six, with two for each frame.
const STORED: Left = &[
    (1, 1, NOT_OURS),
    (1, 5, NEW),
    (12, 15, ONE),
    (16, 19, TWO),
    (30, 33, THREE),
];

/// A case: its work, the disk before it, how many calls an opening takes, which change nothing, and how many the work;
/// what may be left, and the bytes of the disk behind the work, where it adds a frame.
pub type Case = (Work, Image, u64, u64, Left, Option<&'static [u8]>);

const WHOLE: Image = (SIDE, 71, 0, 0xa5);

const EMPTY: Image = (SIDE, 0, 0, 0xa5);

const TAIL: Image = (TAILED, 100, 0, 0xa5);

const STORE_TAIL: Image = (STORE_TAILED, 29, 0, 0xa5);

// An append takes four calls, of which the third writes the gate: the new frame counts then at the earliest. The first
// one over a tail takes a call before them.
const APPEND: Left = &[(0, 0, TWO), (9, 10, FIRST)];

const APPEND_TAIL: Left = &[(0, 0, TWO), (10, 11, FIRST)];

const APPEND_STORE: Left = &[(0, 0, BARE), (8, 9, KEPT)];

const ERASE: Left = &[(0, 0, TWO), (13, 14, GONE)];

const ERASE_TAIL: Left = &[(0, 0, TWO), (14, 15, GONE)];

const OTHER: Left = &[(0, 0, NOT_OURS)];

const CUT_35: Left = &[(0, 0, DAMAGED_35)];

const CUT_55: Left = &[(0, 0, DAMAGED_55)];

const OPEN_70: Left = &[(0, 0, DAMAGED_70)];

const BAD_35: Left = &[(0, 0, (Ok(2), Err(CartridgeError::BadRecord { at: 35 })))];

const BAD_55: Left = &[(0, 0, (Ok(2), Err(CartridgeError::BadRecord { at: 55 })))];

// Eleven calls make a cartridge and open it. Then come two writes for each long block, of what was gathered and of the
// block; one of what is left, a sync, the write of the gate, and a sync. Short blocks are part of one write.
const SHORT_STORED: Left = &[(0, 0, NOT_OURS), (1, 5, NEW), (13, 15, SHORT)];

const LONG_STORED: Left = &[(0, 0, NOT_OURS), (1, 5, NEW), (17, 19, LONG)];

// An opening of a side takes a sync, two reads of the header and one of each gate. A cartridge makes a sync and a
// read of the front before that, and reads each body behind it.
pub static CASES: &'static [Case] = &[
    (Append, WHOLE, 6, 10, APPEND, Some(ADDED)),
    (Place, WHOLE, 6, 10, APPEND, Some(ADDED)),
    (Append, TAIL, 6, 11, APPEND_TAIL, Some(ADDED)),
    (Place, TAIL, 6, 11, APPEND_TAIL, Some(ADDED)),
    (Append, STORE_TAIL, 4, 9, APPEND_STORE, Some(STORE_ADDED)),
    (Place, STORE_TAIL, 4, 9, APPEND_STORE, Some(STORE_ADDED)),
    (Erase, WHOLE, 10, 14, ERASE, Some(ERASED)),
    (Erase, TAIL, 10, 15, ERASE_TAIL, Some(ERASED)),
    // An opening that is refused.
    (Erase, (SIDE, 26, 0, 0xa5), 2, 2, OTHER, None),
    (Erase, (SIDE, 34, 0, 0xa5), 2, 2, OTHER, None),
    (Erase, (SIDE, 71, 10, 0x05), 2, 2, OTHER, None),
    (Erase, (SIDE, 35, 0, 0xa5), 5, 5, CUT_35, None),
    (Erase, (SIDE, 55, 0, 0xa5), 6, 6, CUT_35, None),
    (Erase, (SIDE, 70, 0, 0xa5), 7, 7, CUT_55, None),
    (Erase, (SIDE, 71, 70, 0xa5), 8, 8, OPEN_70, None),
    (Erase, (SIDE, 71, 40, 0x04), 9, 9, BAD_35, None),
    (Erase, (SIDE, 71, 65, 0x03), 10, 10, BAD_55, None),
    // A cartridge is made where nothing is, and where a side is.
    (Store, EMPTY, 0, 45, STORED, None),
    (Store, WHOLE, 0, 45, STORED, None),
    (Long(16_383), EMPTY, 0, 15, SHORT_STORED, None),
    (Long(16_384), EMPTY, 0, 19, LONG_STORED, None),
];

/// Whether this may be left of a case after so many calls. Nothing is said where no entry is reached.
pub fn may_be_left(left: Left, calls: u64, here: Found) -> bool {
    let mut may = true;
    for &(from, sure, state) in left {
        if calls >= sure {
            may = here == state;
        } else if calls >= from {
            may = may || here == state;
        }
    }
    may
}
