//! Which calls for files a reclaim makes, and what it writes.
use super::calls::{Row, assert_rows};
use super::noted_files::FAULT;
use super::noted_files::Failing::{Call, Disk, Link, Memory, Nothing, Nul, Seen, Side};
use super::runs::{DONE, FAILED, NO_MEMORY, NOT_DONE, REFUSED_WORDS};
use file_disk::FileError::{InUse, Missing, NotAFile};
use std::test::Fail;

const FIRST: &str = "vtl reclaim --config c T00001L6";

const SECOND: &str = "vtl reclaim --config c T00002L6";

const THIRD: &str = "vtl reclaim --config c T00003L6";

const RECLAIMED: &str = "read c;open t;pair t;see t.2;second t.2;changed t;changed t.2;";

const SECOND_MADE: &str = "open u;pair u;see u.2;second u.2;changed u;changed u.2;";

const SECOND_BACK: &str = "open u;pair u;beside u.2;back u;back u.2;";

const FIRST_LINE: &str = "reclaimed T00001L6 epoch 1\n";

const SECOND_LINE: &str = "reclaimed T00002L6 epoch 1\n";

const REFUSED: &str = "not reclaimed\n";

const NO_SIDE: &str = "not a side\n";

const BACK: &str = "back t;back t.2;";

// A side of a pair that cannot be reclaimed again: its epoch is the greatest.
const SPENT: &[u8] = b"\xa5VTLCART1\xa5\x81T00001L6        \0\0\0\0\0\0\x10\0\
    \xff\xff\xff\xff\xff\xff\xff\xff\0\0\0\0\0";

static RECLAIMS: &'static [Row<'static>] = &[
    (Nothing, FIRST, (7, ""), FIRST_LINE, DONE),
    (Nothing, SECOND, (1, SECOND_MADE), SECOND_LINE, DONE),
    (Nothing, THIRD, (1, ""), "", REFUSED_WORDS),
    (
        Side("u", SPENT),
        SECOND,
        (1, SECOND_BACK),
        REFUSED,
        NOT_DONE,
    ),
    (Side("t", b"mine"), FIRST, (5, BACK), NO_SIDE, NOT_DONE),
    (Disk("t", 0), FIRST, (5, BACK), "", FAILED),
    (Disk("t.2", 0), FIRST, (5, BACK), "", FAILED),
    (Memory, FIRST, (1, ""), "", NO_MEMORY),
    (Call(2, Missing), FIRST, (2, ""), "", FAILED),
    (Call(5, InUse), FIRST, (5, "back t;"), "", FAILED),
    (Call(3, FAULT), FIRST, (3, "back t;"), "", FAILED),
    (Call(4, NotAFile), FIRST, (4, "back t;"), "", FAILED),
    (Nul, FIRST, (1, ""), "", FAILED),
    // Second files behind a closed pair gate: of ten bytes, of eleven, and links.
    (Seen("t.2", 10), FIRST, (7, ""), FIRST_LINE, DONE),
    (Seen("t.2", 11), FIRST, (4, "back t;"), REFUSED, NOT_DONE),
    (Link("t.2"), FIRST, (4, "back t;"), REFUSED, NOT_DONE),
];

#[test]
fn a_reclaim_opens_the_files_of_a_barcode(rt: HostRuntime) -> Result<(), Fail> {
    assert_rows(&rt, rt.alloc(), RECLAIMED, RECLAIMS)
}
