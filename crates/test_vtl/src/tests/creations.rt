//! Which calls for files a creation makes, and which files it takes away again.
use super::calls::{Row, assert_rows};
use super::noted_files::FAULT;
use super::noted_files::Failing::{Call, Disk, Nothing, Nul, Seen, Write};
use super::runs::{DONE, FAILED};
use super::streams::BAD;
use file_disk::FileError::{Exists, InUse, Missing, NotAFile};
use std::test::Fail;

const MAKE: &str = "vtl create --config c";

const MADE: &str = "read c;see t;see t.2;make t;second t.2;leave t;back t.2;see u;see u.2;\
    make u;second u.2;leave u;back u.2;make 1;leave 1;make 2;leave 2;";

// The calls behind a look that finds the first file, and those behind a second cartridge that is made by another.
const OTHERS: &str =
    "see u;see u.2;make u;second u.2;leave u;back u.2;make 1;leave 1;make 2;leave 2;";

const STORES: &str = "make 1;leave 1;make 2;leave 2;";

const FIRST: &str = "created T00001L6\n";

const BOTH: &str = "created T00001L6\ncreated T00002L6\n";

const EACH: &str = "created T00001L6\ncreated T00002L6\ncreated DRIVE1\ncreated DRIVE2\n";

const FIRST_KEPT: &str = "kept T00001L6\ncreated T00002L6\ncreated DRIVE1\ncreated DRIVE2\n";

const SECOND_KEPT: &str = "created T00001L6\nkept T00002L6\ncreated DRIVE1\ncreated DRIVE2\n";

const LAST_KEPT: &str = "created T00001L6\ncreated T00002L6\ncreated DRIVE1\nkept DRIVE2\n";

static LOOKED_AT: &'static [Row<'static>] = &[
    (Nothing, MAKE, (17, ""), EACH, DONE),
    (Call(8, Exists), MAKE, (10, STORES), SECOND_KEPT, DONE),
    (Call(11, Exists), MAKE, (16, ""), LAST_KEPT, DONE),
    (Seen("t", 0), MAKE, (2, OTHERS), FIRST_KEPT, DONE),
    (Seen("t.2", 0), MAKE, (17, ""), EACH, DONE),
    (Seen("t.2", 1), MAKE, (3, ""), "", FAILED),
    (Seen("u.2", 1), MAKE, (9, ""), FIRST, FAILED),
    (Call(2, NotAFile), MAKE, (2, ""), "", FAILED),
    (Call(3, NotAFile), MAKE, (3, ""), "", FAILED),
    (Nul, MAKE, (1, ""), "", FAILED),
];

#[test]
fn a_creation_looks_before_it_makes(rt: HostRuntime) -> Result<(), Fail> {
    assert_rows(&rt, rt.alloc(), MADE, LOOKED_AT)
}

static TAKEN_AWAY: &'static [Row<'static>] = &[
    (Call(1, Missing), MAKE, (1, ""), "", FAILED),
    (Call(4, Missing), MAKE, (4, ""), "", FAILED),
    (Call(4, InUse), MAKE, (4, ""), "", FAILED),
    (Call(5, InUse), MAKE, (5, "take t;"), "", FAILED),
    (Call(8, FAULT), MAKE, (10, ""), FIRST, FAILED),
    (Call(10, FAULT), MAKE, (14, ""), BOTH, FAILED),
    (Disk("t", 0), MAKE, (5, "take t;back t.2;"), "", FAILED),
    (Disk("t", 1), MAKE, (5, "take t;back t.2;"), "", FAILED),
    (Disk("u", 0), MAKE, (11, "take u;back u.2;"), FIRST, FAILED),
    (Disk("1", 1), MAKE, (14, "take 1;"), BOTH, FAILED),
];

#[test]
fn a_creation_takes_away_what_is_not_whole(rt: HostRuntime) -> Result<(), Fail> {
    assert_rows(&rt, rt.alloc(), MADE, TAKEN_AWAY)
}

// A line is not written, or not flushed: no file after it is made.
static NOT_OUT: &'static [Row<'static>] = &[
    (Write(&[BAD]), MAKE, (7, ""), "", FAILED),
    (Write(&[None, BAD]), MAKE, (7, ""), FIRST, FAILED),
    (Write(&[None, None, BAD]), MAKE, (13, ""), FIRST, FAILED),
    (
        Write(&[None, None, None, BAD]),
        MAKE,
        (13, ""),
        BOTH,
        FAILED,
    ),
];

#[test]
fn a_creation_ends_where_a_line_is_not_out(rt: HostRuntime) -> Result<(), Fail> {
    assert_rows(&rt, rt.alloc(), MADE, NOT_OUT)
}
