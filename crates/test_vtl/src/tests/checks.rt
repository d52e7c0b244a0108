//! Which calls for files a check of one file and of a configuration makes, and what it writes.
use super::calls::{Row, assert_row, assert_rows};
use super::noted_files::Failing::{Call, Disk, Memory, Nothing, Side, Write};
use super::noted_files::WRITTEN;
use super::runs::{DONE, FAILED, NO_MEMORY, NOT_DONE};
use super::streams::BAD;
use file_disk::FileError::{InUse, Missing};
use std::test::Fail;

const CHECK: &str = "vtl check t";

const LOOKED: &str = "look t;look t.2;close t;close t.2;";

const LOOKED_AT_1: &str = "look 1;look 1.2;close 1;close 1.2;";

const DATA: &str = "vtl check t --data";

const READ: &str = "read 21 of 42;read 42 of 42;close t;close t.2;";

const EMPTY: &str = "cartridge T00001L6 partitions 1 frames 0\npartition 0 objects 0 used 0\n";

const STORE: &str = "reservations DRIVE1 frames 0 registrations 0\n";

const BLOCKS: &str =
    "cartridge T00001L6 partitions 2 frames 2\npartition 0 objects 1 used 21\npartition 1 objects 1 used 21\n";

static CHECKS: &'static [Row<'static>] = &[
    (Nothing, CHECK, (4, ""), EMPTY, DONE),
    (Nothing, "vtl check 1", (0, LOOKED_AT_1), STORE, DONE),
    (Call(1, InUse), CHECK, (1, ""), "", FAILED),
    (Call(2, Missing), CHECK, (4, ""), EMPTY, DONE),
    (Call(2, InUse), CHECK, (2, "close t;"), "", FAILED),
    (Disk("t", 0), CHECK, (4, ""), "", FAILED),
    (Disk("t.2", 0), CHECK, (4, ""), "", FAILED),
    // Each block is read to its end where that is asked for, and behind each it is reported how far that is.
    (Side("t", WRITTEN), CHECK, (4, ""), BLOCKS, DONE),
    (Side("t", WRITTEN), DATA, (2, READ), BLOCKS, DONE),
];

#[test]
fn a_check_opens_both_files_to_read(rt: HostRuntime) -> Result<(), Fail> {
    assert_rows(&rt, rt.alloc(), LOOKED, CHECKS)
}

const EACH: &str = "vtl check --config c";

const LOOKED_IN_ALL: &str = "read c;look t;look t.2;close t;close t.2;";

// The calls for the other files; behind the closing of the first one; and behind its blocks.
const OTHERS: &str = "look u;look u.2;close u;close u.2;look 1;look 1.2;close 1;close 1.2;\
    look 2;look 2.2;close 2;close 2.2;";

const CLOSED: &str = "close t;look u;look u.2;close u;close u.2;look 1;look 1.2;close 1;close 1.2;\
    look 2;look 2.2;close 2;close 2.2;";

const BLOCKS_READ: &str = "read 21 of 42;read 42 of 42;close t;close t.2;\
    look u;look u.2;close u;close u.2;look 1;look 1.2;close 1;close 1.2;\
    look 2;look 2.2;close 2;close 2.2;";

// The file of the second cartridge and that of the second drive are copies of the first ones.
const BEHIND: &str =
    "T00002L6 u\ncartridge T00001L6 partitions 1 frames 0\npartition 0 objects 0 used 0\n\
    configured as cartridge T00002L6\n\
    DRIVE1 1\nreservations DRIVE1 frames 0 registrations 0\n\
    DRIVE2 2\nreservations DRIVE1 frames 0 registrations 0\nconfigured as reservations DRIVE2\n";

const LOST: &str = "device fault\n";

const NO_SIDE: &str = "not a side\n";

// The text of a row is that of the first cartridge, behind its label and its name; with none nothing is written.
static CONFIG_CHECKS: &'static [Row<'static>] = &[
    (Nothing, EACH, (5, OTHERS), EMPTY, DONE),
    // No configuration.
    (Call(1, Missing), EACH, (1, ""), "", FAILED),
    (Memory, EACH, (1, ""), "", NO_MEMORY),
    // The first cartridge is in use, or its second file; or a call of its disk fails; or it is damaged, or no side.
    (Call(2, InUse), EACH, (2, OTHERS), LOST, FAILED),
    (Call(3, InUse), EACH, (3, CLOSED), LOST, FAILED),
    (Disk("t", 0), EACH, (5, OTHERS), LOST, FAILED),
    (Side("t", b"mine"), EACH, (5, OTHERS), NO_SIDE, NOT_DONE),
    // Each block of the first cartridge is read to its end.
    (Side("t", WRITTEN), EACH, (3, BLOCKS_READ), BLOCKS, DONE),
    // The writer fails at the line that names the first cartridge, or behind it: no file behind it is opened.
    (Write(&[BAD]), EACH, (1, ""), "", FAILED),
];

#[test]
fn a_check_of_a_configuration_opens_each_file(rt: HostRuntime) -> Result<(), Fail> {
    let alloc = rt.alloc();
    for (at, &(failing, words, calls, first, end)) in CONFIG_CHECKS.iter().enumerate() {
        let text = if first.is_empty() {
            String::new(alloc)
        } else {
            format!(in alloc; "T00001L6 t\n{first}{BEHIND}")?
        };
        let row = (failing, words, calls, text.as_str(), end);
        assert_row(&rt, alloc, LOOKED_IN_ALL, row, at)?;
    }
    Ok(())
}
