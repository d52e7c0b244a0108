//! Rows of calls for files, and which a run and refused words make: in which order, and where they stop.
use super::noted_files::Failing::{Call, Disk, Memory, Nothing, Nul, Side, Write};
use super::noted_files::{CARTRIDGE, FAULT, Failing, NotedFiles, PAIRED};
use super::runs::{
    DONE, FAILED, Line, NO_MEMORY, REFUSED_WORDS, WHOLE, has_ended, run_over, words_of,
};
use super::streams::ALL;
use file_disk::FileError::{InUse, Missing};
use std::alloc::{AllocError, Global};
use std::process::Abort;
use std::sync::Wait;
use std::test::Fail;
use std::thread::Threads;
use std::time::Clock;
use test_assertions::{assert_equal, assert_holds};
use vtl_words::{WordsError, read_words};

/// One run: what fails, and the words; expected: how many of all calls of its table are made, with those behind them,
/// the text, and the line with the status.
pub type Row<'a> = (Failing, &'a str, (usize, &'a str), &'a str, Line<'a>);

// The first of these calls, and those behind them.
fn calls_of(alloc: Global, all: &str, count: usize, behind: &str) -> Result<String, AllocError> {
    let mut calls = String::new(alloc);
    for call in all.split(';').take(count) {
        calls.push_str(call)?;
        calls.push_str(";")?;
    }
    calls.push_str(behind)?;
    Ok(calls)
}

/// Compares a run with its row, whose calls are the first of all these.
pub fn assert_row<R: Abort + Threads + Wait + Clock + Sync>(
    rt: &R,
    alloc: Global,
    all: &str,
    row: Row,
    at: usize,
) -> Result<(), Fail> {
    let (failing, words, (count, behind), text, end) = row;
    let writes = match failing {
        Write(errors) => (ALL, errors),
        _ => WHOLE,
    };
    let files = NotedFiles::new(alloc, failing);
    let found = run_over(rt, alloc, &files, words, (b"", WHOLE, writes, WHOLE, WHOLE))?;
    has_ended(rt, &found, text, end, at);
    let calls = calls_of(alloc, all, count, behind)?;
    assert_equal!(rt; files.into_note().as_slice(), calls.as_bytes(); at);
    Ok(())
}

/// Compares each run with its row, whose calls are the first of these.
pub fn assert_rows<R: Abort + Threads + Wait + Clock + Sync>(
    rt: &R,
    alloc: Global,
    all: &str,
    rows: &[Row],
) -> Result<(), Fail> {
    for (at, row) in rows.iter().enumerate() {
        assert_row(rt, alloc, all, *row, at)?;
    }
    Ok(())
}

const RUN: &str = "vtl run --config c";

const OPENED: &str = "read c;open t;pair t;second t.2;report u;open u;pair u;second u.2;\
    report 1;open 1;report 2;open 2;close all;";

// An open pair gate: a missing second file would not be made.
const BESIDE: &str =
    "beside t.2;report u;open u;pair u;second u.2;report 1;open 1;report 2;open 2;close all;";

static RUNS: &'static [Row<'static>] = &[
    (Nothing, RUN, (13, ""), "", DONE),
    (Nothing, "vtl run --memory --config c", (1, ""), "", DONE),
    (Nothing, "vtl run", (0, ""), "", DONE),
    (Nothing, "vtl run --memory", (0, ""), "", DONE),
    (Call(1, Missing), RUN, (1, ""), "", FAILED),
    (Call(2, Missing), RUN, (2, "give up;"), "", FAILED),
    (Call(3, FAULT), RUN, (3, "back t;give up;"), "", FAILED),
    (Call(4, InUse), RUN, (4, "back t;give up;"), "", FAILED),
    (Call(5, Missing), RUN, (6, "give up;"), "", FAILED),
    (Call(7, FAULT), RUN, (8, "back u;give up;"), "", FAILED),
    (Call(8, Missing), RUN, (10, "give up;"), "", FAILED),
    (Call(9, Missing), RUN, (12, "give up;"), "", FAILED),
    (Memory, RUN, (1, ""), "", NO_MEMORY),
    // The first call of a cartridge's disk would fail, in a slot and in a drive, or the file is no cartridge's.
    (Disk("t", 0), RUN, (13, ""), "", DONE),
    (Disk("u", 0), RUN, (13, ""), "", DONE),
    (Side("t", b"mine"), RUN, (13, ""), "", DONE),
    (Side("u", b"mine"), RUN, (13, ""), "", DONE),
    (Side("t", PAIRED), RUN, (3, BESIDE), "", DONE),
    // A name with a NUL.
    (Nul, RUN, (1, ""), "", FAILED),
    (Nul, "vtl serve --config c", (1, ""), "", FAILED),
    (Nul, "vtl run --memory --config c", (1, ""), "", DONE),
    // Words that are refused ask for no file.
    (Nothing, "vtl", (0, ""), "", REFUSED_WORDS),
    (Nothing, "vtl walk", (0, ""), "", REFUSED_WORDS),
    (Nothing, "vtl create", (0, ""), "", REFUSED_WORDS),
    (Nothing, "vtl check", (0, ""), "", REFUSED_WORDS),
    (Nothing, "vtl run --config", (0, ""), "", REFUSED_WORDS),
];

#[test]
fn a_run_opens_cartridges_and_then_stores(rt: HostRuntime) -> Result<(), Fail> {
    assert_rows(&rt, rt.alloc(), OPENED, RUNS)
}

// A store with a frame that is not whole, and one with a frame that spells no state.
const DAMAGED: &[u8] = b"\xa5VTLRESV1\0\0DRIVE1          \xa5";

const BAD_STATE: &[u8] = b"\xa5VTLRESV1\0\0DRIVE1          \xa5\0\0\0\x01\x02\0";

const BACK_1: &str = "back 1;give up;";

const BACK_2: &str = "back 2;give up;";

// Stores whose first and second call fails, and stores that are refused.
static REFUSED: &'static [Row<'static>] = &[
    (Disk("1", 0), RUN, (10, BACK_1), "", FAILED),
    (Disk("2", 1), RUN, (12, BACK_2), "", FAILED),
    (Side("1", DAMAGED), RUN, (10, BACK_1), "", FAILED),
    (Side("2", BAD_STATE), RUN, (12, BACK_2), "", FAILED),
    (Side("2", CARTRIDGE), RUN, (12, BACK_2), "", FAILED),
    (Side("1", b"mine"), RUN, (10, BACK_1), "", FAILED),
    (Side("2", b""), RUN, (12, BACK_2), "", FAILED),
];

#[test]
fn a_refused_side_is_returned_unchanged(rt: HostRuntime) -> Result<(), Fail> {
    assert_rows(&rt, rt.alloc(), OPENED, REFUSED)
}

// The help for these words.
fn help(alloc: Global, line: &str) -> Result<String, Fail> {
    let words = words_of(alloc, line)?;
    match read_words(alloc, words.as_slice()) {
        Err(WordsError::Help(text)) => Ok(text),
        _ => Err(Fail::from("no help")),
    }
}

#[test]
fn help_is_written_as_it_was_given(rt: HostRuntime) -> Result<(), Fail> {
    for line in ["vtl --help", "vtl run -h"] {
        let text = help(rt.alloc(), line)?;
        assert_holds!(rt; !text.is_empty(); line);
        let row = (Nothing, line, (0, ""), text.as_str(), DONE);
        assert_row(&rt, rt.alloc(), "", row, 0)?;
    }
    Ok(())
}
