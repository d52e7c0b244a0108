//! The program with explanations over a standard error that fails: nothing stands behind a line that was not written,
//! and status and standard output are as they were.
use super::noted_files::{Failing, NotedFiles};
use super::runs::{Parts, WHOLE, run_over};
use super::streams::{ALL, BAD};
use std::alloc::Global;
use std::io::ErrorKind;
use std::process::Abort;
use std::sync::Wait;
use std::test::Fail;
use std::thread::Threads;
use std::time::Clock;
use test_assertions::assert_equal;

// The words, and the script; the one line, and the lines behind it.
type Refused<'a> = (&'a str, &'a [u8], &'a str, &'a str);

static REFUSED: &'static [Refused<'static>] = &[
    (
        "vtl frob --explain",
        b"",
        "vtl: command line refused\n",
        "refused: unrecognized subcommand 'frob'\nUsage: vtl <COMMAND>\n\
        For more information, try '--help'.\n",
    ),
    (
        "vtl run --explain",
        b"1 7 000000000000\n",
        "vtl: script line 1 refused\n",
        "refused: DRIVE is 7\nwhere: line 1 of the script, column 3\n\
        allowed: a drive that is configured, 1\n\
        to do: correct the line; the phases before its own were carried out\n",
    ),
];

// Standard error takes a byte of each write, and fails behind so many: what is out, and whether all of the one line is.
fn byte_by_byte<R: Abort + Threads + Wait + Clock + Sync>(
    rt: &R,
    alloc: Global,
    refused: &Refused,
    bytes: usize,
) -> Result<(), Fail> {
    let (words, script, line, behind) = *refused;
    let mut errors: [Option<ErrorKind>; 200] = [None; 200];
    if bytes < errors.len() {
        errors[bytes] = BAD;
    }
    let streams = (script, WHOLE, WHOLE, WHOLE, (1, errors.as_slice()));
    let files = NotedFiles::new(alloc, Failing::Nothing);
    let found = run_over(rt, alloc, &files, words, streams)?;
    let wanted = format!(in alloc; "{line}{behind}")?;
    let count = wanted.len().min(bytes);
    let out = wanted.as_str().as_bytes().get(..count);
    assert_equal!(rt; Some(found.errors.as_slice()), out; (line, bytes));
    let ended = (1, count >= line.len());
    assert_equal!(rt; (found.ended.status, found.ended.is_reported), ended; bytes);
    assert_equal!(rt; found.output.len(), 0; bytes);
    Ok(())
}

#[test]
fn each_byte_of_standard_error_is_the_last(rt: HostRuntime) -> Result<(), Fail> {
    for refused in REFUSED {
        for bytes in 0..201 {
            byte_by_byte(&rt, rt.alloc(), refused, bytes)?;
        }
    }
    Ok(())
}

const SCRIPT: &[u8] = b"1 1 000000000000\n--\n1 2 000000000000\n";

const MEANING: &str = "line 1: not carried out: the drive was powered on (29/00)\n";

// The line of a fault is the first write.
const SECOND: Parts<'static> = (ALL, &[None, BAD]);

// What a write of a meaning returns, and which meanings are out: answers, status and the line are as they were.
static MEANINGS: &'static [(Parts<'static>, &'static str)] = &[
    (WHOLE, MEANING),
    ((ALL, &[BAD]), ""),
];

#[test]
fn answers_stand_where_their_meanings_do_not(rt: HostRuntime) -> Result<(), Fail> {
    for &(told, meanings) in MEANINGS {
        let streams = (SCRIPT, WHOLE, WHOLE, told, SECOND);
        let files = NotedFiles::new(rt.alloc(), Failing::Nothing);
        let found = run_over(&rt, rt.alloc(), &files, "vtl run --explain", streams)?;
        assert_equal!(rt; (found.ended.status, found.ended.is_reported), (1, true); meanings);
        assert_equal!(rt; found.output.as_slice(), super::ATTENTION.as_bytes(); meanings);
        assert_equal!(rt; found.meanings.as_slice(), meanings.as_bytes());
        assert_equal!(rt; found.errors.as_slice(), b"vtl: script line 3 refused\n".as_slice());
    }
    Ok(())
}
