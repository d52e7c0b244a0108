//! The program with explanations over streams that fail: what is explained, by which stream, and where nothing is.
use super::ATTENTION;
use super::noted_files::{Failing, NotedFiles};
use super::runs::{DONE, FAILED, Parts, Streams, WHOLE, has_ended, run_over};
use super::streams::{ALL, BAD};
use std::alloc::Global;
use std::io::ErrorKind;
use std::io::ErrorKind::{BrokenPipe, IsADirectory, StorageFull};
use std::process::Abort;
use std::sync::Wait;
use std::test::Fail;
use std::thread::Threads;
use std::time::Clock;

const SCRIPT: &[u8] = b"1 1 000000000000\n--\n1 1 000000000000\n";

const NO_WRITE: Option<ErrorKind> = Some(ErrorKind::ReadOnlyFilesystem);

const BOTH: &str = "CHECK 700006000000000a00000000290000000000\nGOOD\n";

// A call that is made again.
const AGAIN: Option<ErrorKind> = Some(ErrorKind::Interrupted);

const READ: &str = "read, of standard input";

const WRITE: &str = "write, of standard output";

// How a stream behaves, what is on standard output, and what the call that failed was answered, if one did.
type End<'a> = (Parts<'a>, &'a str, &'a str);

const OTHER: &str = "the system reported an error\n\
    to do: look at the device, and at what the system has logged of it\n";

const FOLDER: &str = "what has this name is no regular file\nto do: name a regular file\n";

const NO_READER: &str =
    "the program that read it has ended\nto do: let the program that reads it run to the end\n";

const FULL: &str = "the file system is full\nto do: make room on the file system\n";

const READ_ONLY: &str = "the file system is read only\nto do: mount the file system for writing\n";

const NO_BYTE: &str = "no byte was taken\nto do: make room where the bytes go\n";

static INPUTS: &'static [End<'static>] = &[
    (WHOLE, BOTH, ""),
    // A signal interrupts reads: they are made again.
    ((ALL, &[AGAIN, AGAIN]), BOTH, ""),
    ((ALL, &[BAD]), "", OTHER),
    // What comes behind an interruption decides. The first phase was read.
    ((20, &[None, AGAIN, Some(IsADirectory)]), ATTENTION, FOLDER),
];

static OUTPUTS: &'static [End<'static>] = &[
    ((1, &[AGAIN]), BOTH, ""),
    ((ALL, &[Some(BrokenPipe)]), "", NO_READER),
    // What comes behind an interruption decides.
    ((ALL, &[AGAIN, Some(StorageFull)]), "", FULL),
    // The first phase is out, and the flush behind it fails.
    ((ALL, &[None, BAD]), ATTENTION, OTHER),
    // The second phase is not out.
    ((ALL, &[None, None, NO_WRITE]), ATTENTION, READ_ONLY),
    ((0, &[]), "", NO_BYTE),
];

// A run with an explanation and one without end so: with lines behind the one line, if the call was answered so.
fn each_has_ended<R: Abort + Threads + Wait + Clock + Sync>(
    rt: &R,
    alloc: Global,
    streams: Streams,
    call: &str,
    (output, answer): (&str, &str),
    at: usize,
) -> Result<(), Fail> {
    let has_failed = !answer.is_empty();
    let (line, status) = if has_failed { FAILED } else { DONE };
    let explained = if has_failed {
        format!(in alloc; "{line}failed: {call}\nanswer: {answer}")?
    } else {
        String::new(alloc)
    };
    let files = NotedFiles::new(alloc, Failing::Nothing);
    let found = run_over(rt, alloc, &files, "vtl run --explain", streams)?;
    has_ended(rt, &found, output, (explained.as_str(), status), at);
    let found = run_over(rt, alloc, &files, "vtl run", streams)?;
    has_ended(rt, &found, output, (line, status), at);
    Ok(())
}

#[test]
fn what_standard_input_answered_is_reported(rt: HostRuntime) -> Result<(), Fail> {
    let alloc = rt.alloc();
    for (at, &(parts, output, answer)) in INPUTS.iter().enumerate() {
        let streams = (SCRIPT, parts, WHOLE, WHOLE, WHOLE);
        each_has_ended(&rt, alloc, streams, READ, (output, answer), at)?;
    }
    Ok(())
}

#[test]
fn what_standard_output_answered_is_reported(rt: HostRuntime) -> Result<(), Fail> {
    let alloc = rt.alloc();
    for (at, &(parts, output, answer)) in OUTPUTS.iter().enumerate() {
        let streams = (SCRIPT, WHOLE, parts, WHOLE, WHOLE);
        each_has_ended(&rt, alloc, streams, WRITE, (output, answer), at)?;
    }
    Ok(())
}
