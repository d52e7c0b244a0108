//! A script over a disk of which one call fails: what is written, and which fault is reported.
use super::noted_files::{Failing, NotedFiles};
use super::runs::{FAILED, Line, Outcome, WHOLE, has_ended, run_over};
use std::alloc::Global;
use std::sync::Wait;
use std::test::Fail;
use std::thread::Threads;
use std::time::Clock;
use test_assertions::assert_equal;

const GOOD: &str = "CHECK 700006000000000a00000000290000000000\nGOOD\n";

// A block that waits until the end; and one after which a line is refused.
const WAITS: &[u8] = b"1 2 000000000000\n1 2 0a0000000100 61\n";

const REFUSED: &[u8] = b"1 2 000000000000\n1 2 0a0000000100 61\n--\nx\n";

const LINE_4: Line<'static> = ("vtl: script line 4 refused\n", 1);

// Runs a script over a library whose cartridge in drive 2 fails at the call of its disk after this many.
fn over_bad_disk<R: Threads + Wait + Clock + Sync>(
    rt: &R,
    alloc: Global,
    script: &[u8],
    calls: u64,
) -> Result<Outcome, Fail> {
    let files = NotedFiles::new(alloc, Failing::Disk("u", calls));
    let streams = (script, WHOLE, WHOLE, WHOLE, WHOLE);
    run_over(rt, alloc, &files, "vtl run --config c", streams)
}

#[test]
fn the_first_fault_is_reported(rt: HostRuntime) -> Result<(), Fail> {
    let mut unwritten = 0u32;
    for calls in 0..40 {
        let waits = over_bad_disk(&rt, rt.alloc(), WAITS, calls)?;
        if waits.output.as_slice() != GOOD.as_bytes() {
            continue;
        }
        let refused = over_bad_disk(&rt, rt.alloc(), REFUSED, calls)?;
        has_ended(&rt, &refused, GOOD, LINE_4, calls as usize);
        if waits.ended.status != 0 {
            has_ended(&rt, &waits, GOOD, FAILED, calls as usize);
            unwritten = unwritten.saturating_add(1);
        }
    }
    // A frame is four calls of the disk.
    assert_equal!(rt; unwritten, 4);
    Ok(())
}
