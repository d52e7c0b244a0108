//! A fault at each call of each of the two disks of a reclaim, after which all calls pass.
use crate::samples::{FAULT, reclaim};
use crate::stop_tables::{WORKS, Work};
use crate::stop_tests::is_right;
use std::alloc::Global;
use std::process::Abort;
use std::test::Fail;
use tape_disk::OnceDisk;
use test_assertions::assert_equal;

// The number of a call that no disk reaches.
const NEVER: u64 = u64::MAX;

// One of the disks fails at the call after this many. Whether there was one.
fn is_faulty(rt: &impl Abort, alloc: Global, work: &Work, calls: (u64, u64)) -> Result<bool, Fail> {
    let (first, second) = work.pair(alloc)?;
    let first = OnceDisk::new(first, calls.0);
    let second = OnceDisk::new(second, calls.1);
    let (first, second, ended) = reclaim(alloc, first, second);
    let failed = ended != Ok(());
    if failed {
        assert_equal!(rt; ended, Err(FAULT); (work.first, calls));
    }
    let pair = (first.into_inner(), second.into_inner());
    let next = work.epoch.saturating_add(1);
    is_right(rt, alloc, pair, work, (work.epoch, next), &calls)?;
    Ok(failed)
}

// How many calls of the two disks fail in this way; neither disk has as many as 29.
fn faults(rt: &impl Abort, alloc: Global, work: &Work) -> Result<u64, Fail> {
    let mut count = 0u64;
    for calls in 0..30 {
        for both in [(calls, NEVER), (NEVER, calls)] {
            if is_faulty(rt, alloc, work, both)? {
                count = count.saturating_add(1);
            }
        }
    }
    Ok(count)
}

#[test]
fn a_fault_at_each_call_of_either(rt: HostRuntime) -> Result<(), Fail> {
    for work in WORKS {
        assert_equal!(rt; faults(&rt, rt.alloc(), work)?, work.calls; work.first);
    }
    Ok(())
}
