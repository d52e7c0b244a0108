//! An index of 1,000,000 runs of filemarks: its searches take few steps, and its questions hardly longer than over
//! 1,000. The clauses on steps count what is read with the count of the caller. A search that reads by a count of its
//! own, or that walks through the blocks, is seen by its time alone.
ghost use Rattle.std.specs.Prelude.{◌<◌, ◌≤◌};

use change_records::Record;
use object_index::{Index, MarkRun, Placed};
use std::alloc::Global;
use std::process::Abort;
use std::test::Fail;
use std::time::{CpuClock, Duration};
use test_assertions::{assert_equal, assert_holds};
use volume_core::Catalog;
use vtl_base::Steps;

// A block of one byte and a filemark, this many times, and then as many blocks.
fn striped(alloc: Global, count: u32) -> Result<Index, Fail> {
    let mut index = Index::new(alloc, &[1_099_511_627_776])?;
    for _ in 0..count {
        put(&mut index)?;
        let (part, at, count) = (0, index.count(0), 1);
        index.apply(Record::Marks { part, at, count }, 0)?;
    }
    for _ in 0..count {
        put(&mut index)?;
    }
    Ok(index)
}

// A block after the objects.
fn put(index: &mut Index) -> Result<(), Fail> {
    let (part, at, length) = (0, index.count(0), 1);
    index.apply(Record::Put { part, at, length }, 27)?;
    Ok(())
}

// The run of one filemark with the number k, from 0 on.
fn single(k: u32) -> Option<MarkRun> {
    Some(MarkRun {
        first: k.saturating_mul(2).saturating_add(1),
        count: 1,
        before: k,
    })
}

// A number, the run that begins before the object with that number, and the run that has the filemark with it. The
// filemarks are at the odd numbers below 2,000,000, and blocks from there up to 3,000,000.
static RUNS: &'static [(u32, Option<u32>, Option<u32>)] = &[
    (0, None, Some(0)),
    (1, None, Some(1)),
    (2, Some(0), Some(2)),
    (999_999, Some(499_998), Some(999_999)),
    (1_000_000, Some(499_999), None),
    (1_999_999, Some(999_998), None),
    (2_000_000, Some(999_999), None),
    (4_294_967_295, Some(999_999), None),
];

// The searches, each in at most 20 steps: 1,000,000 has 20 binary digits.
#[test]
fn a_million_runs_are_searched_in_20_steps(rt: HostRuntime) -> Result<(), Fail> {
    let index = striped(rt.alloc(), 1_000_000)?;
    assert_equal!(rt; index.count(0), 3_000_000);
    for &(number, before, with) in RUNS {
        let mut steps = Steps::new();
        assert_equal!(rt; index.run_upto(0, number, &mut steps), before.and_then(single); number);
        assert_holds!(rt; steps.count() <= 20; number);
        let mut steps = Steps::new();
        assert_equal!(rt; index.run_of(0, number, &mut steps), with.and_then(single); number);
        assert_holds!(rt; steps.count() <= 20; number);
    }
    Ok(())
}

// How many questions of each kind are asked.
const QUESTIONS: u32 = 5_000;

// Each block of the index.
const BLOCK: Placed = Placed::Block {
    place: 27,
    length: 1,
};

// The object number of a filemark.
#[tactic(auto, using(crate::proofs::MarkLemmas::marks_of_all))]
fn mark_at(index: &Index, k: u32) -> Option<u32> {
    if k < index.marks_upto(0, index.count(0)) {
        Some(index.mark_at(0, k))
    } else {
        None
    }
}

// Object 2n is block n, and object 2n + 1 is filemark n.
fn asks(rt: &impl Abort, index: &Index, n: u32)
    requires { n < 1000000 }
{
    assert_equal!(rt; mark_at(index, n), Some(2 * n + 1); n);
    assert_equal!(rt; index.marks_upto(0, 2 * n + 2), n + 1; n);
    assert_equal!(rt; index.place(0, 2 * n), Some(BLOCK); n);
    assert_equal!(rt; index.used(0, 2 * n), 33 * u64::from(n); n);
}

// The processor time of the questions to an index of this many runs.
fn time_of<R: Abort + CpuClock>(rt: &R, alloc: Global, runs: u32) -> Result<Duration, Fail>
    requires some { 0 < runs }
    requires few { runs ≤ 1000000 }
{
    let index = striped(alloc, runs)?;
    let start = rt.thread_cpu_time()?;
    for turn in 0..QUESTIONS {
        asks(rt, &index, turn * 1_999 % runs);
    }
    Ok(rt.thread_cpu_time()?.saturating_sub(start))
}

// A walk through 1,000,000 entries takes a thousand times as long as one through 1,000. A binary search takes twice the
// steps, each of which may wait for memory that is farther away.
#[test]
fn questions_walk_through_no_table(rt: HostRuntime) -> Result<(), Fail> {
    let few = time_of(&rt, rt.alloc(), 1_000)?;
    let many = time_of(&rt, rt.alloc(), 1_000_000)?;
    assert_holds!(rt; many.as_micros() <= 100 * few.as_micros(); (many.as_micros(), few.as_micros()));
    Ok(())
}
