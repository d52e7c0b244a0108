//! A medium whose side is limited and whose device fails.
use crate::media::{Answer, Ask, PAST_END, Row, assert_rows};
use crate::volumes::Add;
use std::alloc::Global;
use std::process::Abort;
use std::test::Fail;
use test_media::{FaultPlan, StagedMedium};
use volume_core::{MediumError, Turn};

const FULL: Answer = Answer::Not(MediumError::SideFull);

const FAULT: Answer = Answer::Not(MediumError::Device);

const FAILED: Answer = Answer::Not(MediumError::Failed);

// A side of 50 bytes: a block of five bytes takes 20 of it, marks 15, an erase 15.
const FILLING: &'static [Row] = &[
    (Ask::Put(0, 5), Answer::Done, 1, false, 1),
    (Ask::Marks(1, 2), Answer::Done, 2, false, 3),
    (Ask::Room(0), Answer::Has(true), 2, false, 3),
    (Ask::Room(1), Answer::Has(false), 2, false, 3),
    (Ask::Alone(0), Answer::Has(false), 2, false, 3),
    (Ask::Put(3, 1), FULL, 2, false, 3),
    (Ask::Erase(2), Answer::Done, 3, false, 2),
    (Ask::Accept(9, Add::Marks(1)), PAST_END, 3, false, 2),
    (Ask::Marks(2, 1), FULL, 3, false, 2),
    (Ask::Turn, Answer::Turned(Turn::Stored(3)), 0, false, 2),
    (Ask::Turn, Answer::Turned(Turn::Idle), 0, false, 2),
    (Ask::Erase(1), FULL, 0, false, 2),
    (Ask::Reopen, Answer::Done, 0, false, 2),
    (Ask::Erase(1), FULL, 0, false, 2),
    (Ask::Fetch(0, 5), Answer::Done, 0, false, 2),
];

// The second storing fails: when it is requested, in a turn, and in parking.
const SETTLE_FAILS: &'static [Row] = &[
    (Ask::Put(0, 5), Answer::Done, 1, false, 1),
    (Ask::Settle, Answer::Done, 0, false, 1),
    (Ask::Settle, Answer::Done, 0, false, 1),
    (Ask::Put(1, 4), Answer::Done, 1, false, 2),
    (Ask::Settle, FAULT, 1, true, 2),
    (Ask::Settle, FAILED, 1, true, 2),
    (Ask::Put(2, 1), FAILED, 1, true, 2),
    (Ask::Fetch(0, 5), FAILED, 1, true, 2),
    (Ask::Wake, FAILED, 1, true, 2),
];

const TURN_FAILS: &'static [Row] = &[
    (Ask::Put(0, 5), Answer::Done, 1, false, 1),
    (Ask::Turn, Answer::Turned(Turn::Stored(1)), 0, false, 1),
    (Ask::Marks(1, 1), Answer::Done, 1, false, 2),
    (Ask::Turn, Answer::Turned(Turn::Device), 1, true, 2),
    (Ask::Turn, Answer::Turned(Turn::Idle), 1, true, 2),
];

const PARK_FAILS: &'static [Row] = &[
    (Ask::Put(0, 5), Answer::Done, 1, false, 1),
    (Ask::Reopen, Answer::Done, 0, false, 1),
    (Ask::Marks(1, 1), Answer::Done, 1, false, 2),
    (Ask::Reopen, FAULT, 1, true, 2),
];

// The first storing fails at once.
const AT_ONCE: &'static [Row] = &[
    (Ask::Put(0, 5), Answer::Done, 1, false, 1),
    (Ask::Settle, FAULT, 1, true, 1),
];

// A reading fails, and later a storing.
const BOTH_FAIL: &'static [Row] = &[
    (Ask::Put(0, 5), Answer::Done, 1, false, 1),
    (Ask::Settle, Answer::Done, 0, false, 1),
    (Ask::Fetch(0, 5), FAULT, 0, true, 1),
    (Ask::Reopen, Answer::Done, 0, false, 1),
    (Ask::Put(1, 1), Answer::Done, 1, false, 2),
    (Ask::Settle, FAULT, 1, true, 2),
];

// It is then parked and woken, and works again: without what was pending, or with it.
const WITHOUT: &'static [Row] = &[
    (Ask::Reopen, Answer::Done, 0, false, 1),
    (Ask::Put(1, 3), Answer::Done, 1, false, 2),
    (Ask::Reopen, Answer::Done, 0, false, 2),
];

const WITH: &'static [Row] = &[
    (Ask::Reopen, Answer::Done, 0, false, 2),
    (Ask::Put(2, 3), Answer::Done, 1, false, 3),
    (Ask::Reopen, Answer::Done, 0, false, 3),
];

// The second reading fails. What is pending is then discarded, since it was not in flight.
const FETCH_FAILS: &'static [Row] = &[
    (Ask::Put(0, 5), Answer::Done, 1, false, 1),
    (Ask::Settle, Answer::Done, 0, false, 1),
    (Ask::Fetch(0, 5), Answer::Done, 0, false, 1),
    (Ask::Marks(1, 1), Answer::Done, 1, false, 2),
    (Ask::Fetch(0, 5), FAULT, 1, true, 2),
    (Ask::Fetch(0, 5), FAILED, 1, true, 2),
    (Ask::Reopen, Answer::Done, 0, false, 1),
    (Ask::Fetch(0, 5), Answer::Done, 0, false, 1),
];

// Blocks of fewer than six bytes are accepted without the device, and so are marks.
const FEW_BYTES: &'static [Row] = &[
    (Ask::Alone(0), Answer::Has(true), 0, false, 0),
    (Ask::Alone(5), Answer::Has(true), 0, false, 0),
    (Ask::Alone(6), Answer::Has(false), 0, false, 0),
    (Ask::Put(0, 6), Answer::Done, 1, false, 1),
];

const NO_ROW: &'static [Row] = &[];

// The storing and the reading that fail, whether a storing makes a frame then, and whether that is found.
type Plan = (Option<u32>, Option<u32>, bool, bool);

// The plan, how many bytes are too many to be taken alone, the room of the side, the calls, and those afterwards.
type Run = (Plan, u32, u64, &'static [Row], &'static [Row]);

static RUNS: &'static [Run] = &[
    ((None, None, true, true), 0, 50, FILLING, NO_ROW),
    ((None, None, true, true), 6, 50, FEW_BYTES, NO_ROW),
    ((Some(1), None, false, true), 0, 999, SETTLE_FAILS, WITHOUT),
    ((Some(1), None, true, false), 0, 999, SETTLE_FAILS, WITHOUT),
    ((Some(1), None, true, true), 0, 999, SETTLE_FAILS, WITH),
    ((Some(1), None, true, true), 0, 999, TURN_FAILS, WITH),
    ((Some(1), None, true, false), 0, 999, PARK_FAILS, WITHOUT),
    ((None, Some(1), true, true), 0, 999, FETCH_FAILS, NO_ROW),
    ((Some(0), None, true, true), 0, 999, AT_ONCE, NO_ROW),
    ((Some(1), Some(0), true, true), 0, 999, BOTH_FAIL, NO_ROW),
];

fn runs(rt: &impl Abort, alloc: Global, run: Run) -> Result<(), Fail> {
    let ((store, fetch, tears, keeps_torn), alone, room, rows, then) = run;
    let plan = FaultPlan {
        store,
        fetch,
        tears,
        keeps_torn,
    };
    let mut medium = StagedMedium::new(alloc, &[4_096], room, plan)?.taking_alone(alone);
    assert_rows(rt, alloc, &mut medium, rows)?;
    assert_rows(rt, alloc, &mut medium, then)
}

#[test]
fn a_side_fills_and_a_device_fails(rt: HostRuntime) -> Result<(), Fail> {
    for &run in RUNS {
        runs(&rt, rt.alloc(), run)?;
    }
    Ok(())
}
