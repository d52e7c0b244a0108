//! A fault at each call of each disk.
use crate::crashes::{Left, are_left, restarted, shows};
use crate::drives::{Disks, TestDisk, reached, whole};
use crate::fault_tables::{Action, BOTH, Case, FAULTS, Faults};
use crate::samples::{LATE_ERROR, NONE, READY, ask, asks, reads};
use crate::stop_tests::{At, over_sides};
use bay_moves::Bay;
use std::alloc::Global;
use std::process::Abort;
use std::test::Fail;
use tape_disk::{MemDisk, OnceDisk};
use test_assertions::{assert_equal, assert_holds};
use volume_core::Turn;

// The action meets a fault, or none. A fault of a turn is reported to the next host.
fn acts<D: TestDisk>(rt: &impl Abort, drive: &mut Bay<D>, action: Action, has_met: bool, at: At) {
    match action {
        Action::Turn if has_met => {
            assert_equal!(rt; drive.turn(), Turn::Device; at);
            assert_equal!(rt; drive.turn(), Turn::Idle; at);
            ask(rt, drive, (2, READY, NONE, LATE_ERROR), LATE_ERROR, &at);
        }
        Action::Turn => assert_equal!(rt; drive.turn(), Turn::Stored(1); at),
        Action::Asked(cdb, sent, good, bad) => {
            let wanted = if has_met { bad } else { good };
            ask(rt, drive, (1, cdb, sent, wanted), wanted, &at);
        }
    }
}

// This is found by another drive, and survives each crash.
fn is_found_by_another<D: TestDisk>(
    rt: &impl Abort,
    alloc: Global,
    disks: Disks,
    left: Left,
    at: At,
) -> Result<(), Fail> {
    let mut drive: Bay<D> = restarted(alloc, disks)?;
    assert_holds!(rt; shows(&mut drive, left); at);
    let disks = reached(&drive);
    drop(drive);
    are_left::<D>(rt, alloc, &disks?, &[left], &at)
}

// After the action has failed nothing is accepted; what crashes leave, and what is found again.
fn is_over<D: TestDisk>(
    rt: &impl Abort,
    alloc: Global,
    drive: &mut Bay<D>,
    faults: &Faults,
    lefts: &[Left],
    left: Left,
    at: At,
) -> Result<(), Fail> {
    assert_equal!(rt; drive.turn(), Turn::Idle; at);
    asks(rt, drive, faults.then, &at);
    assert_equal!(rt; drive.turn(), Turn::Idle; at);
    let disks = reached(drive)?;
    are_left::<D>(rt, alloc, &disks, lefts, &at)?;
    let Some(rows) = faults.again else {
        return is_found_by_another::<D>(rt, alloc, disks, left, at);
    };
    asks(rt, drive, rows, &at);
    assert_holds!(rt; reads(drive, left.0); at);
    let disks = reached(drive)?;
    are_left::<D>(rt, alloc, &disks, &[left], &at)
}

// An action of which this call fails, one of its own or the one behind all of them, which it does not reach.
fn is_tried<D: TestDisk>(
    rt: &impl Abort,
    alloc: Global,
    drive: &mut Bay<D>,
    faults: &Faults,
    case: Case,
    call: u64,
    at: At,
) -> Result<(), Fail> {
    let (_, _, _, count, rows, action) = case;
    asks(rt, drive, BOTH, &at);
    asks(rt, drive, rows, &at);
    acts(rt, drive, action, call < count, at);
    match faults.left {
        _ if call == count => Ok(()),
        [_, last] if call.saturating_add(1) == count => {
            is_over(rt, alloc, drive, faults, faults.left, *last, at)
        }
        [first, ..] => is_over(rt, alloc, drive, faults, &[*first], *first, at),
        [] => Err(Fail::from("nothing is left")),
    }
}

fn is_failed<D: TestDisk>(
    rt: &impl Abort,
    alloc: Global,
    faults: &Faults,
    case: Case,
) -> Result<(), Fail> {
    let (what, which, first, count, _, _) = case;
    for call in 0..count.saturating_add(1) {
        let at = (what, which, first.saturating_add(call));
        let mut drive = whole(over_sides::<D>(alloc, faults.sides, at)?)?;
        let tried = is_tried(rt, alloc, &mut drive, faults, case, call, at);
        drop(drive);
        tried?;
    }
    Ok(())
}

fn are_failed<D: TestDisk>(rt: &impl Abort, alloc: Global) -> Result<(), Fail> {
    for faults in FAULTS {
        for case in faults.cases {
            is_failed::<D>(rt, alloc, faults, *case)?;
        }
    }
    Ok(())
}

#[test]
fn a_fault_at_each_call_of_a_drive(rt: HostRuntime) -> Result<(), Fail> {
    are_failed::<OnceDisk<MemDisk>>(&rt, rt.alloc())
}
