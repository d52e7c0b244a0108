//! A stop at each call of each disk.
use crate::crashes::are_left;
use crate::drives::{Disks, TestDisk, reached, switched_on};
use crate::samples::{GOOD, Row, ask};
use crate::stop_tables::{End, Moment, RUNS, Run, Side, Sides, Which};
use bay_moves::Bay;
use std::alloc::Global;
use std::process::Abort;
use std::test::Fail;
use tape_disk::{Disk, FuseDisk, MemDisk};
use test_assertions::assert_holds;

/// A run, by its name, the disk that stops, and how many of its calls passed before.
pub type At = (&'static str, Which, u64);

// The disk of this side.
fn disk_of(alloc: Global, side: Side) -> Result<MemDisk, Fail> {
    let (bytes, gate) = side;
    let mut disk = MemDisk::from_bytes(alloc, bytes)?;
    if let Some(gate) = gate {
        if gate > disk.len() || disk.write_at(gate, &[0xa5]).is_err() {
            return Err(Fail::from("not written"));
        }
    }
    Ok(disk)
}

/// A drive over disks of these sides, of which one fails behind so many calls; or the disks, if it is not switched on.
pub fn over_sides<D: TestDisk>(
    alloc: Global,
    sides: Sides,
    at: At,
) -> Result<Result<Bay<D>, (D, D)>, Fail> {
    let (_, which, calls) = at;
    let (of_tape, of_second, of_store) = which.calls(calls);
    let tape = D::over(disk_of(alloc, sides.0)?, of_tape);
    let second = D::over(MemDisk::new(alloc), of_second);
    let store = D::over(disk_of(alloc, sides.1)?, of_store);
    switched_on(alloc, tape, second, store)
}

// The drive gets the commands up to the one that this end names, and has these answers.
fn asks_to<D: TestDisk>(rt: &impl Abort, drive: &mut Bay<D>, rows: &[Row], end: End, at: At) {
    let (last, answer) = match end {
        End::At(place, answer) => (place, answer),
        _ => (rows.len(), GOOD),
    };
    for (place, row) in rows.iter().enumerate() {
        if place > last {
            break;
        }
        let wanted = if place == last { answer } else { row.3 };
        ask(rt, drive, *row, wanted, &(place, at));
    }
}

// A run of which this many calls pass: the drive is switched on, and gets the commands, or it is not; and crashes leave
// what the moment says.
fn stops<D: TestDisk>(
    rt: &impl Abort,
    alloc: Global,
    run: Run,
    moment: Moment,
    calls: u64,
) -> Result<(), Fail> {
    let (what, which, sides, rows, _) = run;
    let (_, end, lefts) = moment;
    let at = (what, which, calls);
    let is_off = matches!(end, End::NotOn);
    let disks = match over_sides::<D>(alloc, sides, at)? {
        Ok(bay) => {
            assert_holds!(rt; !is_off; at);
            let mut drive = bay;
            asks_to(rt, &mut drive, rows, end, at);
            let disks = reached(&drive);
            drop(drive);
            disks?
        }
        Err((tape, store)) => {
            assert_holds!(rt; is_off; at);
            Disks::below(&tape, &store)?
        }
    };
    are_left::<D>(rt, alloc, &disks, lefts, &at)
}

// Each run is stopped before each of its calls, and once after them all, which is no stop.
fn are_stopped<D: TestDisk>(rt: &impl Abort, alloc: Global) -> Result<(), Fail> {
    for run in RUNS {
        let mut next = 0u64;
        for moment in run.4 {
            let last = moment.0;
            for calls in next..last.saturating_add(1) {
                stops::<D>(rt, alloc, *run, *moment, calls)?;
            }
            next = last.saturating_add(1);
        }
    }
    Ok(())
}

#[test]
fn a_stop_at_each_call_of_a_drive(rt: HostRuntime) -> Result<(), Fail> {
    are_stopped::<FuseDisk<MemDisk>>(&rt, rt.alloc())
}
