//! A stop at each call of the disk, and what is left by the stops of a run.
use crate::samples::{disk_of, found, spare};
use crate::stop_cases::{CASES, Case, may_be_left};
use crate::works::done;
use std::alloc::Global;
use std::process::Abort;
use std::test::Fail;
use tape_disk::{Disk, FuseDisk, MemDisk};
use test_assertions::{assert_equal, assert_holds};
use test_crashes::{Run, Stop, stop_at_each_call};
use vtl_base::NoMemory;

#[derive(Drop)]
struct Stopped {
    case: Case,
}

impl Run for Stopped {
    fn run(&self, alloc: Global, disk: FuseDisk<MemDisk>) -> (MemDisk, bool) {
        let (disk, ended) = done(alloc, self.case.0, disk, spare(alloc));
        (disk.into_inner(), ended)
    }
}

// An opening leaves the disk unchanged. The work has ended directly after its last call, and then the disk has the
// bytes of the case.
fn is_right(
    rt: &impl Abort,
    alloc: Global,
    stop: Stop,
    case: Case,
    before: &[u8],
) -> Result<(), NoMemory> {
    let Stop { calls, ended, disk } = stop;
    let (work, image, opening, total, left, after) = case;
    let row = (work, image.1, image.2, calls);
    assert_equal!(rt; ended, calls == total; row);
    assert_holds!(rt; calls > opening || disk.bytes() == before; row);
    if let Some(bytes) = after {
        assert_holds!(rt; !ended || disk.bytes() == bytes; row);
    }
    let here = found(alloc, disk)?;
    assert_holds!(rt; may_be_left(left, calls, here); (row, here));
    Ok(())
}

fn are_right(rt: &impl Abort, alloc: Global, case: Case) -> Result<(), NoMemory> {
    let disk = disk_of(alloc, case.1)?;
    let stops = stop_at_each_call(alloc, &disk, &Stopped { case })?;
    assert_equal!(rt; stops.len() as u64 / 9, case.3.saturating_add(1); case.0);
    for stop in stops {
        is_right(rt, alloc, stop, case, disk.bytes())?;
    }
    Ok(())
}

#[test]
fn a_stop_at_each_call(rt: HostRuntime) -> Result<(), Fail> {
    for &case in CASES {
        are_right(&rt, rt.alloc(), case)?;
    }
    Ok(())
}

// Writes two bytes and makes them sure.
struct TwoBytes;

impl Run for TwoBytes {
    fn run(&self, _alloc: Global, disk: FuseDisk<MemDisk>) -> (MemDisk, bool) {
        let mut disk = disk;
        let ended = disk.write_at(0, b"ab").is_ok() && disk.sync().is_ok();
        (disk.into_inner(), ended)
    }
}

// What the stops leave, two bytes each: nine are before the write, nine before the sync, where none, one or both of
// the bytes have landed, and nine after both.
const LEFT: &'static [u8; 54] = b"..................\0\0\xa5\xa5\xff\xffa\0a\xa5a\xff\
    abababababababababababab";

#[test]
fn what_the_stops_leave(rt: HostRuntime) -> Result<(), Fail> {
    let disk = MemDisk::from_bytes(rt.alloc(), b"..")?;
    let stops = stop_at_each_call(rt.alloc(), &disk, &TwoBytes)?;
    assert_equal!(rt; stops.len(), 27);
    for (i, stop) in stops.iter().enumerate() {
        assert_equal!(rt; (stop.calls, stop.ended), (i as u64 / 9, i >= 18));
        let from = i.saturating_mul(2);
        let left = LEFT.get(from..from.saturating_add(2));
        assert_equal!(rt; Some(stop.disk.bytes()), left; i);
    }
    Ok(())
}
