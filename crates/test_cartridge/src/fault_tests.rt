//! A fault at each call of the disk, after which all calls would pass.
use crate::samples::{FAULT, disk_of, erased, found, has, store_block, store_two};
use crate::stop_cases::{CASES, Case, may_be_left};
use crate::works::done;
use cartridge::CartridgeError;
use cartridge::CartridgeError::Failed;
use std::alloc::Global;
use std::process::Abort;
use std::test::Fail;
use tape_disk::{Disk, MemDisk, OnceDisk};
use test_assertions::{assert_equal, assert_holds};
use test_known::Known;
use vtl_base::NoMemory;

// Behind a fault and a crash the frames are there without the new one or with it, and the work can be done.
fn works_on(
    rt: &impl Abort,
    alloc: Global,
    case: Case,
    calls: u64,
    disk: MemDisk,
    after: &[u8],
) -> Result<(), NoMemory> {
    let (work, _, _, _, left, _) = case;
    let here = found(alloc, disk.copy()?)?;
    assert_holds!(rt; may_be_left(left, calls, here); (work, calls, here));
    let (disk, ended) = done(alloc, work, disk, MemDisk::new(alloc));
    assert_holds!(rt; ended; (work, calls));
    let was_old = may_be_left(left, 0, here);
    assert_equal!(rt; disk.bytes() == after, was_old; (work, calls));
    Ok(())
}

// A case that adds a frame, on a disk of which each call fails in turn. In the crash none, one or all of the bytes
// that are not sure have landed.
fn fails(rt: &impl Abort, alloc: Global, case: Case, after: &[u8]) -> Result<(), NoMemory> {
    for calls in 0..=case.3 {
        let first = OnceDisk::new(disk_of(alloc, case.1)?, calls);
        let second = OnceDisk::new(MemDisk::new(alloc), u64::MAX);
        let (left, ended) = done(alloc, case.0, first, second);
        assert_equal!(rt; ended, calls >= case.3; (case.0, calls));
        for keep in [0, 1, u64::MAX] {
            for fill in [0x00, 0xa5, 0xff] {
                let crashed = left.inner().copy()?.crash(keep, fill)?;
                works_on(rt, alloc, case, calls, crashed, after)?;
            }
        }
    }
    Ok(())
}

#[test]
fn a_fault_and_a_crash_at_each_call(rt: HostRuntime) -> Result<(), Fail> {
    for &case in CASES {
        if let Some(after) = case.5 {
            fails(&rt, rt.alloc(), case, after)?;
        }
    }
    Ok(())
}

// The results of a store, of a read of the first block, and of an erase.
type Answers = (
    Result<(), CartridgeError>,
    Result<bool, CartridgeError>,
    Result<(), CartridgeError>,
);

// A cartridge stores a block and two changes, reads the block and erases all.
fn answers<D: Disk + Drop>(
    alloc: Global,
    known: Known<D>,
) -> Result<(Answers, usize), CartridgeError> {
    let mut known = known;
    store_block(alloc, &mut known, 0, b"hello")?;
    let stored = store_two(alloc, &mut known);
    let mut cartridge = known.into_cartridge();
    let read = has(alloc, &mut cartridge, 0, b"hello");
    let erased = erased(&mut cartridge);
    Ok(((stored, read, erased), cartridge.frames()))
}

#[test]
fn a_fault_at_each_call(rt: HostRuntime) -> Result<(), Fail> {
    let alloc = rt.alloc();
    // Five calls make the cartridge, six open it, four store, four store, one reads, four store. One of them
    // fails, and those after it would pass.
    for calls in 0..25 {
        let expected = match calls {
            0..=14 => Err(FAULT),
            15..=18 => Ok(((Err(FAULT), Err(Failed), Err(Failed)), 1)),
            19 => Ok(((Ok(()), Err(FAULT), Err(Failed)), 2)),
            20..=23 => Ok(((Ok(()), Ok(true), Err(FAULT)), 2)),
            _ => Ok(((Ok(()), Ok(true), Ok(())), 3)),
        };
        let first = OnceDisk::new(MemDisk::new(alloc), calls);
        let second = OnceDisk::new(MemDisk::new(alloc), u64::MAX);
        let found = match Known::made(alloc, first, second, &[4_096]) {
            Ok(known) => answers(alloc, known),
            Err(refused) => Err(refused.error),
        };
        assert_equal!(rt; found, expected; calls);
    }
    Ok(())
}
