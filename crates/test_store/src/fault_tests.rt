//! A fault at each call of the disk below a drive.
use crate::asking::{
    A_NEW, BY_A, CHECK, FAILED, FAULT, GOOD, Host, NEW, NO_KEYS, NONE, POWERED_ON, READ_KEYS,
    REGISTER, REGISTER_AND_IGNORE, REGISTERED, RESERVE_5, Row, TEST_UNIT_READY, ask_all, found,
    host_over, new_host,
};
use pr_core::Keeper;
use std::alloc::Global;
use std::process::Abort;
use std::test::Fail;
use tape_disk::{MemDisk, OnceDisk};
use test_assertions::{assert_equal, assert_holds};

// The save of the first order fails. The old state stays, and each later save fails too.
static FAILING: &'static [Row] = &[
    (1, TEST_UNIT_READY, NONE, CHECK, POWERED_ON, 0),
    (1, REGISTER, A_NEW, CHECK, FAILED, 0),
    (1, READ_KEYS, NONE, GOOD, NO_KEYS, 0),
    (1, REGISTER, A_NEW, CHECK, FAILED, 0),
    (1, RESERVE_5, BY_A, CHECK, FAILED, 0),
    (1, READ_KEYS, NONE, GOOD, NO_KEYS, 0),
];

// A drive over the disk as it is works.
fn works(rt: &impl Abort, alloc: Global, reached: MemDisk) -> Result<(), Fail> {
    let Ok(mut drive) = host_over(alloc, reached) else {
        return Err(Fail::from("not opened"));
    };
    let frames = drive.keeper().frames();
    let rows = [
        (1, TEST_UNIT_READY, NONE, CHECK, POWERED_ON, frames),
        (1, REGISTER_AND_IGNORE, A_NEW, GOOD, NONE, 1),
    ];
    ask_all(rt, &mut drive, &rows);
    let left = drive.keeper().disk().copy()?.crash(0, 0xa5)?;
    assert_equal!(rt; found(alloc, left), REGISTERED);
    Ok(())
}

// The state before the first order is left, or the one after it.
fn fails(rt: &impl Abort, alloc: Global, drive: &mut Host<OnceDisk<MemDisk>>) -> Result<(), Fail> {
    ask_all(rt, drive, FAILING);
    assert_holds!(rt; drive.keeper().has_failed());
    let reached = drive.keeper().disk().inner();
    for keep in [0, 1, u64::MAX] {
        for fill in [0x00, 0xa5, 0xff] {
            let left = found(alloc, reached.copy()?.crash(keep, fill)?);
            assert_holds!(rt; left == NEW || left == REGISTERED; left);
        }
    }
    works(rt, alloc, reached.copy()?)
}

// Five calls make the store, four save the registration of host 1. The last call is the second sync.
#[test]
fn a_fault_at_each_call_of_a_save(rt: HostRuntime) -> Result<(), Fail> {
    for calls in 0..9 {
        match new_host(rt.alloc(), OnceDisk::new(MemDisk::new(rt.alloc()), calls)) {
            Ok(mut drive) => {
                assert_holds!(rt; calls >= 5);
                fails(&rt, rt.alloc(), &mut drive)?;
            }
            Err(refused) => assert_equal!(rt; (refused.error, calls < 5), (FAULT, true)),
        }
    }
    Ok(())
}
