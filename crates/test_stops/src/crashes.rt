//! What crashes leave of a drive.
use crate::drives::{Disks, NEVER, TestDisk, switched_on, whole};
use crate::samples::{
    HELD_BY_A, KEY_A, NOBODY, NONE, POWERED_ON, READ_KEYS, READ_RESERVATION, READY, answers, reads,
};
use bay_moves::Bay;
use std::alloc::Global;
use std::fmt::Debug;
use std::process::Abort;
use std::test::Fail;
use tape_disk::MemDisk;
use test_assertions::{assert_equal, assert_holds};

/// What is found when a drive is switched on: the blocks of its tape, of one byte each; and the data of READ KEYS and
/// READ RESERVATION.
pub type Left = (&'static [u8], Held);

pub type Held = (&'static [u8], &'static [u8]);

pub const NOTHING: Held = (NOBODY, NOBODY);

pub const REGISTERED: Held = (KEY_A, NOBODY);

pub const RESERVED: Held = (KEY_A, HELD_BY_A);

/// Whether a drive that was just switched on has this.
pub fn shows<D: TestDisk>(drive: &mut Bay<D>, left: Left) -> bool {
    let (tape, (keys, reservation)) = left;
    answers(drive, (1, READY, NONE, POWERED_ON))
        && reads(drive, tape)
        && answers(drive, (1, READ_KEYS, NONE, (None, keys)))
        && answers(drive, (1, READ_RESERVATION, NONE, (None, reservation)))
}

/// A drive over these disks, of which no call fails.
pub fn restarted<D: TestDisk>(alloc: Global, disks: Disks) -> Result<Bay<D>, Fail> {
    let Disks { tape, store } = disks;
    let second = D::over(MemDisk::new(alloc), NEVER);
    whole(switched_on(alloc, D::over(tape, NEVER), second, D::over(store, NEVER))?)
}

// How many of nine crashes leave this: none, one or all of the bytes that are not synced land, and the others are one
// of three bytes.
fn crashes_with<D: TestDisk>(alloc: Global, reached: &Disks, left: Left) -> Result<u32, Fail> {
    let mut count = 0u32;
    for keep in [0, 1, u64::MAX] {
        for other in [0x00, 0xa5, 0xff] {
            let mut drive = restarted::<D>(alloc, reached.crash(keep, other)?)?;
            if shows(&mut drive, left) {
                count = count.saturating_add(1);
            }
            drop(drive);
        }
    }
    Ok(count)
}

/// Each of nine crashes leaves one of these, and each of these is left by one.
pub fn are_left<D: TestDisk>(
    rt: &impl Abort,
    alloc: Global,
    reached: &Disks,
    lefts: &[Left],
    at: &impl Debug,
) -> Result<(), Fail> {
    let mut all = 0u32;
    for left in lefts {
        let count = crashes_with::<D>(alloc, reached, *left)?;
        assert_holds!(rt; count > 0; (at, left));
        all = all.saturating_add(count);
    }
    assert_equal!(rt; all, 9; at);
    Ok(())
}
