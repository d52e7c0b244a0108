//! Disks in memory: what each call leaves, a call that fails, and another thread.
use crate::steps::{Counted, Step, act, counts};
use file_disk::FileDisk;
use std::process::Abort;
use std::test::Fail;
use tape_disk::{Disk, FuseDisk, MemDisk, OnceDisk};
use test_assertions::assert_equal;
use vtl_base::NoMemory;

// Each call of a disk in memory, the bytes after it, how many syncs there were, and the widest read.
static IN_MEMORY: &'static [(Step, &'static [u8], u64, usize)] = &[
    (Step::Put(0, b"abcdef"), b"abcdef", 0, 0),
    (Step::Sync, b"abcdef", 1, 0),
    (Step::Get(3), b"abcdef", 1, 3),
    (Step::Put(4, b"XYZ"), b"abcdXYZ", 1, 3),
    (Step::Get(5), b"abcdXYZ", 1, 3),
    (Step::Read(3), b"abcdXYZ", 1, 3),
    (Step::Cut(2), b"ab", 1, 3),
    (Step::Sync, b"ab", 2, 3),
];

// A copy of the disk has the bytes, and counts as the disk does.
fn acts(rt: &impl Abort, disk: &mut MemDisk) -> Result<(), NoMemory> {
    for &(ask, bytes, syncs, widest) in IN_MEMORY {
        assert_equal!(rt; act(disk, ask), Ok(()));
        let copy = disk.copy()?;
        let size = bytes.len() as u64;
        assert_equal!(rt; (copy.bytes(), copy.len(), copy.syncs()), (bytes, size, syncs));
        assert_equal!(rt; copy.widest_read(), widest);
    }
    Ok(())
}

#[test]
fn a_disk_in_memory(rt: HostRuntime) -> Result<(), Fail> {
    let mut disk = MemDisk::new(rt.alloc());
    acts(&rt, &mut disk)?;
    Ok(())
}

// Two calls pass.
static FUSE: &'static [Counted] = &[
    (Step::Put(0, b"x"), 0, 3),
    (Step::Sync, 0, 3),
    (Step::Sync, 1, 3),
    (Step::Cut(0), 2, 3),
    (Step::Read(0), 3, 3),
    (Step::Put(0, b"y"), 4, 3),
];

#[test]
fn a_fuse(rt: HostRuntime) -> Result<(), Fail> {
    let mut disk = FuseDisk::new(MemDisk::from_bytes(rt.alloc(), b"abc")?, 2);
    counts(&rt, &mut disk, FUSE);
    let below = disk.into_inner();
    assert_equal!(rt; (below.bytes(), below.syncs()), (b"xbc".as_slice(), 1));
    Ok(())
}

// The second call fails.
static ONCE: &'static [Counted] = &[
    (Step::Put(0, b"x"), 0, 3),
    (Step::Sync, 1, 3),
    (Step::Sync, 0, 3),
    (Step::Cut(0), 0, 0),
    (Step::Read(0), 0, 0),
];

#[test]
fn one_call_fails(rt: HostRuntime) -> Result<(), Fail> {
    let mut disk = OnceDisk::new(MemDisk::from_bytes(rt.alloc(), b"abc")?, 1);
    counts(&rt, &mut disk, ONCE);
    let below = disk.into_inner();
    assert_equal!(rt; (below.bytes(), below.syncs()), (b"".as_slice(), 1));
    Ok(())
}

fn may_go_to_another_thread<D: Send>() {}

#[test]
fn a_disk_in_another_thread() {
    may_go_to_another_thread::<MemDisk>();
    may_go_to_another_thread::<FuseDisk<MemDisk>>();
    may_go_to_another_thread::<OnceDisk<MemDisk>>();
    may_go_to_another_thread::<FileDisk>();
}
