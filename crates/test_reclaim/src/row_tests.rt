//! The worked cartridge, reclaimed byte by byte.
use crate::rows::{BEFORE, ONCE, PAIRED, THRICE, TWICE};
use crate::samples::{holds, opened, reclaim, side_of};
use cartridge_sides::Which;
use std::test::Fail;
use tape_disk::MemDisk;
use test_assertions::assert_equal;

// The bytes of both disks after each reclaim.
static ROWS: &'static [(&'static [u8], &'static [u8])] = &[
    (PAIRED, ONCE),
    (TWICE, ONCE),
    (TWICE, THRICE),
];

#[test]
fn the_worked_row(rt: HostRuntime) -> Result<(), Fail> {
    let alloc = rt.alloc();
    let mut pair = (MemDisk::from_bytes(alloc, BEFORE)?, MemDisk::new(alloc));
    for &bytes in ROWS {
        let (first, second, ended) = reclaim(alloc, pair.0, pair.1);
        assert_equal!(rt; ended, Ok(()));
        assert_equal!(rt; (first.bytes(), second.bytes()), bytes);
        pair = (first, second);
    }
    let mut cartridge = opened(alloc, pair.0, pair.1)?;
    assert_equal!(rt; side_of(&cartridge), (Which::Second, Some(3), 64));
    assert_equal!(rt; (cartridge.frames(), cartridge.count(0), cartridge.used(0, 1)), (1, 1, 17));
    assert_equal!(rt; holds(alloc, &mut cartridge, &[b"x"]), Ok(true));
    Ok(())
}
