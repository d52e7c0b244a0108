//! A cartridge calls only the disk of the side that counts, and a fault of either disk.
use crate::samples::{FAULT, Image, SIDE, disk_of, erased, opened};
use cartridge::{Cartridge, CartridgeError};
use cartridge_sides::Which;
use std::alloc::Global;
use std::process::Abort;
use std::test::Fail;
use tape_disk::{MemDisk, OnceDisk};
use test_assertions::assert_equal;
use vtl_base::NoMemory;

// A copy of epoch 1 and base 1. Its one frame has the block `x` and its gate at 47; the end gate is at 63.
const COPY: &'static [u8; 64] = b"\xa5VTLCART1\0\x81T00001L6        \0\0\0\0\0\0\x10\0\
    \0\0\0\0\0\0\0\x01\0\0\0\x01\
    \xa5\0\0\0\x0b\x01\0\0\0\0\0\0\0\0\x01x\
    \0";

// The side with an open pair gate.
const PAIRED: Image = (SIDE, 71, 9, 0xa5);

// A copy beside it; which side counts; and that one with a frame after it that erases all.
static ERASED: &'static [(Image, Which, &'static [u8])] = &[
    (
        (COPY, 64, 0, 0xa5),
        Which::Second,
        b"\xa5VTLCART1\0\x81T00001L6        \0\0\0\0\0\0\x10\0\
            \0\0\0\0\0\0\0\x01\0\0\0\x01\
            \xa5\0\0\0\x0b\x01\0\0\0\0\0\0\0\0\x01x\
            \xa5\0\0\0\x0a\x03\0\0\0\0\0\0\0\0\0\
            \0",
    ),
    (
        (COPY, 64, 0, 0x00),
        Which::First,
        b"\xa5VTLCART1\xa5\x01T00001L6        \0\0\0\0\0\0\x10\0\
            \xa5\0\0\0\x0f\x01\0\0\0\0\0\0\0\0\x05hello\
            \xa5\0\0\0\x0a\x02\0\0\0\0\x01\0\0\0\x01\
            \xa5\0\0\0\x0a\x03\0\0\0\0\0\0\0\0\0\
            \0",
    ),
];

// The syncs of the disk of the side that counts, and those of the other disk.
fn syncs(cartridge: &Cartridge<MemDisk>) -> (u64, u64) {
    (cartridge.disk().syncs(), cartridge.other_disk().syncs())
}

// Both disks are made sure, that of the side that counts once more. A store makes that one sure twice, and
// does not touch the other.
fn erases(rt: &impl Abort, cartridge: &mut Cartridge<MemDisk>, other: &[u8], after: &[u8]) {
    assert_equal!(rt; syncs(cartridge), (2, 1));
    assert_equal!(rt; erased(cartridge), Ok(()));
    assert_equal!(rt; syncs(cartridge), (4, 1));
    assert_equal!(rt; cartridge.disk().bytes(), after);
    assert_equal!(rt; cartridge.other_disk().bytes(), other);
}

#[test]
fn a_store_calls_one_disk(rt: HostRuntime) -> Result<(), Fail> {
    let alloc = rt.alloc();
    for &(copy, which, after) in ERASED {
        let (first, second) = (disk_of(alloc, PAIRED)?, disk_of(alloc, copy)?);
        let mut cartridge = opened(alloc, first.copy()?, second.copy()?)?;
        assert_equal!(rt; cartridge.which(), which);
        let (other, one, two) = match which {
            Which::First => (second.bytes(), after, second.bytes()),
            Which::Second => (first.bytes(), first.bytes(), after),
        };
        erases(&rt, &mut cartridge, other, after);
        let (first, second) = cartridge.shelve().into_disks();
        assert_equal!(rt; (first.bytes(), second.bytes()), (one, two));
    }
    Ok(())
}

// Why a cartridge is not opened where one call of each disk fails, the first after this many.
fn fault_of(alloc: Global, one: u64, two: u64) -> Result<Option<CartridgeError>, NoMemory> {
    let first = disk_of(alloc, PAIRED)?;
    let second = disk_of(alloc, (COPY, 64, 0, 0xa5))?;
    Ok(opened(alloc, OnceDisk::new(first, one), OnceDisk::new(second, two)).err())
}

// The first disk gets a sync and a read. The second, whose side counts, gets the same, then a sync, two reads
// of the front, two of gates and one of a body.
#[test]
fn a_fault_of_either_disk(rt: HostRuntime) -> Result<(), Fail> {
    let alloc = rt.alloc();
    for calls in 0..9 {
        let one = if calls < 2 { Some(FAULT) } else { None };
        assert_equal!(rt; fault_of(alloc, calls, u64::MAX)?, one; calls);
        let two = if calls < 8 { Some(FAULT) } else { None };
        assert_equal!(rt; fault_of(alloc, u64::MAX, calls)?, two; calls);
    }
    Ok(())
}
