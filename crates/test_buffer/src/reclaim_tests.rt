//! A closed cartridge is reclaimed: it is returned with the copy, or unchanged.
use cartridge::{CartridgeError, ReclaimError, Shelved};
use std::alloc::Global;
use std::process::Abort;
use std::test::Fail;
use tape_buffer::reclaim;
use tape_disk::{MemDisk, OnceDisk};
use test_assertions::assert_equal;
use vtl_base::DevFault;

// The first side before it was reclaimed: its pair gate is closed.
static BEFORE: &'static [u8] = b"\xa5VTLCART1\0\x01T00001L6        \0\0\0\0\0\0\x10\0\
    \xa5\0\0\0\x0f\x01\0\0\0\0\0\0\0\0\x05hello\
    \xa5\0\0\0\x0a\x02\0\0\0\0\x01\0\0\0\x01\
    \xa5\0\0\0\x0b\x01\0\0\0\0\0\0\0\0\x01x\0";

// The first side, as before the reclaim: a block of five bytes and a filemark, and then a block written at the
// beginning.
static FIRST: &'static [u8] = b"\xa5VTLCART1\xa5\x01T00001L6        \0\0\0\0\0\0\x10\0\
    \xa5\0\0\0\x0f\x01\0\0\0\0\0\0\0\0\x05hello\
    \xa5\0\0\0\x0a\x02\0\0\0\0\x01\0\0\0\x01\
    \xa5\0\0\0\x0b\x01\0\0\0\0\0\0\0\0\x01x\0";

// The second side: epoch 1, and one frame, which is the copy.
static SECOND: &'static [u8] = b"\xa5VTLCART1\0\x81T00001L6        \0\0\0\0\0\0\x10\0\
    \0\0\0\0\0\0\0\x01\0\0\0\x01\
    \xa5\0\0\0\x0b\x01\0\0\0\0\0\0\0\0\x01x\0";

// More calls than a reclaim makes.
const NEVER: u64 = 1_000;

// The fault of the first call.
const FAULT: CartridgeError = CartridgeError::Device(DevFault { failures: 1 });

// How many bytes of the first side there are, how many calls of its disk pass before one fails, and why it is not
// reclaimed, if it is not.
static ROWS: &'static [(usize, u64, Option<CartridgeError>)] = &[
    (87, NEVER, None),
    (0, NEVER, Some(CartridgeError::NotOurs)),
    (72, NEVER, Some(CartridgeError::Damaged { at: 70 })),
    (87, 0, Some(FAULT)),
];

fn is_reclaimed(
    rt: &impl Abort,
    alloc: Global,
    side: &[u8],
    calls: u64,
    cause: Option<CartridgeError>,
) -> Result<(), Fail> {
    let first = OnceDisk::new(MemDisk::from_bytes(alloc, side)?, calls);
    let second = OnceDisk::new(MemDisk::new(alloc), NEVER);
    match reclaim(alloc, Shelved::of(first, second)) {
        Ok(shelved) => {
            assert_equal!(rt; (None, shelved.epoch()), (cause, 1));
            let (first, second) = shelved.into_disks();
            assert_equal!(rt; (first.inner().bytes(), second.inner().bytes()), (FIRST, SECOND));
        }
        Err(refused) => {
            assert_equal!(rt; Some(refused.error), cause.map(ReclaimError::Cartridge));
            let (first, second) = refused.shelved.into_disks();
            assert_equal!(rt; (first.inner().bytes(), second.inner().bytes()), (side, b"".as_slice()));
        }
    }
    Ok(())
}

#[test]
fn a_reclaim_is_done_or_changes_nothing(rt: HostRuntime) -> Result<(), Fail> {
    for &(len, calls, cause) in ROWS {
        is_reclaimed(
            &rt,
            rt.alloc(),
            &BEFORE[..BEFORE.len().min(len)],
            calls,
            cause,
        )?;
    }
    Ok(())
}
