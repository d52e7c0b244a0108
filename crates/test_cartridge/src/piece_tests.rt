//! The bodies of a cartridge are read in pieces while it is opened, and long blocks are passed over; many frames, and
//! the longest body.
use crate::samples::{FAULT, block, extent_of, has, made, marks, opened, spare};
use cartridge::Cartridge;
use std::alloc::Global;
use std::process::Abort;
use std::test::Fail;
use tape_disk::{FuseDisk, MemDisk};
use test_assertions::assert_equal;

// A side with one frame of two blocks, of these sizes.
fn side_of_two(alloc: Global, first: &[u8], second: &[u8]) -> Result<MemDisk, Fail> {
    let mut known = made(alloc, 4_194_304)?;
    let blocks = [block(alloc, 0, 0, first)?, block(alloc, 0, 1, second)?];
    known.store(alloc, &blocks)?;
    Ok(MemDisk::from_bytes(alloc, known.cartridge().disk().bytes())?)
}

// When it was opened, it read at most 65,536 bytes at a time. Then both blocks are there, with these sizes.
fn holds_two(
    rt: &impl Abort,
    alloc: Global,
    cartridge: &mut Cartridge<MemDisk>,
    used: u64,
    blocks: (&[u8], &[u8]),
) {
    assert_equal!(rt; extent_of(cartridge), (1, 2, used));
    assert_equal!(rt; cartridge.disk().widest_read(), 65_536; used);
    assert_equal!(rt; has(alloc, cartridge, 0, blocks.0), Ok(true); used);
    assert_equal!(rt; has(alloc, cartridge, 1, blocks.1), Ok(true); used);
}

// An opening asks the disk so often.
fn is_asked(rt: &impl Abort, alloc: Global, disk: &MemDisk, calls: u64) -> Result<(), Fail> {
    for (calls, expected) in [(calls, None), (calls.saturating_sub(1), Some(FAULT))] {
        let first = FuseDisk::new(disk.copy()?, calls);
        assert_equal!(rt; opened(alloc, first, spare(alloc)).err(), expected; calls);
    }
    Ok(())
}

// The sizes of two blocks, what they take, and how often an opening calls the disk. The first has a head that has
// six bytes before place 65,536 of the body, and four after it.
static ROWS: &'static [(usize, usize, u64, u64)] = &[
    (65_520, 100, 65_652, 9),
    (131_063, 100, 131_195, 9),
    (131_062, 100, 131_194, 10),
    (1_048_576, 100, 1_048_708, 9),
    (1_048_576, 4_086, 1_052_694, 9),
    (1_048_576, 4_087, 1_052_695, 10),
];

fn is_opened(rt: &impl Abort, alloc: Global, row: (usize, usize, u64, u64)) -> Result<(), Fail> {
    let (first, second, used, calls) = row;
    let one = vec![in alloc; 0x5a; first]?;
    let two = vec![in alloc; 0xa5; second]?;
    let disk = side_of_two(alloc, &one, &two)?;
    is_asked(rt, alloc, &disk, calls)?;
    let mut cartridge = opened(alloc, disk, MemDisk::new(alloc))?;
    holds_two(rt, alloc, &mut cartridge, used, (&one, &two));
    Ok(())
}

// Seven calls come before the body: a sync and a read of the front show which side counts; then a sync, two
// reads of the front, one of the frame's mark, one of the end gate. A first piece has 65,526 bytes of the
// first block. Where 65,537 of it are left, they are passed over, and the next piece has at most 4,096 bytes.
// Where 65,536 are left, they are read.
#[test]
fn how_often_the_disk_is_asked(rt: HostRuntime) -> Result<(), Fail> {
    for &row in ROWS {
        is_opened(&rt, rt.alloc(), row)?;
    }
    Ok(())
}

// 300 frames of a filemark. Then eight records of 1,048,576 bytes, of which ten are the head: 8,388,608.
#[test]
fn the_longest_body(rt: HostRuntime) -> Result<(), Fail> {
    let alloc = rt.alloc();
    let long = vec![in alloc; 0x5a; 1_048_566]?;
    let mut known = made(alloc, 16_777_216)?;
    for at in 0..300 {
        assert_equal!(rt; known.store(alloc, &[marks(0, at, 1)]), Ok(()); at);
    }
    let mut changes = Vec::new(alloc);
    for at in 300..308 {
        changes.push(block(alloc, 0, at, &long)?)?;
    }
    known.store(alloc, &changes)?;
    let Ok(known) = known.opened_again(alloc) else {
        return Err(Fail::from("not opened again"));
    };
    let mut cartridge = known.into_cartridge();
    assert_equal!(rt; extent_of(&cartridge), (301, 308, 8_393_456));
    assert_equal!(rt; has(alloc, &mut cartridge, 307, &long), Ok(true));
    Ok(())
}
