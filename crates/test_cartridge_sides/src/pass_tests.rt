//! Reclaims of a cartridge byte by byte, and the passes by themselves.
use crate::reclaims::{NONE_LEFT, choice_of, reclaim};
use crate::rows::{BEFORE, ONCE, PREPARED, TWICE};
use cartridge_sides::{Which, close_spare, open_pair, prepare_pair};
use std::alloc::{AllocError, Global};
use std::process::Abort;
use std::test::Fail;
use tape_disk::MemDisk;
use test_assertions::assert_equal;
use vtl_base::NoMemory;

// A pair of disks.
type Pair = (MemDisk, MemDisk);

fn pair_of(alloc: Global, first: &[u8], second: &[u8]) -> Result<Pair, NoMemory> {
    Ok((
        MemDisk::from_bytes(alloc, first)?,
        MemDisk::from_bytes(alloc, second)?,
    ))
}

// The first side, with its pair gate open.
fn paired(alloc: Global) -> Result<Vec<u8>, AllocError> {
    let mut bytes = BEFORE.to_vec(alloc)?;
    if bytes.len() > 9 {
        bytes[9] = 0xa5;
    }
    Ok(bytes)
}

fn are_bytes(rt: &impl Abort, pair: &Pair, first: &[u8], second: &[u8]) {
    assert_equal!(rt; (pair.0.bytes(), pair.1.bytes()), (first, second));
}

// A source with no body ends the copy, and the side counts that did.
#[test]
fn a_cartridge_is_reclaimed_twice(rt: HostRuntime) -> Result<(), Fail> {
    let alloc = rt.alloc();
    let mut pair = pair_of(alloc, BEFORE, b"old bytes of another file")?;
    assert_equal!(rt; reclaim(alloc, &mut pair.0, &mut pair.1, 0), Err(NONE_LEFT));
    let found = choice_of(&mut pair.0, &mut pair.1);
    assert_equal!(rt; found, Ok(Some((Which::First, 0, 0, 25))));
    assert_equal!(rt; reclaim(alloc, &mut pair.0, &mut pair.1, 1), Ok(true));
    are_bytes(&rt, &pair, &paired(alloc)?, ONCE);
    assert_equal!(rt; reclaim(alloc, &mut pair.0, &mut pair.1, 0), Err(NONE_LEFT));
    let found = choice_of(&mut pair.0, &mut pair.1);
    assert_equal!(rt; found, Ok(Some((Which::Second, 1, 1, 37))));
    assert_equal!(rt; reclaim(alloc, &mut pair.0, &mut pair.1, 1), Ok(true));
    are_bytes(&rt, &pair, TWICE, ONCE);
    Ok(())
}

// Each writes, syncs once, and writes nothing the second time: a gate that already has its value is not written.
#[test]
fn a_gate_is_written_to_change_it(rt: HostRuntime) -> Result<(), Fail> {
    let alloc = rt.alloc();
    let mut pair = pair_of(alloc, BEFORE, TWICE)?;
    assert_equal!(rt; prepare_pair(&mut pair.0, &mut pair.1), Ok(()));
    are_bytes(&rt, &pair, BEFORE, PREPARED);
    let paired = paired(alloc)?;
    for _ in 0..2u8 {
        assert_equal!(rt; open_pair(&mut pair.0, &pair.1), Ok(()));
        are_bytes(&rt, &pair, &paired, PREPARED);
        assert_equal!(rt; prepare_pair(&mut pair.0, &mut pair.1), Ok(()));
        assert_equal!(rt; close_spare(&mut pair.1), Ok(()));
        assert_equal!(rt; (pair.0.syncs(), pair.1.syncs()), (1, 1));
    }
    for _ in 0..2u8 {
        assert_equal!(rt; close_spare(&mut pair.0), Ok(()));
        assert_equal!(rt; (pair.0.bytes().first(), pair.0.syncs()), (Some(&0), 2));
    }
    Ok(())
}

// Over disks that are too short for it a pass writes nothing, or only inside them.
#[test]
fn disks_that_are_too_short(rt: HostRuntime) -> Result<(), Fail> {
    let mut pair = pair_of(rt.alloc(), &[], b"\xa5")?;
    assert_equal!(rt; open_pair(&mut pair.0, &pair.1), Ok(()));
    assert_equal!(rt; close_spare(&mut pair.0), Ok(()));
    assert_equal!(rt; close_spare(&mut pair.1), Ok(()));
    are_bytes(&rt, &pair, b"", b"\0");
    Ok(())
}
