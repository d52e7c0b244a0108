//! Which side of a pair of images counts.
use crate::reclaims::{Choice, choice_of};
use crate::rows::{BEFORE, ONCE, PREPARED, TWICE};
use cartridge_sides::Which;
use std::alloc::{AllocError, Global};
use std::test::Fail;
use tape_disk::{MemDisk, OnceDisk};
use test_assertions::assert_equal;

/// An image, and bytes that are set in it.
pub type Image = (&'static [u8], &'static [(usize, u8)]);

const PLAIN: Choice = Some((Which::First, 0, 0, 25));

const FIRST_COPY: Choice = Some((Which::First, 2, 1, 37));

const SECOND_COPY: Choice = Some((Which::Second, 1, 1, 37));

const LATE_COPY: Choice = Some((Which::Second, 0x0100_0000_0000_0001, 1, 37));

// An open pair gate.
const PAIR: &'static [(usize, u8)] = &[(9, 0xa5)];

// Pairs of images, and which side of each counts.
static PAIRS: &'static [(Image, Image, Choice)] = &[
    // The first side alone is read: the second disk has nothing, or a copy, or an open pair gate.
    ((BEFORE, &[]), (&[], &[]), PLAIN),
    ((BEFORE, &[]), (ONCE, &[]), PLAIN),
    ((BEFORE, &[(9, 7)]), (TWICE, &[]), PLAIN),
    // Both are read.
    ((BEFORE, PAIR), (PREPARED, &[]), PLAIN),
    ((BEFORE, PAIR), (ONCE, &[(0, 0)]), PLAIN),
    ((BEFORE, PAIR), (ONCE, &[]), SECOND_COPY),
    ((TWICE, &[]), (ONCE, &[]), FIRST_COPY),
    ((TWICE, &[(0, 0xa4)]), (ONCE, &[]), SECOND_COPY),
    // A closed side needs no head.
    ((TWICE, &[]), (ONCE, &[(0, 0), (10, 9)]), FIRST_COPY),
    // The first bytes of an epoch are the most significant ones.
    ((TWICE, &[]), (ONCE, &[(35, 1)]), LATE_COPY),
    // The first disk has no ten bytes of a cartridge, or its single side is closed, has no head or is a copy.
    ((&[], &[]), (ONCE, &[]), None),
    ((BEFORE, &[(8, b'2')]), (&[], &[]), None),
    ((BEFORE, &[(0, 0)]), (&[], &[]), None),
    ((BEFORE, &[(11, b' ')]), (&[], &[]), None),
    ((BEFORE, &[(33, 0x0f)]), (&[], &[]), None),
    ((TWICE, &[(9, 0)]), (ONCE, &[]), None),
    // The second disk has no ten bytes, or its pair gate is open.
    ((BEFORE, PAIR), (&[], &[]), None),
    ((TWICE, &[]), (ONCE, &[(1, b'v')]), None),
    ((TWICE, &[]), (ONCE, PAIR), None),
    // Both are closed; one of them is open and has no head; both have the same epoch.
    ((TWICE, &[(0, 0)]), (PREPARED, &[]), None),
    ((TWICE, &[(10, 0x85)]), (ONCE, &[]), None),
    ((TWICE, &[(42, 1)]), (ONCE, &[]), None),
];

/// The image.
pub fn made(alloc: Global, image: Image) -> Result<Vec<u8>, AllocError> {
    let (bytes, set) = image;
    let mut bytes = bytes.to_vec(alloc)?;
    for &(at, byte) in set {
        if at < bytes.len() {
            bytes[at] = byte;
        }
    }
    Ok(bytes)
}

#[test]
fn pairs_of_images(rt: HostRuntime) -> Result<(), Fail> {
    for &(first, second, expected) in PAIRS {
        let mut one = MemDisk::from_bytes(rt.alloc(), &made(rt.alloc(), first)?)?;
        let mut two = MemDisk::from_bytes(rt.alloc(), &made(rt.alloc(), second)?)?;
        assert_equal!(rt; choice_of(&mut one, &mut two), Ok(expected); (first, second));
    }
    Ok(())
}

// Where the second call of the first disk fails, both were synced.
#[test]
fn both_disks_are_synced_before_one_is_read(rt: HostRuntime) -> Result<(), Fail> {
    let mut one = OnceDisk::new(MemDisk::from_bytes(rt.alloc(), BEFORE)?, 1);
    let mut two = OnceDisk::new(MemDisk::from_bytes(rt.alloc(), &[])?, 9);
    assert_equal!(rt; choice_of(&mut one, &mut two).is_err(), true);
    assert_equal!(rt; (one.inner().syncs(), two.inner().syncs()), (1, 1));
    Ok(())
}
