//! A side of a pair, opened by itself as a journal.
use crate::choice_tests::made;
use crate::rows::{BEFORE, ONCE, TWICE};
use gate_journal::{Journal, JournalError, last_gates};
use std::alloc::Global;
use std::test::Fail;
use tape_disk::MemDisk;
use test_assertions::assert_equal;

// A store without frames.
const STORE: &'static [u8; 28] = b"\xa5VTLRESV1\0\0DRIVE1          \0";

// The epoch and the base of a side that is a copy, and how many frames are read; or the place where it is damaged.
type Side = Result<(Option<(u64, u32)>, usize), JournalError>;

// The places of the last open gate and of the end gate.
type Places = Option<(u64, u64)>;

// A copy of epoch 1 and base 1, and one of base 0.
const ONE: Option<(u64, u32)> = Some((1, 1));

const ZERO: Option<(u64, u32)> = Some((1, 0));

const NOT_OURS: Side = Err(JournalError::NotOurs);

const DAMAGED_47: Side = Err(JournalError::Damaged { at: 47 });

const DAMAGED_63: Side = Err(JournalError::Damaged { at: 63 });

// An image, how many of its bytes there are, bytes that are set in it, the result of opening it, and its last gates.
type Row = (&'static [u8], usize, &'static [(usize, u8)], Side, Places);

static SIDES: &'static [Row] = &[
    (BEFORE, 87, &[], Ok((None, 3)), Some((70, 86))),
    (BEFORE, 87, &[(9, 7)], Ok((None, 3)), Some((70, 86))),
    (STORE, 28, &[], Ok((None, 0)), Some((0, 27))),
    (ONCE, 64, &[(9, 0xa5)], Ok((ONE, 1)), Some((47, 63))),
    (TWICE, 64, &[], Ok((Some((2, 1)), 1)), Some((47, 63))),
    (ONCE, 46, &[], NOT_OURS, None),
    (ONCE, 47, &[], DAMAGED_47, None),
    (ONCE, 63, &[], DAMAGED_47, None),
    // The byte of the count says whether it is a copy.
    (ONCE, 64, &[(10, 0x01)], Ok((None, 0)), Some((0, 35))),
    (ONCE, 64, &[(10, 0x85)], NOT_OURS, None),
    // There may be more frames than the base, but not fewer.
    (ONCE, 64, &[(46, 0)], Ok((ZERO, 1)), Some((47, 63))),
    (ONCE, 64, &[(46, 2)], DAMAGED_63, None),
    (ONCE, 64, &[(47, 0)], DAMAGED_47, None),
    (ONCE, 64, &[(46, 0), (47, 0)], Ok((ZERO, 0)), Some((0, 47))),
    // A frame that is not whole.
    (ONCE, 64, &[(63, 0xa5)], DAMAGED_63, None),
    // A store is no copy, and its pair gate is written closed.
    (STORE, 28, &[(9, 0xa5)], NOT_OURS, None),
];

fn opened(alloc: Global, disk: MemDisk) -> Side {
    match Journal::open(alloc, disk) {
        Ok(side) => {
            let copied = side.copied().map(|copied| (copied.epoch, copied.base));
            Ok((copied, side.frames()))
        }
        Err(refused) => Err(refused.error),
    }
}

#[test]
fn each_side_by_itself(rt: HostRuntime) -> Result<(), Fail> {
    for &(image, len, set, side, places) in SIDES {
        let bytes = made(rt.alloc(), (&image[..image.len().min(len)], set))?;
        let mut disk = MemDisk::from_bytes(rt.alloc(), &bytes)?;
        let gates = match last_gates(&mut disk) {
            Ok(Some(gates)) => Some((gates.last, gates.end)),
            _ => None,
        };
        assert_equal!(rt; gates, places; (image, len, set));
        assert_equal!(rt; opened(rt.alloc(), disk), side; (image, len, set));
    }
    Ok(())
}
