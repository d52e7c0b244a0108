//! What a sync writes again: the first after an opening, and one behind a sync that failed.
use crate::staged::{Noted, counting};
use crate::steps::{Step, act, failures};
use file_disk::{CallFailed, DiskOver, RawFile};
use std::process::Abort;
use std::test::Fail;
use tape_disk::{Disk, MemDisk};
use test_assertions::{assert_equal, assert_holds};
use test_files::{ForgetfulFile, StagedFile, Turn};

// Stores of drive 1 with no body, with one and with two. Their gates are at 0, at 27 and after each body.
const EMPTY: &'static [u8] = b"\xa5VTLRESV1\0\0DRIVE1          \0";

const BODY: &'static [u8] = b"\xa5VTLRESV1\0\0DRIVE1          \xa5\0\0\0\x04body\0";

const TWO: &'static [u8] = b"\xa5VTLRESV1\0\0DRIVE1          \xa5\0\0\0\x04body\xa5\0\0\0\x01b\0";

const TAIL: &'static [u8] = b"\xa5VTLRESV1\0\0DRIVE1          \xa5\0\0\0\x04body\x000123456789";

// Cartridges with one partition and one body of four bytes. Their gates are at 0, 9, 35 and 44: all but the last are
// open, that at 9 is closed, or that at 0 is.
const PAIR_IS_OPEN: &'static [u8] = b"\xa5VTLCART1\xa5\x01T00001L6        \0\0\0\0\0\0\x10\0\
    \xa5\0\0\0\x04body\0";

const CARTRIDGE: &'static [u8] = b"\xa5VTLCART1\0\x01T00001L6        \0\0\0\0\0\0\x10\0\
    \xa5\0\0\0\x04body\0";

const CLOSED: &'static [u8] = b"\0VTLCART1\0\x01T00001L6        \0\0\0\0\0\0\x10\0\
    \xa5\0\0\0\x04body\0";

// One with four partitions.
const FOUR_PARTS: &'static [u8] = b"\xa5VTLCART1\0\x04T00001L6        \0\0\0\0\0\0\x10\0\
    \0\0\0\0\0\0\x10\0\0\0\0\0\0\0\x10\0\0\0\0\0\0\0\x10\0\
    \xa5\0\0\0\x04body\0";

// A call, the failures that it reports, and the totals of all calls then: the bytes that were written, the
// place of the last write, and the good syncs.
type Row = (Step, u64, u64, u64, u64);

// The calls are made one after another, with the results of their rows.
fn are_written(rt: &impl Abort, disk: &mut DiskOver<Noted<StagedFile>>, rows: &[Row]) {
    for &(step, failed, bytes, last, syncs) in rows {
        assert_equal!(rt; failures(act(disk, step)), failed);
        let file = disk.file();
        assert_equal!(rt; (file.bytes, file.last, file.syncs), (bytes, last, syncs));
    }
}

fn opened(rt: &impl Abort, file: Noted<StagedFile>, rows: &[Row]) {
    let mut disk = DiskOver::opened(file);
    let len = disk.len();
    are_written(rt, &mut disk, rows);
    assert_equal!(rt; disk.file().file().disk().len(), len);
}

// A side; how many bytes the first sync after an opening writes again, and the place of the last write.
static OPENINGS: &'static [(&'static [u8], u64, u64)] = &[
    // Of a store the last open gate alone.
    (EMPTY, 1, 0),
    (BODY, 1, 27),
    (TWO, 1, 36),
    // What a stop in an append left after the end gate, too.
    (TAIL, 11, 37),
    // Of a cartridge the last open gate, and its first ten bytes, with the gates of the side and of the pair. The gate
    // of the pair may be open.
    (CARTRIDGE, 11, 0),
    (PAIR_IS_OPEN, 11, 0),
    (FOUR_PARTS, 11, 0),
    // All of a side whose own gate is closed, and of one that is shorter than the start of a side.
    (b"\0VTLCART1\0", 10, 0),
    (b"\0VTLCART1\xa5", 10, 0),
    (b"\x07VTLCART1\0", 10, 0),
    (b"\0VTLCART1\0\xa5\xa5\xa5", 13, 0),
    (b"\0VTLCART1\0\x81T00001L6", 19, 0),
    (CLOSED, 45, 0),
    (b"", 0, 0),
    (b"\0", 1, 0),
    (b"\0V", 2, 0),
    (b"\0VT", 3, 0),
    (b"\0VTL", 4, 0),
    (b"\0VTLC", 5, 0),
    (b"\0VTLCA", 6, 0),
    (b"\0VTLCAR", 7, 0),
    (b"\0VTLCART", 8, 0),
    (b"\0VTLCART1", 9, 0),
    // Nothing of files of other programs, and of a side that is damaged.
    (b"something else", 0, 0),
    (b"\0VTLRESV1\0", 0, 0),
    (b"\0VTLCART2\0", 0, 0),
    (b"\xa5VTLCART1\0", 0, 0),
    (b"\xa5VTLRESV1\0\0DRIVE1          \xa5\0\0\0\x04b", 0, 0),
];

#[test]
fn what_an_opening_writes_again(rt: HostRuntime) -> Result<(), Fail> {
    for &(side, bytes, last) in OPENINGS {
        let rows = [
            (Step::Sync, 0, bytes, last, 1),
            (Step::Sync, 0, bytes, last, 2),
        ];
        opened(&rt, counting(rt.alloc(), side, &[])?, &rows);
    }
    Ok(())
}

// A write that comes first writes the gate before, and a read does not.
#[test]
fn a_write_comes_before_a_sync(rt: HostRuntime) -> Result<(), Fail> {
    let rows = [
        (Step::Read(0), 0, 0, 0, 0),
        (Step::Put(36, b"\0"), 0, 2, 36, 0),
        (Step::Sync, 0, 2, 36, 1),
    ];
    opened(&rt, counting(rt.alloc(), BODY, &[])?, &rows);
    Ok(())
}

// An append writes 8,388,613 bytes behind the end gate at most: of a longer hole as many are written again, in pages
// of 4,096 bytes.
#[test]
fn a_long_hole_behind_the_end(rt: HostRuntime) -> Result<(), Fail> {
    let mut bytes = Vec::from_slice(rt.alloc(), BODY)?;
    bytes.resize(37 + 8_388_700, 0)?;
    let rows = [(Step::Sync, 0, 8_388_614, 37 + 8_388_608, 1)];
    opened(&rt, counting(rt.alloc(), &bytes, &[])?, &rows);
    Ok(())
}

const W: Turn = Turn::Whole;

const F: Turn = Turn::Failed;

// The calls of a first sync over a store with one body: five reads for beginning, header and gates, the byte
// that is read and written again, and the sync.
static CALLS: &'static [Turn] = &[W, W, W, W, W, W, W, F];

// Each call of the first sync fails, one after another. The second sync does what the first did not.
#[test]
fn a_first_sync_that_fails(rt: HostRuntime) -> Result<(), Fail> {
    for first in 0..8 {
        let rows: [Row; 2] = match first {
            0 => [(Step::Sync, 1, 1, 27, 0), (Step::Sync, 0, 2, 27, 1)],
            _ => [(Step::Sync, 1, 0, 0, 0), (Step::Sync, 0, 1, 27, 1)],
        };
        opened(&rt, counting(rt.alloc(), BODY, &CALLS[first..])?, &rows);
    }
    Ok(())
}

// A sync that fails after writes into sixteen bytes. The next good one writes exactly what was written since
// the last good one again.
static HEALED: &'static [(&'static [Turn], &'static [Row])] = &[
    // Two writes that touch or overlap are one range, and two others two.
    (
        &[W, W, W, W, F],
        &[
            (Step::Put(3, b"abc"), 0, 3, 3, 0),
            (Step::Put(5, b"def"), 0, 6, 5, 0),
            (Step::Put(8, b"g"), 0, 7, 8, 0),
            (Step::Put(0, b"xyz"), 0, 10, 0, 0),
            (Step::Sync, 1, 10, 0, 0),
            (Step::Sync, 0, 19, 0, 1),
        ],
    ),
    // What a good sync made sure is not written again, before or behind.
    (
        &[W, W, W, W, F],
        &[
            (Step::Put(3, b"abc"), 0, 3, 3, 0),
            (Step::Sync, 0, 3, 3, 1),
            (Step::Put(8, b"b"), 0, 4, 8, 1),
            (Step::Put(0, b"a"), 0, 5, 0, 1),
            (Step::Sync, 1, 5, 0, 1),
            (Step::Sync, 0, 7, 0, 2),
            (Step::Sync, 0, 7, 0, 3),
        ],
    ),
    // Bytes that were cut away are not written again.
    (
        &[W, W, F],
        &[
            (Step::Put(3, b"abc"), 0, 3, 3, 0),
            (Step::Cut(4), 0, 3, 3, 0),
            (Step::Sync, 1, 3, 3, 0),
            (Step::Sync, 0, 4, 3, 1),
        ],
    ),
    // A second fault is a fault again; then the file is asked for no bytes.
    (
        &[W, F, W, F, W, W, W, F],
        &[
            (Step::Put(3, b"abc"), 0, 3, 3, 0),
            (Step::Sync, 1, 3, 3, 0),
            (Step::Sync, 2, 3, 3, 0),
            (Step::Sync, 3, 6, 3, 0),
            (Step::Sync, 0, 9, 3, 1),
        ],
    ),
    // More ranges are not stored: each later sync fails, and asks the file for no bytes.
    (
        &[W, W, W, F],
        &[
            (Step::Put(0, b"a"), 0, 1, 0, 0),
            (Step::Put(8, b"b"), 0, 2, 8, 0),
            (Step::Put(14, b"c"), 0, 3, 14, 0),
            (Step::Sync, 1, 3, 14, 0),
            (Step::Sync, 2, 3, 14, 0),
            (Step::Put(0, b"a"), 0, 4, 0, 0),
            (Step::Sync, 3, 4, 0, 0),
        ],
    ),
];

#[test]
fn a_sync_behind_one_that_failed(rt: HostRuntime) -> Result<(), Fail> {
    for &(turns, rows) in HEALED {
        let file = counting(rt.alloc(), b"0123456789abcdef", turns)?;
        are_written(&rt, &mut DiskOver::new(file), rows);
    }
    // The same of an opened file, whose first sync, of eight calls, wrote the gate again: that is left alone.
    let turns = [W, W, W, W, W, W, W, W, W, F];
    let rows = [
        (Step::Sync, 0, 1, 27, 1),
        (Step::Put(32, b"y"), 0, 2, 32, 1),
        (Step::Sync, 1, 2, 32, 1),
        (Step::Sync, 0, 3, 32, 2),
    ];
    opened(&rt, counting(rt.alloc(), BODY, &turns)?, &rows);
    Ok(())
}

// A side, the place of a byte, what it was before, and how many bytes were written in all: the last gate of a store; of
// a cartridge that a reclaim opens the gates of the side, of the pair and of the last frame; the gate of one that it
// closes.
static DOUBTS: &'static [(&'static [u8], u64, &'static [u8], u64)] = &[
    (BODY, 27, b"\0", 2),
    (CARTRIDGE, 0, b"\0", 12),
    (PAIR_IS_OPEN, 9, b"\0", 12),
    (CARTRIDGE, 35, b"\0", 12),
    (CLOSED, 0, b"\xa5", 46),
];

// An earlier process overwrote a byte, and its sync failed. The next sync succeeds, but leaves the byte in doubt.
fn in_doubt(
    rt: &impl Abort,
    mut before: MemDisk,
    place: u64,
    old: &'static [u8],
    new: u8,
) -> Result<Noted<ForgetfulFile>, Fail> {
    act(&mut before, Step::Put(place, old))?;
    act(&mut before, Step::Sync)?;
    let mut file = Noted::new(ForgetfulFile::new(before));
    assert_equal!(rt; file.write_some(place, &[new]), Ok(1));
    assert_equal!(rt; file.sync(), Err(CallFailed));
    assert_equal!(rt; file.sync(), Ok(()));
    let left = file.file().disk().copy()?.crash(0, b'.')?;
    assert_holds!(rt; left.bytes().get(place as usize) == Some(&b'.'));
    Ok(file)
}

// The next opening makes the byte sure.
#[test]
fn a_byte_in_doubt_is_made_sure(rt: HostRuntime) -> Result<(), Fail> {
    for &(side, place, old, written) in DOUBTS {
        let before = MemDisk::from_bytes(rt.alloc(), side)?;
        let new = side.get(place as usize).copied().unwrap_or(0);
        let mut disk = DiskOver::opened(in_doubt(&rt, before, place, old, new)?);
        assert_equal!(rt; failures(disk.sync()), 0);
        assert_equal!(rt; disk.file().bytes, written);
        let left = disk.file().file().disk().copy()?.crash(0, b'.')?;
        assert_equal!(rt; left.bytes(), side);
    }
    Ok(())
}
