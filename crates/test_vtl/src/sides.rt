//! The lines of sides over a disk that fails, and of a side of which a byte has any value.
use check_lines::checking::check_side;
use check_lines::reading::{ReportsRead, Unreported};
use std::cell::Cell;
use std::test::Fail;
use tape_disk::{MemDisk, OnceDisk};
use test_assertions::{assert_equal, assert_holds};
use vtl_faults::faults::VtlFault;

// A cartridge `T00001L6` of one partition of 4,096 bytes, with two frames, whose gates are at 35, 55 and 70:
// a block `hello`, and a filemark after it.
const SIDE: &'static [u8; 71] = b"\xa5VTLCART1\0\x01T00001L6        \0\0\0\0\0\0\x10\0\
    \xa5\0\0\0\x0f\x01\0\0\0\0\0\0\0\0\x05hello\
    \xa5\0\0\0\x0a\x02\0\0\0\0\x01\0\0\0\x01\
    \0";

const WHOLE: &str = "cartridge T00001L6 partitions 1 frames 2\npartition 0 objects 2 used 37\n";

// A store `DRIVE1` with two frames, whose gates are at 27, 45 and 63: host 1 is registered, and has reserved.
const STORE: &'static [u8; 64] = b"\xa5VTLRESV1\0\0DRIVE1          \
    \xa5\0\0\0\x0d\x01\0\0\x01\x01\0\0\0\0\0\0\0\xa1\
    \xa5\0\0\0\x0d\x01\x05\x01\x01\x01\0\0\0\0\0\0\0\xa1\
    \0";

const STORED: &str = "reservations DRIVE1 frames 2 registrations 1\n";

// How often the first disk is called until its two frames are opened. A sync and a read of up to 71 bytes
// show which side counts. Then come a sync, two reads of the front, one read at each of three gates, and
// one of each body. A store has as many: first it is found that no side counts, and its second read of the front is of
// no byte.
const CALLS: u64 = 2 + 1 + 2 + 3 + 2;

// A side, its lines, how often the disk is called for them, and the last report on what was read, and how many there
// were, if blocks are read. That makes one call more for a block, behind all others: the side has one block of 5 bytes,
// which uses 21, and a filemark, which uses 16.
type Row<'a> = (&'a [u8], &'a str, u64, Option<((u64, u64), u64)>);

const NOTHING: ((u64, u64), u64) = ((0, 0), 0);

static SIDES: &'static [Row<'static>] = &[
    (SIDE, WHOLE, CALLS, None),
    (STORE, STORED, CALLS, None),
    (SIDE, WHOLE, CALLS + 1, Some(((37, 37), 2))),
];

// The last report on what was read, and how many there were.
#[derive(Drop)]
struct Reported {
    last: Cell<(u64, u64)>,
    count: Cell<u64>,
}

impl ReportsRead for Reported {
    fn read(&self, used: u64, all: u64) {
        self.last.set((used, all));
        self.count.set(self.count.get().saturating_add(1));
    }
}

#[test]
fn a_disk_that_fails(rt: HostRuntime) -> Result<(), Fail> {
    let alloc = rt.alloc();
    for &(side, wanted, needed, told) in SIDES {
        for calls in 0..20 {
            let reported = Reported {
                last: Cell::new((0, 0)),
                count: Cell::new(0),
            };
            let disk = OnceDisk::new(MemDisk::from_bytes(alloc, side)?, calls);
            let second = OnceDisk::new(MemDisk::new(alloc), u64::MAX);
            let checked = if told.is_some() {
                check_side(alloc, disk, second, Some(&reported))
            } else {
                check_side(alloc, disk, second, None::<&Unreported>)
            };
            assert_equal!(rt; checked.first.inner().bytes(), side; calls);
            let lines = match &checked.lines {
                Ok(text) => Ok(text.as_slice()),
                Err(fault) => Err(*fault),
            };
            let wanted = if calls >= needed {
                Ok(wanted.as_bytes())
            } else {
                Err(VtlFault::Device)
            };
            assert_equal!(rt; lines, wanted; calls);
            let told = if calls >= needed {
                told.unwrap_or(NOTHING)
            } else {
                NOTHING
            };
            assert_equal!(rt; (reported.last.get(), reported.count.get()), told; calls);
        }
    }
    Ok(())
}

// The contract says which lines there are of bytes in memory, unless there are none.
#[test]
fn each_byte_with_each_value(rt: HostRuntime) -> Result<(), Fail> {
    let alloc = rt.alloc();
    for side in [SIDE.as_slice(), STORE.as_slice()] {
        for place in 0..side.len() {
            for value in 0..=255u8 {
                let mut bytes = Vec::new(alloc);
                for (at, byte) in side.iter().enumerate() {
                    bytes.push(if at == place { value } else { *byte })?;
                }
                let disk = MemDisk::from_bytes(alloc, bytes.as_slice())?;
                let checked = check_side(alloc, disk, MemDisk::new(alloc), None::<&Unreported>);
                assert_holds!(rt; checked.lines.is_ok(); (value, place));
            }
        }
    }
    Ok(())
}
