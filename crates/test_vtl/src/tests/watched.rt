//! Disks whose writes are reported, and which lines report how much was written.
use super::runs::words_of;
use std::cell::Cell;
use std::test::Fail;
use tape_disk::{Disk, MemDisk, OnceDisk};
use test_assertions::assert_equal;
use vtl_notes::progress::{ask_to_reclaim, full_gib, gib_line, gib_read_line};
use vtl_notes::watched::{Progress, Watched};

// How many writes were reported, and of how many bytes.
#[derive(Drop)]
struct Reported {
    told: Cell<(u64, u64)>,
}

impl Progress for Reported {
    fn written(&self, bytes: u64) {
        let (writes, before) = self.told.get();
        let now = (writes.saturating_add(1), before.saturating_add(bytes));
        self.told.set(now);
    }
}

// The call of the disk below that fails, counted from 0; which of the five calls succeed; how many writes
// were reported, and of how many bytes; and the bytes on the disk.
static CALLS: &'static [(u64, [bool; 5], (u64, u64), &'static [u8])] = &[
    (0, [false, true, true, true, true], (2, 7), b"xyzd"),
    (1, [true, false, true, true, true], (2, 7), b"xyzd"),
    (2, [true, true, false, true, true], (1, 3), b"xyz"),
    (3, [true, true, true, false, true], (2, 7), b"xyzd"),
    (4, [true, true, true, true, false], (1, 4), b"abcd"),
    (5, [true, true, true, true, true], (2, 7), b"xyzd"),
];

#[test]
fn each_call_is_passed_on_once(rt: HostRuntime) -> Result<(), Fail> {
    for (bad, done, reported, bytes) in CALLS {
        let progress = Reported {
            told: Cell::new((0, 0)),
        };
        let mut disk = Watched {
            disk: OnceDisk::new(MemDisk::new(rt.alloc()), *bad),
            progress: &progress,
        };
        let found = [
            disk.read_at(0, &mut []).is_ok(),
            disk.cut(0).is_ok(),
            disk.write_at(0, b"abcd").is_ok(),
            disk.sync().is_ok(),
            disk.write_at(0, b"xyz").is_ok(),
        ];
        assert_equal!(rt; found, *done; bad);
        assert_equal!(rt; progress.told.get(), *reported; bad);
        assert_equal!(rt; disk.disk.inner().bytes(), *bytes; bad);
    }
    Ok(())
}

// A count before a write and after it, and the GiB that are then full, if one more is.
static COUNTS: &'static [(u64, u64, Option<u64>)] = &[
    (0, 0, None),
    (0, 1_073_741_823, None),
    (0, 1_073_741_824, Some(1)),
    (1_073_741_823, 1_073_741_824, Some(1)),
    (1_073_741_824, 2_147_483_647, None),
    (2_147_483_647, 2_147_483_648, Some(2)),
    (1_073_741_823, 3_221_225_472, Some(3)),
    (18_446_744_073_709_551_615, 18_446_744_073_709_551_615, None),
];

#[test]
fn a_line_comes_as_a_gib_is_full(rt: HostRuntime) -> Result<(), Fail> {
    for (before, after, full) in COUNTS {
        assert_equal!(rt; full_gib(*before, *after), *full; (before, after));
    }
    Ok(())
}

const LAST: u64 = 18_446_744_073_709_551_615;

// How many GiB were written, and how many were read, of how many.
static WRITTEN: &'static [(u64, &'static str)] = &[
    (1, "1 GiB written\n"),
    (1024, "1024 GiB written\n"),
    (LAST, "18446744073709551615 GiB written\n"),
];

static READ: &'static [(u64, u64, &'static str)] = &[
    (1, 1, "1 of 1 GiB read\n"),
    (17, 1024, "17 of 1024 GiB read\n"),
    (
        LAST,
        LAST,
        "18446744073709551615 of 18446744073709551615 GiB read\n",
    ),
];

#[test]
fn a_line_says_how_many_gib_there_were(rt: HostRuntime) -> Result<(), Fail> {
    for (full, line) in WRITTEN {
        assert_equal!(rt; gib_line(*full)?.as_str(), *line);
    }
    for (full, all, line) in READ {
        assert_equal!(rt; gib_read_line(*full, *all)?.as_str(), *line);
    }
    Ok(())
}

static WORDS: &'static [(&'static str, bool)] = &[
    ("vtl reclaim --config c T00001L6", true),
    ("vtl reclaim", true),
    ("vtl", false),
    ("reclaim", false),
    ("vtl run reclaim", false),
    ("vtl Reclaim", false),
    ("vtl check reclaim", false),
];

#[test]
fn only_reclaims_are_reported(rt: HostRuntime) -> Result<(), Fail> {
    for (line, is_reclaim) in WORDS {
        let words = words_of(rt.alloc(), line)?;
        assert_equal!(rt; ask_to_reclaim(words.as_slice()), *is_reclaim; line);
    }
    Ok(())
}
