//! Disks over files in memory whose calls move fewer bytes than requested, are interrupted, fail or forget.
ghost use Rattle.std.specs.Prelude.{◌≤◌, length, IfOk};

use crate::steps::{Counted, Step, counts, failures, get, put};
use file_disk::{CallFailed, DiskOver, RawFile, Stop};
use std::alloc::Global;
use std::collections::VecDeque;
use std::process::Abort;
use std::test::Fail;
use tape_disk::{Disk, MemDisk};
use test_assertions::assert_equal;
use test_files::{StagedFile, Turn};

/// Another file, with a count of the bytes that are written, and the place of the last write. Bytes that are
/// written again are counted again, so a test sees what the device has to do.
#[derive(Drop)]
pub struct Noted<F> {
    file: F,
    /// The bytes that were written.
    pub bytes: u64,
    /// The place of the last write.
    pub last: u64,
    /// The syncs that returned Ok.
    pub syncs: u64,
    /// Whether the system hides the length, until a call that reads.
    pub hides: bool,
}

impl<F: RawFile> Noted<F> {
    pub fn new(file: F) -> Noted<F> {
        Noted {
            file,
            bytes: 0,
            last: 0,
            syncs: 0,
            hides: false,
        }
    }

    pub fn file(&self) -> &F {
        &self.file
    }

    fn write(&mut self, at: u64, bytes: &[u8]) -> Result<usize, Stop>
        ensures { IfOk result (λ count. count ≤ length bytes.now) }
    {
        match self.file.size() {
            Some(len) if at <= len => {}
            _ => return Err(Stop::Failed),
        }
        let count = self.file.write_some(at, bytes)?;
        self.bytes = self.bytes.saturating_add(count as u64);
        self.last = at;
        Ok(count)
    }
}

impl<F: RawFile> RawFile for Noted<F> {
    ghost use Rattle.std.specs.Prelude.{[]};

    ghost state = { λ file. record {
      honest = ⊥;
      seen = [];
      may_leave = λ image. ⊥;
      moment = 0;
      left_since = λ t image. ⊥;
      failures = 0;
    } };

    ghost passed_over = { λ file place. ⊥ };

    ghost unsynced = { λ file place. ⊥ };

    ghost is_file = { λ file honest. absurd honest };

    ghost within = { λ file honest. absurd honest };

    fn size(&self) -> Option<u64> {
        if self.hides {
            return None;
        }
        self.file.size()
    }

    fn read_some(&mut self, at: u64, buffer: &mut [u8]) -> Result<usize, Stop> {
        self.hides = false;
        self.file.read_some(at, buffer)
    }

    fn write_some(&mut self, at: u64, bytes: &[u8]) -> Result<usize, Stop> {
        self.write(at, bytes)
    }

    fn write_again(&mut self, at: u64, bytes: &[u8]) -> Result<usize, Stop> {
        self.write(at, bytes)
    }

    fn cut(&mut self, len: u64) -> Result<(), CallFailed> {
        match self.file.size() {
            Some(end) if len <= end => self.file.cut(len),
            _ => Err(CallFailed),
        }
    }

    fn sync(&mut self) -> Result<(), CallFailed> {
        self.file.sync()?;
        self.syncs = self.syncs.saturating_add(1);
        Ok(())
    }
}

/// A file in memory that holds these bytes.
pub fn staged(alloc: Global, bytes: &[u8], turns: &[Turn]) -> Result<StagedFile, Fail> {
    let mut plan = VecDeque::new(alloc);
    for turn in turns {
        plan.push_back(*turn)?;
    }
    Ok(StagedFile::new(MemDisk::from_bytes(alloc, bytes)?, plan))
}

/// The same; it counts what is written to it.
pub fn counting(alloc: Global, bytes: &[u8], turns: &[Turn]) -> Result<Noted<StagedFile>, Fail> {
    Ok(Noted::new(staged(alloc, bytes, turns)?))
}

// Plans of short and interrupted calls.
static SHORT: &'static [&'static [Turn]] = &[
    &[],
    &[Turn::Part(1), Turn::Part(2), Turn::Part(3)],
    &[Turn::Interrupted, Turn::Interrupted],
    &[Turn::Part(5), Turn::Interrupted, Turn::Part(1)],
];

// What a file holds, a place, the bytes that are written there, and what it holds then.
type Written<'a> = (&'a [u8], u64, &'a [u8], &'a [u8]);

fn writes(rt: &impl Abort, alloc: Global, turns: &[Turn], written: Written) -> Result<(), Fail> {
    let (over, at, bytes, wanted) = written;
    let mut disk = DiskOver::new(staged(alloc, over, turns)?);
    assert_equal!(rt; failures(put(&mut disk, at, bytes)), 0);
    assert_equal!(rt; (disk.file().disk().bytes(), disk.len()), (wanted, wanted.len() as u64));
    Ok(())
}

// What a file holds, a place, and the bytes that are read from there on.
type Read<'a> = (&'a [u8], u64, &'a [u8]);

fn reads(rt: &impl Abort, alloc: Global, turns: &[Turn], read: Read) -> Result<(), Fail> {
    let (bytes, at, wanted) = read;
    let mut disk = DiskOver::new(staged(alloc, bytes, turns)?);
    let mut buffer = [0; 1500];
    let count = wanted.len().min(1500);
    assert_equal!(rt; failures(get(&mut disk, at, &mut buffer[..count])), 0);
    assert_equal!(rt; &buffer[..count], wanted);
    Ok(())
}

// The last plan moves 1,500 bytes: 1,000 calls are interrupted, 1,000 move a byte each, and one moves the rest.
#[test]
fn short_and_interrupted_calls_are_gone_on_with(rt: HostRuntime) -> Result<(), Fail> {
    for turns in SHORT {
        let written: Written = (b"abc", 2, b"uvwxyz", b"abuvwxyz");
        writes(&rt, rt.alloc(), turns, written)?;
        reads(&rt, rt.alloc(), turns, (b"abuvwxyz", 1, b"buvwxy"))?;
    }
    let mut turns = [Turn::Interrupted; 2000];
    turns[1000..].fill(Turn::Part(1));
    let mut bytes = [b'x'; 1500];
    bytes[999] = b'y';
    bytes[1000] = b'z';
    bytes[1499] = b'e';
    writes(&rt, rt.alloc(), &turns, (b"", 0, &bytes, &bytes))?;
    reads(&rt, rt.alloc(), &turns, (&bytes, 0, &bytes))
}

static ERRORS: &'static [Turn] = &[
    Turn::Part(2),
    Turn::Failed,
    Turn::Part(0),
    Turn::Part(0),
    Turn::Failed,
    Turn::Failed,
];

static COUNTED: &'static [Counted] = &[
    // Two of the bytes are there, and the length is the file's.
    (Step::Put(3, b"defg"), 1, 5),
    // A call that moves none is an error, too.
    (Step::Put(5, b"x"), 2, 5),
    (Step::Get(0), 3, 5),
    (Step::Cut(1), 4, 5),
    (Step::Sync, 5, 5),
    // What was written is written again, and then made sure.
    (Step::Sync, 0, 5),
    (Step::Cut(1), 0, 1),
    (Step::Sync, 0, 1),
];

#[test]
fn each_error_is_counted(rt: HostRuntime) -> Result<(), Fail> {
    let mut disk = DiskOver::new(staged(rt.alloc(), b"abc", ERRORS)?);
    counts(&rt, &mut disk, COUNTED);
    let below = disk.file().disk();
    assert_equal!(rt; (below.bytes(), below.syncs()), (b"a".as_slice(), 2));
    Ok(())
}

static UNMEASURED: &'static [(Step, u64)] = &[
    (Step::Get(0), 1),
    (Step::Put(0, b"xyz"), 3),
    (Step::Cut(0), 0),
    (Step::Sync, 1),
];

// The first call is refused, and asks the file for no bytes.
#[test]
fn a_length_that_is_not_reported(rt: HostRuntime) -> Result<(), Fail> {
    for &(step, len) in UNMEASURED {
        let mut file = counting(rt.alloc(), b"a", &[])?;
        file.hides = true;
        let mut disk = DiskOver::new(file);
        counts(&rt, &mut disk, &[(step, 1, 0), (step, 0, len)]);
    }
    Ok(())
}

static TURNS: &'static [(Turn, Result<usize, Stop>)] = &[
    (Turn::Whole, Ok(4)),
    (Turn::Part(9), Ok(4)),
    (Turn::Part(1), Ok(1)),
    (Turn::Part(0), Ok(0)),
    (Turn::Interrupted, Err(Stop::Interrupted)),
    (Turn::Failed, Err(Stop::Failed)),
];

// Each turn does what its comment says: a test over a file that ignores turns would see nothing.
#[test]
fn what_a_turn_moves(rt: HostRuntime) -> Result<(), Fail> {
    for &(turn, moved) in TURNS {
        let mut file = staged(rt.alloc(), b"abcd", &[turn, turn])?;
        assert_equal!(rt; file.read_some(0, &mut [0; 4]), moved);
        assert_equal!(rt; file.write_some(0, b"wxyz"), moved);
    }
    Ok(())
}
