//! When a disk is asked for frames behind the end of its side, and the line for them.
use file_disk::FailedCall;
use std::cell::Cell;
use std::process::Abort;
use std::test::Fail;
use tape_disk::{Disk, MemDisk, OnceDisk};
use test_assertions::assert_equal;
use vtl_base::DevFault;
use vtl_notes::at_once::{AtOnce, behind_text};
use vtl_notes::noted_disk::{NotedDisk, SaysMore};
use vtl_notes::open_files::OpenFiles;

// A disk that counts how often it is asked for frames behind the end of its side. It has none.
#[derive(Drop)]
struct AskedDisk<D> {
    disk: D,
    asked: Cell<u64>,
}

impl<D: Disk> Disk for AskedDisk<D> {
    ghost state = { λ asked. D.state asked.disk };

    ghost effect = { λ call result old new. D.effect call result old.disk new.disk };

    ghost is_disk = { λ asked honest. D.is_disk asked.disk honest };

    fn len(&self) -> u64 {
        self.disk.len()
    }

    fn read_at(&mut self, at: u64, buffer: &mut [u8]) -> Result<(), DevFault> {
        self.disk.read_at(at, buffer)
    }

    fn write_at(&mut self, at: u64, bytes: &[u8]) -> Result<(), DevFault> {
        self.disk.write_at(at, bytes)
    }

    fn cut(&mut self, len: u64) -> Result<(), DevFault> {
        self.disk.cut(len)
    }

    fn sync(&mut self) -> Result<(), DevFault> {
        self.disk.sync()
    }
}

impl<D> SaysMore for AskedDisk<D> {
    fn failed(&self) -> Option<FailedCall> {
        None
    }

    fn frames_behind(&self) -> Option<u64> {
        self.asked.set(self.asked.get().saturating_add(1));
        None
    }
}

#[derive(Clone, Copy, Debug)]
enum Call {
    Read,
    Write,
    Cut,
    Sync,
}

// Makes the call on a disk of four bytes.
fn made<D: Disk>(disk: &mut D, call: Call) -> bool {
    let end = disk.len();
    let mut buffer = [0; 4];
    let count = buffer.len().min(end as usize);
    match call {
        Call::Read => disk.read_at(0, &mut buffer[..count]),
        Call::Write => disk.write_at(end.min(4), b"x"),
        Call::Cut => disk.cut(end.min(4)),
        Call::Sync => disk.sync(),
    }
    .is_ok()
}

// The calls of two openings, with an append over a tail between them, and how often the disk was asked then. An opening
// may sync twice.
static CALLS: &'static [(Call, u64)] = &[
    (Call::Sync, 1),
    (Call::Read, 1),
    (Call::Sync, 2),
    (Call::Read, 2),
    (Call::Cut, 2),
    (Call::Write, 2),
    (Call::Sync, 2),
    (Call::Write, 2),
    (Call::Sync, 2),
    (Call::Sync, 3),
    (Call::Read, 3),
];

// The same where one of the calls of the append fails, by its place: the cartridge is opened again.
static FAILED: &'static [(u64, &'static [(Call, u64)])] = &[
    (1, &[(Call::Sync, 1), (Call::Cut, 1), (Call::Sync, 2)]),
    (1, &[(Call::Sync, 1), (Call::Write, 1), (Call::Sync, 2)]),
    (
        2,
        &[
            (Call::Sync, 1),
            (Call::Write, 1),
            (Call::Sync, 1),
            (Call::Sync, 2),
        ],
    ),
];

// Makes these calls, of which that of this number fails.
fn are_asked(
    rt: &HostRuntime,
    abort: &impl Abort,
    is_on: bool,
    fails: u64,
    calls: &[(Call, u64)],
) -> Result<(), Fail> {
    let alloc = rt.alloc();
    let files = OpenFiles::new(alloc, true);
    let below = OnceDisk::new(MemDisk::from_bytes(alloc, b"abcd")?, fails);
    let disk = AskedDisk {
        disk: below,
        asked: Cell::new(0),
    };
    let lines = AtOnce::new(rt, is_on).of_file("a");
    let mut disk = NotedDisk::new(disk, 0, &files, lines);
    let mut number: u64 = 0;
    for &(call, asked) in calls {
        assert_equal!(abort; made(&mut disk, call), number != fails; (fails, number));
        let wanted = if is_on { asked } else { 0 };
        assert_equal!(abort; disk.disk.asked.get(), wanted; (fails, number));
        number = number.saturating_add(1);
    }
    Ok(())
}

#[test]
fn frames_behind_are_looked_for_as_a_side_is_opened(rt: HostRuntime) -> Result<(), Fail> {
    for is_on in [true, false] {
        are_asked(&rt, &rt, is_on, u64::MAX, CALLS)?;
        for &(fails, calls) in FAILED {
            are_asked(&rt, &rt, is_on, fails, calls)?;
        }
    }
    Ok(())
}

#[test]
fn frames_behind_have_their_line(rt: HostRuntime) -> Result<(), Fail> {
    let wanted = "found: frames behind the end at 35, in the file t1.tape";
    let text = behind_text(rt.alloc(), "t1.tape", 35)?;
    assert_equal!(rt; text.as_str(), wanted);
    Ok(())
}
