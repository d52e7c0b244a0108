//! Files that note which of their calls failed: the lines that explain it, of which file.
use explanations::Explanation;
use file_disk::{DiskOver, FailedCall, FileDisk, SystemCall, SystemFile};
use std::alloc::{AllocError, Global};
use std::fs::File;
use std::io::ErrorKind;
use std::test::Fail;
use tape_disk::{Disk, MemDisk, OnceDisk};
use test_assertions::assert_equal;
use vtl_base::DevFault;
use vtl_notes::at_once::failed_text;
use vtl_notes::noted_disk::{NotedDisk, SaysMore};
use vtl_notes::notes::Notes;
use vtl_notes::open_files::OpenFiles;

// A disk that says of each call that it failed so.
#[derive(Drop)]
struct ReportingDisk<D> {
    disk: D,
    failed: Option<FailedCall>,
}

impl<D: Disk> Disk for ReportingDisk<D> {
    ghost state = { λ told. D.state told.disk };

    ghost effect = { λ call result old new. D.effect call result old.disk new.disk };

    ghost is_disk = { λ told honest. D.is_disk told.disk honest };

    fn len(&self) -> u64 {
        self.disk.len()
    }

    fn read_at(&mut self, at: u64, buffer: &mut [u8]) -> Result<(), DevFault> {
        self.disk.read_at(at, buffer)
    }

    fn write_at(&mut self, at: u64, bytes: &[u8]) -> Result<(), DevFault> {
        self.disk.write_at(at, bytes)
    }

    fn cut(&mut self, len: u64) -> Result<(), DevFault> {
        self.disk.cut(len)
    }

    fn sync(&mut self) -> Result<(), DevFault> {
        self.disk.sync()
    }
}

impl<D> SaysMore for ReportingDisk<D> {
    fn failed(&self) -> Option<FailedCall> {
        self.failed
    }

    fn frames_behind(&self) -> Option<u64> {
        None
    }
}

const SYNC: FailedCall = FailedCall {
    call: SystemCall::Sync,
    kind: ErrorKind::Uncategorized,
    number: Some(5),
};

const FULL: FailedCall = FailedCall {
    call: SystemCall::WriteAt,
    kind: ErrorKind::StorageFull,
    number: Some(28),
};

// A disk of four bytes whose call after this many fails, so.
fn failing(
    alloc: Global,
    calls: u64,
    failed: Option<FailedCall>,
) -> Result<ReportingDisk<OnceDisk<MemDisk>>, Fail> {
    let disk = OnceDisk::new(MemDisk::from_bytes(alloc, b"abcd")?, calls);
    Ok(ReportingDisk { disk, failed })
}

// Each call of the disk of this file once: which of them succeed.
fn used<D: Disk + Drop + SaysMore>(files: &OpenFiles, number: u64, disk: D) -> [bool; 4] {
    let mut disk = NotedDisk::new(disk, number, files, None);
    [
        disk.read_at(0, &mut []).is_ok(),
        disk.cut(0).is_ok(),
        disk.write_at(0, b"x").is_ok(),
        disk.sync().is_ok(),
    ]
}

// The lines of the calls that failed.
fn lines_of(alloc: Global, files: &OpenFiles) -> Result<Explanation, AllocError> {
    let mut lines = Explanation::new(alloc);
    let _ = files.add_failed(alloc, &mut lines)?;
    Ok(lines)
}

// The call that fails, counted from 0, and which succeed.
static CALLS: &'static [(u64, [bool; 4])] = &[
    (0, [false, true, true, true]),
    (1, [true, false, true, true]),
    (2, [true, true, false, true]),
    (3, [true, true, true, false]),
    (4, [true, true, true, true]),
];

const SYNC_OF_B: &str = "failed: sync, of the file b\nanswer: Input/output error (os error 5)\n\
    to do: look at the device, and at what the system has logged of it\n";

// Whatever call of a disk fails, it is noted as the disk says, with the name of its file.
#[test]
fn each_call_that_fails_is_noted(rt: HostRuntime) -> Result<(), Fail> {
    let alloc = rt.alloc();
    for &(bad, done) in CALLS {
        let files = OpenFiles::new(alloc, true);
        let (first, second) = (files.enter(alloc, "a"), files.enter(alloc, "b"));
        assert_equal!(rt; (first, second), (1, 2); bad);
        assert_equal!(rt; used(&files, second, failing(alloc, bad, Some(SYNC))?), done; bad);
        let wanted = if bad < 4 { SYNC_OF_B } else { "" };
        assert_equal!(rt; lines_of(alloc, &files)?.as_str(), wanted; bad);
        assert_equal!(rt; files.has_failed(), bad < 4; bad);
    }
    Ok(())
}

// Two files, of each the first call that failed; the number 0 is of a file that is left out.
#[test]
fn each_file_has_its_first_failure(rt: HostRuntime) -> Result<(), Fail> {
    let alloc = rt.alloc();
    let files = OpenFiles::new(alloc, true);
    let (first, second) = (files.enter(alloc, "a"), files.enter(alloc, "b"));
    let _ = used(&files, 0, failing(alloc, 0, Some(SYNC))?);
    assert_equal!(rt; (files.has_failed(), lines_of(alloc, &files)?.as_str()), (true, ""));
    assert_equal!(rt; (files.has_failed_for(0), files.has_failed_for(second)), (true, false));
    let _ = used(&files, second, failing(alloc, 3, Some(SYNC))?);
    assert_equal!(rt; (files.has_failed_for(first), files.has_failed_for(second)), (false, true));
    let _ = used(&files, second, failing(alloc, 2, Some(FULL))?);
    let _ = used(&files, first, failing(alloc, 1, None)?);
    let wanted = format!(in alloc;
        "failed: look at, of the file a\nanswer: the system reported an error\n\
        to do: look at the device, and at what the system has logged of it\n{SYNC_OF_B}"
    )?;
    assert_equal!(rt; lines_of(alloc, &files)?.as_str(), wanted.as_str());
    Ok(())
}

// A file of reservations is refused for what is in it, though a call for another file failed before; not where one for
// this file did.
#[test]
fn a_refused_store_is_reported_by_its_own_calls(rt: HostRuntime) -> Result<(), Fail> {
    let alloc = rt.alloc();
    for (failed, is_reported) in [("a", true), ("b", false)] {
        let notes = Notes::new(alloc, true);
        let (first, second) = (
            notes.files().enter(alloc, "a"),
            notes.files().enter(alloc, "b"),
        );
        let bad = if failed == "a" { first } else { second };
        let _ = used(notes.files(), bad, failing(alloc, 3, Some(SYNC))?);
        notes.note_returned(alloc, "b", second);
        let mut lines = Explanation::new(alloc);
        assert_equal!(rt; notes.add_store(alloc, &mut lines)?, is_reported; failed);
        let begin = "refused: what is in the file b\n";
        assert_equal!(rt; lines.as_str().starts_with(begin), is_reported; failed);
    }
    Ok(())
}

// The file that is named where memory ran out.
fn last_of(alloc: Global, files: &OpenFiles) -> Result<Explanation, AllocError> {
    let mut lines = Explanation::new(alloc);
    files.add_last(alloc, &mut lines)?;
    Ok(lines)
}

const MORE: &str =
    "to do: give the program more memory; a loaded cartridge takes 24 bytes for each block\n";

// Memory ran out at the file that was opened or read last.
#[test]
fn memory_ran_out_at_the_file_that_was_used_last(rt: HostRuntime) -> Result<(), Fail> {
    let alloc = rt.alloc();
    let files = OpenFiles::new(alloc, true);
    assert_equal!(rt; last_of(alloc, &files)?.as_str(), "");
    let first = files.enter(alloc, "a");
    let _ = files.enter(alloc, "b");
    let opened = format!(in alloc; "memory ran out: as it was opened or read, the file b\n{MORE}")?;
    assert_equal!(rt; last_of(alloc, &files)?.as_str(), opened.as_str());
    let _ = used(&files, first, failing(alloc, 4, None)?);
    let read = format!(in alloc; "memory ran out: as it was opened or read, the file a\n{MORE}")?;
    assert_equal!(rt; last_of(alloc, &files)?.as_str(), read.as_str());
    Ok(())
}

// A disk over a device.
fn opened(rt: &HostRuntime) -> Result<FileDisk, Fail> {
    let file = File::open(rt, "/dev/null")?;
    Ok(DiskOver::new(SystemFile::over(file)))
}

// A file of the system says itself what it was answered: a device is not synced, EINVAL of Linux.
#[test]
fn a_file_of_the_system_says_what_it_was_answered(rt: HostRuntime) -> Result<(), Fail> {
    let alloc = rt.alloc();
    let files = OpenFiles::new(alloc, true);
    let number = files.enter(alloc, "a");
    let mut disk = NotedDisk::new(opened(&rt)?, number, &files, None);
    assert_equal!(rt; (disk.sync().is_ok(), disk.len()), (false, 0));
    let wanted = "failed: sync, of the file a\nanswer: Invalid argument (os error 22)\n\
        to do: look at the device, and at what the system has logged of it\n";
    assert_equal!(rt; lines_of(alloc, &files)?.as_str(), wanted);
    Ok(())
}

const ENDED: FailedCall = FailedCall {
    call: SystemCall::ReadAt,
    kind: ErrorKind::UnexpectedEof,
    number: None,
};

const HAS_ENDED: &str = "read at 0 (the file has ended before all bytes were read)";

// A call that failed, the byte that it was for, and what its line says of it.
static SAID: &'static [(FailedCall, Option<u64>, &'static str)] = &[
    (FULL, Some(4096), "write at 4096 (the file system is full)"),
    (ENDED, Some(0), HAS_ENDED),
    (SYNC, None, "sync (Input/output error (os error 5))"),
    // A sync that writes bytes again knows no byte of the caller.
    (FULL, None, "write at (the file system is full)"),
];

#[test]
fn a_call_that_failed_is_said(rt: HostRuntime) -> Result<(), Fail> {
    for &(failed, at, wanted) in SAID {
        let text = failed_text(rt.alloc(), "t1.tape", failed, at)?;
        let line = format!(in rt.alloc(); "failed: {wanted}, of the file t1.tape")?;
        assert_equal!(rt; text.as_str(), line.as_str());
    }
    Ok(())
}
