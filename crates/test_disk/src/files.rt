//! Files of the system: what is read back, which name is no disk, which call failed, and what a look finds.
use crate::steps::{Counted, Step, act, counts, get, holds, named, new_folder, put};
use file_disk::{
    CallFailed, FailedCall, FileError, FileLook, RawFile, Stop, SystemCall, SystemFile, create,
    has_open_pair, look, no_file, open, open_to_read,
};
use std::fs::{self, File};
use std::io::ErrorKind;
use std::os::unix::fs::{MetadataExt, symlink};
use std::process::Abort;
use std::test::Fail;
use std::time::UNIX_EPOCH;
use test_assertions::{assert_equal, assert_holds};

// A call after an opening, and what the file holds then.
static READ_BACK: &'static [(Step, &'static [u8; 8])] = &[
    (Step::Sync, b"........"),
    (Step::Put(0, b"z"), b"z......."),
    (Step::Cut(0), b"........"),
    (Step::Put(0, b"abcdef"), b"abcdef.."),
    (Step::Put(4, b"XYZ"), b"abcdXYZ."),
    (Step::Cut(5), b"abcdX..."),
    (Step::Sync, b"abcdX..."),
    (Step::Put(5, b""), b"abcdX..."),
    (Step::Put(1, b"2"), b"a2cdX..."),
];

fn read_back(abort: &impl Abort, rt: &HostRuntime, path: &str) -> Result<(), Fail> {
    let made = create(rt, path)?;
    assert_equal!(abort; made.file().lacks_locks(), false);
    drop(made);
    for &(step, seen) in READ_BACK {
        let mut disk = open(rt, path)?;
        act(&mut disk, step)?;
        let mut buffer = [b'.'; 8];
        get(&mut disk, 0, &mut buffer)?;
        assert_equal!(abort; buffer, *seen);
    }
    // made for its owner alone
    assert_equal!(abort; fs::metadata(rt, path)?.mode() & 0o777, 0o600);
    holds(abort, rt, path, b"a2cdX")
}

// Of a file that is only read, and of none: the calls that would change it fail.
static ONLY_READ: &'static [Counted] = &[
    (Step::Sync, 0, 5),
    (Step::Put(0, b"x"), 1, 5),
    (Step::Cut(0), 2, 5),
    (Step::Get(0), 0, 5),
];

static OVER_NOTHING: &'static [Counted] = &[
    (Step::Read(0), 0, 0),
    (Step::Sync, 0, 0),
    (Step::Put(0, b"a"), 1, 0),
    (Step::Cut(0), 2, 0),
];

#[test]
fn a_file_is_read_back(rt: HostRuntime) -> Result<(), Fail> {
    let folder = new_folder(&rt)?;
    let path = named(&rt, &folder, "t1.tape")?;
    read_back(&rt, &rt, &path)?;
    counts(&rt, &mut open_to_read(&rt, &path)?, ONLY_READ);
    holds(&rt, &rt, &path, b"a2cdX")?;
    counts(&rt, &mut no_file(), OVER_NOTHING);
    Ok(fs::remove_dir_all(&rt, &folder)?)
}

// Sets the time of a file's last change to the beginning of 1970.
fn forget_time(rt: &HostRuntime, path: &str) -> Result<(), Fail> {
    File::open(rt, path)?.set_modified(UNIX_EPOCH)?;
    Ok(())
}

// Whether a file was changed since then.
fn is_written(rt: &HostRuntime, path: &str) -> Result<bool, Fail> {
    Ok(fs::metadata(rt, path)?.mtime() != 0)
}

// A store without frames. An opening writes nothing, and the first sync the one byte that may be in doubt.
fn written_again(abort: &impl Abort, rt: &HostRuntime, path: &str) -> Result<(), Fail> {
    let side = b"\xa5VTLRESV1\0\0DRIVE1          \0".as_slice();
    fs::write(rt, path, side)?;
    forget_time(rt, path)?;
    drop(open_to_read(rt, path)?);
    let mut disk = open(rt, path)?;
    assert_holds!(abort; !is_written(rt, path)?);
    act(&mut disk, Step::Sync)?;
    assert_holds!(abort; is_written(rt, path)?);
    drop(disk);
    holds(abort, rt, path, side)
}

#[test]
fn a_gate_is_written_again(rt: HostRuntime) -> Result<(), Fail> {
    let folder = new_folder(&rt)?;
    written_again(&rt, &rt, &named(&rt, &folder, "t1.tape")?)?;
    Ok(fs::remove_dir_all(&rt, &folder)?)
}

const EXISTS: Option<FileError> = Some(FileError::Exists);

const IN_USE: Option<FileError> = Some(FileError::InUse);

const MISSING: Option<FileError> = Some(FileError::Missing);

const NOT_A_FILE: Option<FileError> = Some(FileError::NotAFile);

// The results of making a file with this name, opening it, and opening it for reading.
fn are_answered(
    abort: &impl Abort,
    rt: &HostRuntime,
    path: &str,
    made: Option<FileError>,
    opened: Option<FileError>,
) {
    assert_equal!(abort; create(rt, path).err(), made; path);
    assert_equal!(abort; open(rt, path).err(), opened; path);
    assert_equal!(abort; open_to_read(rt, path).err(), opened; path);
}

// A file that is there, a folder, and a name in a folder that is missing. No test can make a pipe or a device.
fn refused(abort: &impl Abort, rt: &HostRuntime, folder: &str) -> Result<(), Fail> {
    let path = &named(rt, folder, "t1.tape")?;
    assert_equal!(abort; open(rt, path).err(), MISSING);
    assert_equal!(abort; open_to_read(rt, path).err(), MISSING);
    assert_holds!(abort; !fs::exists(rt, path)?);
    fs::write(rt, path, b"kept".as_slice())?;
    are_answered(abort, rt, path, EXISTS, None);
    are_answered(abort, rt, folder, NOT_A_FILE, NOT_A_FILE);
    let nowhere = named(rt, folder, "missing/t1.tape")?;
    are_answered(abort, rt, &nowhere, MISSING, MISSING);
    holds(abort, rt, path, b"kept")
}

// A file is opened by one that changes it, or by several that read it. A refused opening writes nothing, and does not
// take over the lock of the first one.
fn opened_once(abort: &impl Abort, rt: &HostRuntime, path: &str) -> Result<(), Fail> {
    let mut disk = create(rt, path)?;
    put(&mut disk, 0, b"abc")?;
    forget_time(rt, path)?;
    are_answered(abort, rt, path, EXISTS, IN_USE);
    assert_holds!(abort; !is_written(rt, path)?);
    holds(abort, rt, path, b"abc")?;
    put(&mut disk, 3, b"d")?;
    are_answered(abort, rt, path, EXISTS, IN_USE);
    drop(disk);
    Ok(())
}

fn read_by_two(abort: &impl Abort, rt: &HostRuntime, path: &str) -> Result<(), Fail> {
    let disk = open_to_read(rt, path)?;
    let beside = open_to_read(rt, path)?;
    assert_equal!(abort; create(rt, path).err(), EXISTS);
    assert_equal!(abort; open(rt, path).err(), IN_USE);
    drop(disk);
    // The other reader has it open still.
    assert_equal!(abort; open(rt, path).err(), IN_USE);
    drop(beside);
    assert_equal!(abort; open(rt, path).err(), None);
    Ok(())
}

// A link to itself (ELOOP): the name is taken, and what has it can't be looked at.
fn of_a_loop(abort: &impl Abort, rt: &HostRuntime, path: &str) -> Result<(), Fail> {
    symlink(rt, path, path)?;
    let (call, kind, number) = (SystemCall::Look, ErrorKind::FilesystemLoop, Some(40));
    let looked = Some(FileError::Device(FailedCall { call, kind, number }));
    are_answered(abort, rt, path, looked, looked);
    Ok(())
}

#[test]
fn what_is_refused(rt: HostRuntime) -> Result<(), Fail> {
    let folder = new_folder(&rt)?;
    refused(&rt, &rt, &folder)?;
    let path = named(&rt, &folder, "t2.tape")?;
    opened_once(&rt, &rt, &path)?;
    read_by_two(&rt, &rt, &path)?;
    of_a_loop(&rt, &rt, &named(&rt, &folder, "loop")?)?;
    Ok(fs::remove_dir_all(&rt, &folder)?)
}

fn failed(call: SystemCall, kind: ErrorKind, number: Option<i32>) -> Option<FailedCall> {
    Some(FailedCall { call, kind, number })
}

// A folder is not written, cut or read (EBADF, EINVAL, EISDIR of Linux). A device with no bytes comes to its end at
// once, which is a failure where bytes are asked for.
#[test]
fn the_call_that_failed_last(rt: HostRuntime) -> Result<(), Fail> {
    let folder = new_folder(&rt)?;
    let mut file = SystemFile::over(File::open(&rt, &folder)?);
    assert_equal!(rt; file.write_some(0, b"x"), Err(Stop::Failed));
    let written = failed(SystemCall::WriteAt, ErrorKind::Uncategorized, Some(9));
    assert_equal!(rt; file.failed(), written);
    assert_equal!(rt; file.cut(0), Err(CallFailed));
    let cut = failed(SystemCall::Cut, ErrorKind::InvalidInput, Some(22));
    assert_equal!(rt; file.failed(), cut);
    assert_equal!(rt; (file.sync(), file.failed()), (Ok(()), cut));
    assert_equal!(rt; file.read_some(0, &mut [0; 4]), Err(Stop::Failed));
    let read = failed(SystemCall::ReadAt, ErrorKind::IsADirectory, Some(21));
    assert_equal!(rt; file.failed(), read);
    fs::remove_dir_all(&rt, &folder)?;
    let mut file = SystemFile::over(File::open(&rt, "/dev/null")?);
    assert_equal!(rt; (file.read_some(0, &mut []), file.failed()), (Ok(0), None));
    let ended = failed(SystemCall::ReadAt, ErrorKind::UnexpectedEof, None);
    assert_equal!(rt; (file.read_some(0, &mut [0]), file.failed()), (Ok(0), ended));
    assert_equal!(rt; file.sync(), Err(CallFailed));
    let synced = failed(SystemCall::Sync, ErrorKind::InvalidInput, Some(22));
    assert_equal!(rt; file.failed(), synced);
    Ok(())
}

// What a look at a regular file finds.
fn file(bytes: u64, is_link: bool) -> Result<FileLook, FileError> {
    Ok(FileLook { bytes, is_link })
}

fn of_names(abort: &impl Abort, rt: &HostRuntime, folder: &str) -> Result<(), Fail> {
    let path = &named(rt, folder, "t1.tape")?;
    assert_equal!(abort; look(rt, path), Err(FileError::Missing));
    assert_equal!(abort; look(rt, folder), Err(FileError::NotAFile));
    fs::write(rt, path, b"elf".as_slice())?;
    assert_equal!(abort; look(rt, path), file(3, false));
    let link = named(rt, folder, "link")?;
    symlink(rt, path, &link)?;
    assert_equal!(abort; look(rt, &link), file(3, true));
    fs::remove_file(rt, path)?;
    // It leads nowhere.
    assert_equal!(abort; look(rt, &link), Err(FileError::NotAFile));
    Ok(())
}

// The bytes of a file, and whether they have an open gate of a pair.
static PAIRS: &'static [(&'static [u8], bool)] = &[
    (b"", false),
    (b"\xa5\xa5\xa5\xa5\xa5\xa5\xa5\xa5\xa5", false),
    (b"\0VTLCART1\xa5", true),
    (b"\0VTLCART1\xa4\xa5", false),
    (b"\xa5VTLCART1\xa5\x01", true),
];

fn of_gates(abort: &impl Abort, rt: &HostRuntime, folder: &str) -> Result<(), Fail> {
    let path = &named(rt, folder, "t1.tape")?;
    assert_equal!(abort; has_open_pair(rt, path), Err(FileError::Missing));
    assert_equal!(abort; has_open_pair(rt, folder), Err(FileError::NotAFile));
    for &(bytes, is_open) in PAIRS {
        fs::write(rt, path, bytes)?;
        assert_equal!(abort; has_open_pair(rt, path), Ok(is_open));
    }
    Ok(())
}

#[test]
fn names_that_are_looked_at(rt: HostRuntime) -> Result<(), Fail> {
    let folder = new_folder(&rt)?;
    of_names(&rt, &rt, &folder)?;
    of_gates(&rt, &rt, &folder)?;
    Ok(fs::remove_dir_all(&rt, &folder)?)
}
