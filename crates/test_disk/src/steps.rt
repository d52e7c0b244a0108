//! Calls of a disk at places up to its end, and folders for real files.
use std::hash::{BuildHasher, RandomState};
use std::process::Abort;
use std::test::Fail;
use std::{env, fs};
use tape_disk::Disk;
use test_assertions::assert_equal;
use vtl_base::DevFault;

/// A call of a disk.
#[derive(Clone, Copy)]
pub enum Step {
    /// It reads three bytes.
    Get(u64),
    /// It reads no bytes.
    Read(u64),
    Put(u64, &'static [u8]),
    Cut(u64),
    Sync,
}

/// A call, the failures that it reports, and the length after it.
pub type Counted = (Step, u64, u64);

pub fn put<D: Disk>(disk: &mut D, at: u64, bytes: &[u8]) -> Result<(), DevFault> {
    let end = disk.len();
    disk.write_at(end.min(at), bytes)
}

pub fn get<D: Disk>(disk: &mut D, at: u64, buffer: &mut [u8]) -> Result<(), DevFault> {
    let end = disk.len();
    let at = end.min(at);
    let count = buffer.len().min((end - at) as usize);
    disk.read_at(at, &mut buffer[..count])
}

/// The result of one call. A place after the end is the end.
pub fn act<D: Disk>(disk: &mut D, step: Step) -> Result<(), DevFault> {
    let end = disk.len();
    match step {
        Step::Get(at) => get(disk, at, &mut [0; 3]),
        Step::Read(at) => get(disk, at, &mut []),
        Step::Put(at, bytes) => put(disk, at, bytes),
        Step::Cut(len) => disk.cut(end.min(len)),
        Step::Sync => disk.sync(),
    }
}

/// How many failures a result reports: none at Ok.
pub fn failures(answer: Result<(), DevFault>) -> u64 {
    match answer {
        Ok(()) => 0,
        Err(fault) => fault.failures,
    }
}

/// The calls are made one after another, with the results of their rows.
pub fn counts<D: Disk>(rt: &impl Abort, disk: &mut D, rows: &[Counted]) {
    for &(step, failed, len) in rows {
        assert_equal!(rt; (failures(act(disk, step)), disk.len()), (failed, len));
    }
}

/// A folder of a test's own.
pub fn new_folder(rt: &HostRuntime) -> Result<String, Fail> {
    let key = RandomState::new(rt)?.hash_one(&0u8);
    let parent = env::temp_dir(rt)?;
    let name = format!(in rt.alloc(); "{}/vtl_files_{key:016x}", parent.as_str())?;
    fs::create_dir(rt, &name)?;
    Ok(name)
}

/// A file's name in a folder.
pub fn named(rt: &HostRuntime, folder: &str, name: &str) -> Result<String, Fail> {
    Ok(format!(in rt.alloc(); "{folder}/{name}")?)
}

/// The file holds these bytes.
pub fn holds(abort: &impl Abort, rt: &HostRuntime, path: &str, bytes: &[u8]) -> Result<(), Fail> {
    let found = fs::read(rt, path)?;
    assert_equal!(abort; found.as_slice(), bytes);
    Ok(())
}
