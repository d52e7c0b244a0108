//! Frames behind the end of the side in an open file.
use crate::steps::{Step, act, named, new_folder};
use file_disk::{FileDisk, no_file, open};
use std::fs;
use std::process::Abort;
use std::test::Fail;
use test_assertions::assert_equal;

// A cartridge `T1` whose end gate stands at 35. Behind it stand a frame of a filemark, and the gate at 50.
const BEHIND: &'static [u8; 51] = b"\xa5VTLCART1\0\x01T1              \0\0\0\0\0\0\x10\0\
    \0\0\0\0\x0a\x02\0\0\0\0\0\0\0\0\x01\
    \xa5";

fn changed(disk: &mut FileDisk, step: Step) -> Result<Option<u64>, Fail> {
    act(disk, step)?;
    Ok(disk.file().frames_behind())
}

// Of a file that is open and locked; a disk beside it is not asked.
fn of_ends(abort: &impl Abort, rt: &HostRuntime, path: &str) -> Result<(), Fail> {
    fs::write(rt, path, BEHIND.as_slice())?;
    let mut disk = open(rt, path)?;
    assert_equal!(abort; disk.file().frames_behind(), Some(35));
    // A closed gate behind the frame is one that a stop leaves. Where the end gate is open the side is damaged.
    assert_equal!(abort; changed(&mut disk, Step::Put(50, &[0]))?, None);
    assert_equal!(abort; changed(&mut disk, Step::Put(50, &[0xa5]))?, Some(35));
    assert_equal!(abort; changed(&mut disk, Step::Put(35, &[0xa5]))?, None);
    assert_equal!(abort; changed(&mut disk, Step::Put(35, &[0]))?, Some(35));
    assert_equal!(abort; changed(&mut disk, Step::Cut(36))?, None);
    assert_equal!(abort; disk.file().failed().is_none(), true);
    drop(disk);
    Ok(())
}

#[test]
fn frames_behind_the_end_of_an_open_file(rt: HostRuntime) -> Result<(), Fail> {
    let folder = new_folder(&rt)?;
    let path = named(&rt, &folder, "side")?;
    of_ends(&rt, &rt, &path)?;
    assert_equal!(rt; no_file().file().frames_behind(), None);
    Ok(fs::remove_dir_all(&rt, &folder)?)
}
