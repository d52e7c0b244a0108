//! Frames behind the end of a side.
use crate::samples::{Image, SIDE, STORE, disk_of};
use gate_journal::frames_behind;
use std::alloc::Global;
use std::process::Abort;
use std::test::Fail;
use tape_disk::{MemDisk, OnceDisk};
use test_assertions::assert_equal;
use vtl_base::{DevFault, NoMemory};

// The store of drive 1, whose end gate is at 27.
const OF_DRIVE_1: Image = (STORE, 28, 0, 0xa5);

// A side, what stands behind it, and the end gate behind which frames are found. The gates of the side of two
// frames are at 35, 55 and 70.
type Row = (Image, &'static [u8], Option<u64>);

static BEHIND: &'static [Row] = &[
    // the end gate as it is: nothing stands behind it
    ((SIDE, 71, 70, 0x00), b"", None),
    // the first gate is closed: the second frame's gate is open
    ((SIDE, 71, 35, 0x00), b"", Some(35)),
    // the second one is closed: behind its frame stands the closed end gate, as a stop leaves it
    ((SIDE, 71, 55, 0x00), b"", None),
    // no side, and a damaged one
    ((SIDE, 71, 0, 0x00), b"", None),
    ((SIDE, 71, 70, 0xa5), b"", None),
    (OF_DRIVE_1, b"\0\0\0\x01b\xa5", Some(27)),
    (OF_DRIVE_1, b"\0\0\0\x01b\xa4", None),
    (OF_DRIVE_1, b"\0\0\0\x01b", None),
    (OF_DRIVE_1, b"\0\0\0\x02b\xa5", None),
    (OF_DRIVE_1, b"\0\0\0\0\xa5\xa5", None),
    (OF_DRIVE_1, b"\0\x80\0\x01b\xa5", None),
    (OF_DRIVE_1, b"\0\0\0\x02bc\xa5", Some(27)),
];

// They are found there, and no byte is changed.
fn are_found(rt: &impl Abort, alloc: Global, row: Row) -> Result<(), NoMemory> {
    let (image, behind, end) = row;
    let mut bytes = Vec::from_slice(alloc, disk_of(alloc, image)?.bytes())?;
    bytes.extend_from_slice(behind)?;
    let mut disk = MemDisk::from_bytes(alloc, &bytes)?;
    assert_equal!(rt; frames_behind(&mut disk), Ok(end));
    assert_equal!(rt; disk.bytes(), bytes.as_slice());
    Ok(())
}

#[test]
fn frames_are_found_behind_the_end(rt: HostRuntime) -> Result<(), Fail> {
    for &row in BEHIND {
        are_found(&rt, rt.alloc(), row)?;
    }
    Ok(())
}

// Two reads of the front, one of the end gate, one of the length behind it and one of the gate behind that frame.
#[test]
fn a_fault_of_each_read_is_returned(rt: HostRuntime) -> Result<(), Fail> {
    for calls in 0..6 {
        let disk = disk_of(rt.alloc(), (SIDE, 71, 35, 0x00))?;
        let found = frames_behind(&mut OnceDisk::new(disk, calls));
        let expected = match calls {
            0..=4 => Err(DevFault { failures: 1 }),
            _ => Ok(Some(35)),
        };
        assert_equal!(&rt; found, expected; calls);
    }
    Ok(())
}
