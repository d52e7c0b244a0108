//! A side of 1,099,511,627,776 bytes, up to its last byte.
use gate_journal::{Journal, JournalError};
use std::alloc::Global;
use std::process::Abort;
use std::test::Fail;
use tape_disk::{Disk, SparseDisk};
use test_assertions::assert_equal;
use vtl_base::limits::MAX_BODY;

// The header of a cartridge of one partition of 4,096 bytes.
const HEADER: &'static [u8; 35] = b"\xa5VTLCART1\0\x01T00001L6        \0\0\0\0\0\0\x10\0";

// The place of the closed gate after 131,071 frames of the longest body: 35 + 131,071 * 8,388,613.
const END: u64 = 1_099_503_894_558;

// The body that takes all the remaining bytes, except the gate and the length of its frame.
const LAST: usize = 7_733_212;

// The result for each body of this size, and the frames and the room after it.
static BODIES: &'static [(usize, Result<(), JournalError>, (usize, u64))] = &[
    (LAST + 1, Err(JournalError::SideFull), (131_071, 7_733_217)),
    (LAST, Ok(()), (131_072, 0)),
    (1, Err(JournalError::SideFull), (131_072, 0)),
];

// A body of zeros, except the first and the last byte, is added or refused.
fn fills(rt: &impl Abort, alloc: Global, journal: &mut Journal<SparseDisk>) -> Result<(), Fail> {
    for &(size, answer, left) in BODIES {
        let mut body = vec![in alloc; 0; size]?;
        if size > 0 && size <= MAX_BODY as usize {
            body[0] = 0x5a;
            body[size - 1] = 0x5a;
            assert_equal!(rt; journal.append(&body), answer; size);
        }
        assert_equal!(rt; (journal.frames(), journal.room()), left; size);
    }
    Ok(())
}

// Bytes of the full side: around the gate of its last frame, whose length is 0075ffdch, and its last ones.
static BYTES: &'static [(u64, &'static [u8])] = &[
    (END - 1, b"\0\xa5\0\x75\xff\xdc\x5a\0"),
    (1_099_511_627_773, b"\0\x5a\0"),
];

#[test]
fn a_side_is_full_at_its_last_byte(rt: HostRuntime) -> Result<(), Fail> {
    // Frames of zeros, of which only gates and lengths, 8,388,608, are written.
    let mut disk = SparseDisk::new(rt.alloc());
    disk.write_at(0, HEADER)?;
    for frame in 0..131_071u64 {
        disk.write_at(35 + 8_388_613 * frame, b"\xa5\0\x80\0\0")?;
    }
    disk.write_at(END, &[0])?;
    let Ok(mut journal) = Journal::open(rt.alloc(), disk) else {
        return Err(Fail::from("not opened"));
    };
    fills(&rt, rt.alloc(), &mut journal)?;
    assert_equal!(rt; journal.disk().len(), 1_099_511_627_776);
    for &(place, bytes) in BYTES {
        for (i, byte) in bytes.iter().enumerate() {
            assert_equal!(rt; journal.disk().byte_at(place.saturating_add(i as u64)), *byte; i);
        }
    }
    let Ok(journal) = Journal::open(rt.alloc(), journal.close()) else {
        return Err(Fail::from("not opened again"));
    };
    assert_equal!(rt; (journal.frames(), journal.room()), (131_072, 0));
    Ok(())
}
