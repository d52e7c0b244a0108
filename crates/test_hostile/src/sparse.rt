//! A disk that stores written bytes, and has zeros elsewhere.
use tape_disk::{Disk, SparseDisk};
use test_assertions::assert_equal;
use vtl_base::DevFault;

const FAR: u64 = 1_099_511_627_776;

// A place and what is written there, or a cut; the length then; a place and the bytes that are read there.
type Step = (u64, &'static [u8], u64, u64, [u8; 4]);

static STEPS: &'static [Step] = &[
    (0, b"abcdef", 6, 1, *b"bcde"),
    (5, b"Z12", 8, 4, *b"eZ12"),
    (FAR, b"\xa5\x01", FAR + 2, FAR - 2, *b"\0\0\xa5\x01"),
    (FAR, b"\0", FAR + 2, FAR - 2, *b"\0\0\0\x01"),
    (FAR + 9, b"", FAR + 2, 6, *b"12\0\0"),
    (3, b"", 3, 0, [9; 4]),
    (6, b"q", 7, 2, *b"c\0\0\0"),
    (u64::MAX - 1, b"ab", 7, 3, *b"\0\0\0q"),
];

#[test]
fn what_was_written_is_kept_and_zeros_stand_elsewhere(rt: HostRuntime) {
    let mut disk = SparseDisk::new(rt.alloc());
    for &(at, bytes, len, place, wanted) in STEPS {
        let done = match bytes.len() {
            0 => disk.cut(at).is_ok(),
            _ => disk.write_at(at, bytes).is_ok(),
        };
        assert_equal!(rt; (done, disk.len()), (at < u64::MAX - 1, len); at);
        let mut found = [9; 4];
        let read = disk.read_at(place, &mut found).is_ok();
        assert_equal!(rt; (read, found), (place.saturating_add(4) <= len, wanted); at);
    }
    assert_equal!(rt; disk.sync(), Ok(()));
    assert_equal!(rt; disk.read_at(u64::MAX - 3, &mut [9; 4]), Err(DevFault { failures: 3 }));
    assert_equal!(rt; (disk.byte_at(3), disk.byte_at(FAR)), (0, 0));
}
