//! Records by their bytes.
use change_records::{Record, RecordError, decode_changes, encode_change};
use std::alloc::Global;
use std::test::Fail;
use test_assertions::assert_equal;
use volume_core::Change;
use vtl_base::Bytes;

/// How many changes the bytes decode to, or the place of the first bad record.
pub fn decoded(alloc: Global, bytes: &[u8]) -> Result<Result<usize, usize>, Fail> {
    match decode_changes(alloc, bytes) {
        Err(RecordError::BadRecord { at }) => Ok(Err(at)),
        changes => Ok(Ok(changes?.len())),
    }
}

// Bytes, and how many changes they decode to or the place of the first bad record.
static ROWS: &'static [(&'static [u8], Result<usize, usize>)] = &[
    // An erase.
    (b"\x03\xff\xff\xff\xff\xff\0\0\0\0", Ok(1)),
    // Another kind, at the start and after a record.
    (b"\x04\0\0\0\0\0\0\0\0\x05hello", Err(0)),
    (b"\x02\0\0\0\0\x01\0\0\0\x01\0\0\0\0\0\0\0\0\0\x01", Err(10)),
    // No byte, no mark, a number in an erase.
    (b"\x01\0\0\0\0\0\0\0\0\0", Err(0)),
    (b"\x02\0\0\0\0\0\0\0\0\0", Err(0)),
    (b"\x03\0\0\0\0\0\0\0\0\x01", Err(0)),
    // 16,000,000 marks, and one more.
    (b"\x02\0\0\0\0\0\0\xf4\x24\0", Ok(1)),
    (b"\x02\0\0\0\0\0\0\xf4\x24\x01", Err(0)),
    // A block that would be too long.
    (b"\x01\0\0\0\0\0\0\x10\0\x01hello", Err(0)),
];

#[test]
fn rows_of_bytes(rt: HostRuntime) -> Result<(), Fail> {
    let alloc = rt.alloc();
    for (bytes, wanted) in ROWS {
        assert_equal!(rt; decoded(alloc, bytes)?, *wanted; bytes);
    }
    Ok(())
}

// Three changes, byte for byte, and the record of the first one.
#[test]
fn spelled_changes(rt: HostRuntime) -> Result<(), Fail> {
    let alloc = rt.alloc();
    let (part, at, block) = (3, 16_909_060, Bytes::from_slice(alloc, b"hello")?);
    let (count, length) = (16_000_000, 5);
    let mut bytes = Vec::new(alloc);
    encode_change(&Change::Put { part, at, block }, &mut bytes)?;
    let record = Record::Put { part, at, length };
    assert_equal!(rt; (Record::read(&bytes), record.size()), (Some(record), 15));
    assert_equal!(rt; Record::read(&bytes[..bytes.len().min(14)]), None);
    let (part, at) = (0, 1);
    encode_change(&Change::Marks { part, at, count }, &mut bytes)?;
    let (part, at) = (1, 7);
    encode_change(&Change::Erase { part, at }, &mut bytes)?;
    let wanted =
        *b"\x01\x03\x01\x02\x03\x04\0\0\0\x05hello\x02\0\0\0\0\x01\0\xf4\x24\0\x03\x01\0\0\0\x07\0\0\0\0";
    assert_equal!(rt; bytes.as_slice(), wanted.as_slice());
    assert_equal!(rt; decoded(alloc, &bytes)?, Ok(3));
    Ok(())
}
