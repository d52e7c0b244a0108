//! A body that is read in pieces, however it is cut, compared with the whole of it.
ghost use Rattle.std.specs.Prelude.{◌≤◌, IfOk, length};

use crate::records::decoded;
use change_records::{Fed, Found, Record, RecordError, RecordReader};
use std::alloc::Global;
use std::test::Fail;
use test_assertions::{assert_equal, assert_holds};

// A block of five bytes, three marks, a block of two bytes and an erase: 15, 10, 12 and 10 bytes.
static BODY: &'static [u8; 47] = b"\x01\0\0\0\0\0\0\0\0\x05hello\
    \x02\0\0\0\0\x01\0\0\0\x03\
    \x01\0\0\0\0\x04\0\0\0\x02ab\
    \x03\0\0\0\0\x01\0\0\0\0";

// Up to how many of its bytes are read, the records that are whole in them, and the place of one that is not.
static ENDS: &'static [(usize, usize, Option<usize>)] = &[
    (0, 0, None),
    (14, 0, Some(0)),
    (15, 1, None),
    (24, 1, Some(15)),
    (25, 2, None),
    (36, 2, Some(25)),
    (37, 3, None),
    (46, 3, Some(37)),
    (47, 4, None),
];

// The first records of it.
fn records(alloc: Global, how_many: usize) -> Result<Vec<Found>, Fail> {
    let (part, at, length) = (0, 0, 5);
    let first = Record::Put { part, at, length };
    let (at, count) = (1, 3);
    let marks = Record::Marks { part, at, count };
    let (at, length) = (4, 2);
    let second = Record::Put { part, at, length };
    let erase = Record::Erase { part, at: 1 };
    let all = [(first, 0), (marks, 15), (second, 25), (erase, 37)];
    let mut found = Vec::new(alloc);
    for &(item, at) in &all[..all.len().min(how_many)] {
        found.push(Found { item, at })?;
    }
    Ok(found)
}

// The records that are found in a body, and the place of its first bad record, if it has one.
#[derive(Drop, Debug, PartialEq)]
struct Answer {
    found: Vec<Found>,
    bad: Option<usize>,
}

// The reader passes over bytes of a block at the start of a piece. Returns how many.
fn passed(reader: &mut RecordReader, piece: &[u8], answer: &mut Answer) -> Result<usize, Fail>
    ensures { IfOk result (λ count. count ≤ length piece.now) }
{
    let count = reader.unseen().min(piece.len());
    if count == 0 || reader.at() > 1_000 {
        return Ok(0);
    }
    if let Some(found) = reader.pass(count) {
        answer.found.push(found)?;
    }
    Ok(count)
}

// Gives a piece of a short body to the reader, which passes over the bytes of a block or not. False: the body
// is bad.
fn fed(
    reader: &mut RecordReader,
    piece: &[u8],
    passes: bool,
    answer: &mut Answer,
) -> Result<bool, Fail> {
    let mut from = 0usize;
    for _ in 0..100u8 {
        if from >= piece.len() || reader.at() > 1_000 {
            break;
        }
        let rest = &piece[from..];
        if passes && reader.unseen() > 0 {
            from += passed(reader, rest, answer)?;
            continue;
        }
        match reader.feed(rest) {
            Fed::Found { item, at, taken } => {
                answer.found.push(Found { item, at })?;
                from += taken;
            }
            Fed::More => return Ok(true),
            Fed::Bad { at } => {
                answer.bad = Some(at);
                return Ok(false);
            }
        }
    }
    Ok(true)
}

// What a reader finds in bytes that are cut at these places.
fn read_in_pieces(
    alloc: Global,
    bytes: &[u8],
    cuts: &[usize],
    passes: bool,
) -> Result<Answer, Fail> {
    let mut reader = RecordReader::new();
    let mut answer = Answer {
        found: Vec::new(alloc),
        bad: None,
    };
    let mut from = 0;
    for cut in cuts {
        if from <= *cut && *cut <= bytes.len() {
            if !fed(&mut reader, &bytes[from..*cut], passes, &mut answer)? {
                return Ok(answer);
            }
            from = *cut;
        }
    }
    let last = &bytes[from.min(bytes.len())..];
    if fed(&mut reader, last, passes, &mut answer)? {
        answer.bad = match reader.end() {
            Err(RecordError::BadRecord { at }) => Some(at),
            _ => None,
        };
    }
    Ok(answer)
}

// What the first bytes of the body have.
fn wanted(alloc: Global, end: usize) -> Result<Answer, Fail> {
    for &(last, count, bad) in ENDS {
        if end <= last {
            let found = records(alloc, count)?;
            return Ok(Answer { found, bad });
        }
    }
    Err(Fail::from("a longer body"))
}

// Three pieces of each body that begins the four records, cut at each two of its bytes, whether bytes of blocks are
// passed over or not.
#[test]
fn every_cutting_in_three(rt: HostRuntime) -> Result<(), Fail> {
    let alloc = rt.alloc();
    for end in 0..=47usize {
        let wanted = wanted(alloc, end)?;
        let whole = match wanted.bad {
            Some(at) => Err(at),
            None => Ok(wanted.found.len()),
        };
        assert_equal!(rt; decoded(alloc, &BODY[..end])?, whole; end);
        for first in 0..=end {
            for second in first..=end {
                for passes in [false, true] {
                    let found = read_in_pieces(alloc, &BODY[..end], &[first, second], passes)?;
                    assert_holds!(rt; found == wanted; (end, first, second, passes));
                }
            }
        }
    }
    Ok(())
}
