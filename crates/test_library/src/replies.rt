//! The answers to commands, byte by byte.
use scsi_sense::{Reply, Status};
use std::process::Abort;
use test_assertions::{assert_equal, assert_holds};

/// The expected answer: GOOD, or CHECK CONDITION with sense data, by bytes 0 and 2, INFORMATION, additional code and
/// qualifier; and its bytes.
pub type Answer = (Option<(u8, u8, u8, u8, u8)>, &'static [u8]);

pub const GOOD: Answer = (None, b"");

pub const POWERED_ON: Answer = (Some((0x70, 6, 0, 0x29, 0)), b"");

pub const CHANGED: Answer = (Some((0x70, 6, 0, 0x28, 0)), b"");

pub const NOT_PRESENT: Answer = (Some((0x70, 2, 0, 0x3a, 0)), b"");

/// FILEMARK, INFORMATION 5
pub const FILEMARK: Answer = (Some((0xf0, 0x80, 5, 0, 1)), b"");

/// INFORMATION 1
pub const END_OF_DATA: Answer = (Some((0xf0, 8, 1, 0, 5)), b"");

pub const DEFERRED: Answer = (Some((0x71, 3, 0, 0x0c, 0)), b"");

pub const FAILED: Answer = (Some((0x70, 4, 0, 0x44, 0)), b"");

/// The refusals of a move.
pub const NO_ADDRESS: Answer = (Some((0x70, 5, 0, 0x21, 1)), b"");

pub const NO_SOURCE: Answer = (Some((0x70, 5, 0, 0x3b, 0x0e)), b"");

pub const NO_ROOM: Answer = (Some((0x70, 5, 0, 0x3b, 0x0d)), b"");

pub const READY: &'static [u8] = &[0; 6];

pub const WRITE_1: &'static [u8] = &[0x0a, 0, 0, 0, 1, 0];

pub const READ_1: &'static [u8] = &[0x08, 0, 0, 0, 1, 0];

pub const MARK: &'static [u8] = &[0x10, 0, 0, 0, 1, 0];

/// A filemark is written, and not stored at once (IMMED).
pub const MARK_SOON: &'static [u8] = &[0x10, 1, 0, 0, 1, 0];

pub const REWIND: &'static [u8] = &[0x01, 0, 0, 0, 0, 0];

/// The number of a drive, and a command to it: a command block, the data sent with it, and the answer.
pub type Step = (u8, &'static [u8], &'static [u8], Answer);

/// The first command of a host at drives 1 and 2.
pub const ON: Step = (1, READY, b"", POWERED_ON);

pub const ON_2: Step = (2, READY, b"", POWERED_ON);

pub const IS_READY: Step = (1, READY, b"", GOOD);

pub const MARKS: Step = (1, MARK, b"", GOOD);

/// A block of one byte is written.
pub const X: Step = (1, WRITE_1, b"x", GOOD);

// The status, sense data and bytes of an answer.
type Heard<'a> = (Status, Option<[u8; 18]>, &'a [u8]);

fn wanted_of(wanted: Answer) -> Heard<'static> {
    let (sense, bytes) = wanted;
    match sense {
        Some((response, key, info, code, qualifier)) => {
            let sense = [
                response, 0, key, 0, 0, 0, info, 0x0a, 0, 0, 0, 0, code, qualifier, 0, 0, 0, 0,
            ];
            (Status::Check, Some(sense), bytes)
        }
        None => (Status::Good, None, bytes),
    }
}

fn heard(reply: &Reply) -> Heard<'_> {
    let sense = match &reply.sense {
        Some(sense) => Some(sense.bytes()),
        None => None,
    };
    (reply.status, sense, reply.bytes.as_slice())
}

/// A reply is this answer.
pub fn is_answer(rt: &impl Abort, reply: &Reply, wanted: Answer, at: usize) {
    assert_equal!(rt; heard(reply), wanted_of(wanted); at);
}

/// A reply is one of these.
pub fn is_one_of(rt: &impl Abort, reply: &Reply, wanted: &[Answer]) {
    let mut is_there = false;
    for one in wanted {
        is_there = is_there || heard(reply) == wanted_of(*one);
    }
    assert_holds!(rt; is_there; heard(reply));
}
