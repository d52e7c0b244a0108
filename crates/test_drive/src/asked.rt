//! Commands, and the answers to them.

/// The expected answer.
#[derive(Clone, Copy)]
pub enum Answer<'a> {
    /// GOOD with these bytes.
    Good(&'a [u8]),
    /// Sense data with only key, code and qualifier.
    Check(u8, u8, u8),
    /// Sense data: bytes 0 and 2, INFORMATION, code and qualifier.
    Sense(u8, u8, u32, u8, u8),
    /// RESERVATION CONFLICT.
    Conflict,
}

/// A host, its command and the bytes that it sends, and the answer.
pub type Row<'a> = (u8, &'a [u8], &'a [u8], Answer<'a>);

pub const GOOD: Answer<'static> = Answer::Good(&[]);

pub const HELLO: Answer<'static> = Answer::Good(b"hello");

pub const CONFLICT: Answer<'static> = Answer::Conflict;

pub const POWERED_ON: Answer<'static> = Answer::Check(6, 0x29, 0);

pub const CHANGED: Answer<'static> = Answer::Check(6, 0x28, 0);

pub const CLEARED: Answer<'static> = Answer::Check(6, 0x2a, 3);

pub const UNKNOWN: Answer<'static> = Answer::Check(5, 0x20, 0);

pub const BAD_FIELD: Answer<'static> = Answer::Check(5, 0x24, 0);

pub const BAD_LENGTH: Answer<'static> = Answer::Check(5, 0x1a, 0);

pub const STORE_FULL: Answer<'static> = Answer::Check(5, 0x55, 4);

pub const NO_MEDIUM: Answer<'static> = Answer::Check(2, 0x3a, 0);

pub const WRITE_ERROR: Answer<'static> = Answer::Check(3, 0x0c, 0);

pub const READ_ERROR: Answer<'static> = Answer::Check(3, 0x11, 0);

pub const FAILED: Answer<'static> = Answer::Check(4, 0x44, 0);

pub const NO_MEMORY: Answer<'static> = Answer::Check(0x0b, 0x55, 3);

pub const LATE_ERROR: Answer<'static> = Answer::Sense(0x71, 3, 0, 0x0c, 0);

pub const MARK: Answer<'static> = Answer::Sense(0xf0, 0x80, 5, 0, 1);

pub const END: Answer<'static> = Answer::Sense(0xf0, 0x08, 5, 0, 5);

/// The side is full, without a residue or with one.
pub const FULL: Answer<'static> = Answer::Sense(0x70, 0x4d, 0, 0, 2);

pub const FULL_BY_1: Answer<'static> = Answer::Sense(0xf0, 0x4d, 1, 0, 2);

pub const FULL_BY_3: Answer<'static> = Answer::Sense(0xf0, 0x4d, 3, 0, 2);

pub const FULL_BY_5: Answer<'static> = Answer::Sense(0xf0, 0x4d, 5, 0, 2);

pub const IS: Answer<'static> = Answer::Good(
    b"\x01\x80\x06\x02\x1f\0\0\0VTLIB   TAPE DRIVE      0001",
);

pub const LIMITS: Answer<'static> = Answer::Good(&[0, 0x10, 0, 0, 0, 1]);

pub const NOTHING_PENDING: Answer<'static> = Answer::Good(
    b"\x70\0\0\0\0\0\0\x0a\0\0\0\0\0\0\0\0\0\0",
);

/// Commands.
pub const NONE: &'static [u8] = &[];

pub const TEST_UNIT_READY: &'static [u8] = &[0; 6];

pub const REWIND: &'static [u8] = &[0x01, 0, 0, 0, 0, 0];

pub const REQUEST_SENSE: &'static [u8] = &[0x03, 0, 0, 0, 18, 0];

pub const BLOCK_LIMITS: &'static [u8] = &[0x05, 0, 0, 0, 0, 0];

pub const READ_5: &'static [u8] = &[0x08, 0, 0, 0, 5, 0];

pub const WRITE_0: &'static [u8] = &[0x0a, 0, 0, 0, 0, 0];

pub const WRITE_5: &'static [u8] = &[0x0a, 0, 0, 0, 5, 0];

pub const NO_MARKS: &'static [u8] = &[0x10, 0, 0, 0, 0, 0];

pub const WRITE_MARK: &'static [u8] = &[0x10, 0, 0, 0, 1, 0];

pub const THREE_MARKS: &'static [u8] = &[0x10, 0, 0, 0, 3, 0];

pub const MARK_AT_ONCE: &'static [u8] = &[0x10, 1, 0, 0, 1, 0];

pub const MARK_FORWARD: &'static [u8] = &[0x11, 1, 0, 0, 1, 0];

pub const MARK_BACK: &'static [u8] = &[0x11, 1, 0xff, 0xff, 0xff, 0];

pub const INQUIRY: &'static [u8] = &[0x12, 0, 0, 0, 36, 0];

pub const SELECT: &'static [u8] = &[0x15, 0, 0, 0, 4, 0];

/// The list of MODE SELECT that sets the unbuffered mode.
pub const UNBUFFERED: &'static [u8] = &[0, 0, 0, 0];

pub const ERASE: &'static [u8] = &[0x19, 0, 0, 0, 0, 0];

pub const SENSE_MODE: &'static [u8] = &[0x1a, 8, 0x3f, 0, 255, 0];

pub const UNLOAD: &'static [u8] = &[0x1b, 0, 0, 0, 0, 0];

pub const LOAD: &'static [u8] = &[0x1b, 0, 0, 0, 1, 0];

pub const LOCATE_0: &'static [u8] = &[0x2b, 0, 0, 0, 0, 0, 0, 0, 0, 0];

pub const POSITION: &'static [u8] = &[0x34, 0, 0, 0, 0, 0, 0, 0, 0, 0];

pub const READ_KEYS: &'static [u8] = &[0x5e, 0, 0, 0, 0, 0, 0, 0, 24, 0];

pub const READ_RESERVATION: &'static [u8] = &[0x5e, 1, 0, 0, 0, 0, 0, 0, 24, 0];

pub const REGISTER: &'static [u8] = &[0x5f, 0, 0, 0, 0, 0, 0, 0, 24, 0];

pub const RESERVE_5: &'static [u8] = &[0x5f, 1, 5, 0, 0, 0, 0, 0, 24, 0];

pub const RELEASE_5: &'static [u8] = &[0x5f, 2, 5, 0, 0, 0, 0, 0, 24, 0];

pub const CLEAR: &'static [u8] = &[0x5f, 3, 0, 0, 0, 0, 0, 0, 24, 0];

/// Parameter lists: the reservation key, then the key of the service action.
pub const NO_KEYS: &'static [u8] = &[0; 24];

pub const A_NEW: &'static [u8] = b"\0\0\0\0\0\0\0\0\0\0\0\0\0\0\0\xa1\0\0\0\0\0\0\0\0";

pub const B_NEW: &'static [u8] = b"\0\0\0\0\0\0\0\0\0\0\0\0\0\0\0\xb2\0\0\0\0\0\0\0\0";

pub const BY_A: &'static [u8] = b"\0\0\0\0\0\0\0\xa1\0\0\0\0\0\0\0\0\0\0\0\0\0\0\0\0";

pub const BY_B: &'static [u8] = b"\0\0\0\0\0\0\0\xb2\0\0\0\0\0\0\0\0\0\0\0\0\0\0\0\0";
