//! Commands of hosts to a drive, and answers to them.

/// The expected reply: its sense data, if any, by bytes 0 and 2, INFORMATION, code and qualifier; and its bytes.
pub type Wanted<'a> = (Option<(u8, u8, u32, u8, u8)>, &'a [u8]);

/// A host, its command and the bytes that it sends, and the expected reply.
pub type Row<'a> = (u8, &'a [u8], &'a [u8], Wanted<'a>);

pub const NONE: &'static [u8] = &[];

pub const READY: &'static [u8] = &[0; 6];

pub const REWIND: &'static [u8] = &[0x01, 0, 0, 0, 0, 0];

pub const READ_1: &'static [u8] = &[0x08, 0, 0, 0, 1, 0];

pub const WRITE_1: &'static [u8] = &[0x0a, 0, 0, 0, 1, 0];

pub const WRITE_OUT: &'static [u8] = &[0x10, 0, 0, 0, 0, 0];

pub const MARK: &'static [u8] = &[0x10, 0, 0, 0, 1, 0];

pub const SELECT_4: &'static [u8] = &[0x15, 0, 0, 0, 4, 0];

pub const LOAD: &'static [u8] = &[0x1b, 0, 0, 0, 1, 0];

pub const UNLOAD: &'static [u8] = &[0x1b, 0, 0, 0, 0, 0];

pub const LOCATE_1: &'static [u8] = &[0x2b, 0, 0, 0, 0, 0, 1, 0, 0, 0];

pub const GOOD: Wanted<'static> = (None, &[]);

pub const POWERED_ON: Wanted<'static> = (Some((0x70, 6, 0, 0x29, 0)), &[]);

pub const CHANGED: Wanted<'static> = (Some((0x70, 6, 0, 0x28, 0)), &[]);

pub const WRITE_ERROR: Wanted<'static> = (Some((0x70, 3, 0, 0x0c, 0)), &[]);

pub const READ_ERROR: Wanted<'static> = (Some((0x70, 3, 0, 0x11, 0)), &[]);

pub const LATE_ERROR: Wanted<'static> = (Some((0x71, 3, 0, 0x0c, 0)), &[]);

pub const FAILED: Wanted<'static> = (Some((0x70, 4, 0, 0x44, 0)), &[]);

/// The end of data, for a request of one byte.
pub const END: Wanted<'static> = (Some((0xf0, 8, 1, 0, 5)), &[]);
