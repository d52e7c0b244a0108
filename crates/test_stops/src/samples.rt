//! Commands of hosts to a drive, and their answers.
use bay_moves::Bay;
use scsi_sense::{Reply, Status};
use std::fmt::Debug;
use std::process::Abort;
use tape_disk::Disk;
use test_assertions::assert_equal;
pub use test_tapes::commands::{
    CHANGED, END, FAILED, GOOD, LATE_ERROR, LOAD, LOCATE_1, MARK, NONE, POWERED_ON, READ_1,
    READ_ERROR, READY, REWIND, Row, SELECT_4, UNLOAD, WRITE_1, WRITE_ERROR, WRITE_OUT, Wanted,
};
use vtl_base::Nexus;

pub type Rows = &'static [Row<'static>];

pub const READ_KEYS: &'static [u8] = &[0x5e, 0, 0, 0, 0, 0, 0, 0, 0x10, 0];

pub const READ_RESERVATION: &'static [u8] = &[0x5e, 1, 0, 0, 0, 0, 0, 0, 0x18, 0];

pub const REGISTER: &'static [u8] = &[0x5f, 0, 0, 0, 0, 0, 0, 0, 0x18, 0];

pub const RESERVE_5: &'static [u8] = &[0x5f, 1, 5, 0, 0, 0, 0, 0, 0x18, 0];

/// BUFFERED MODE 0.
pub const UNBUFFERED: &'static [u8] = &[0, 0, 0, 0];

/// Parameter lists: the reservation key, the key of the service action, and APTPL in the last four bytes.
pub const A_NEW: &'static [u8] = b"\0\0\0\0\0\0\0\0\0\0\0\0\0\0\0\xa1\0\0\0\0\x01\0\0\0";

pub const BY_A: &'static [u8] = b"\0\0\0\0\0\0\0\xa1\0\0\0\0\0\0\0\0\0\0\0\0\0\0\0\0";

pub const A_WITHOUT_APTPL: &'static [u8] = b"\0\0\0\0\0\0\0\xa1\0\0\0\0\0\0\0\xa1\0\0\0\0\0\0\0\0";

/// The data of READ KEYS where nobody is registered, or of READ RESERVATION where nothing is held; generation 0.
pub const NOBODY: &'static [u8] = b"\0\0\0\0\0\0\0\0";

/// The data of READ KEYS for the key a1, with generation 0.
pub const KEY_A: &'static [u8] = b"\0\0\0\0\0\0\0\x08\0\0\0\0\0\0\0\xa1";

/// The data of READ RESERVATION for type 5, held with the key a1, with generation 0.
pub const HELD_BY_A: &'static [u8] = b"\0\0\0\0\0\0\0\x10\0\0\0\0\0\0\0\xa1\0\0\0\0\0\x05\0\0";

pub const MODE_CHANGED: Wanted<'static> = (Some((0x70, 6, 0, 0x2a, 1)), &[]);

pub const NOT_PRESENT: Wanted<'static> = (Some((0x70, 2, 0, 0x3a, 0)), &[]);

/// A cartridge `T00001L6` of one partition of 16,777,216 bytes, with no frames.
pub const NEW_TAPE: &'static [u8] = b"\xa5VTLCART1\0\x01T00001L6        \0\0\0\0\x01\0\0\0\0";

/// The same with the blocks `a` and `b`, in one frame each: its gates are at 35, 51 and 67.
pub const AB_TAPE: &'static [u8] = b"\xa5VTLCART1\0\x01T00001L6        \0\0\0\0\x01\0\0\0\
    \xa5\0\0\0\x0b\x01\0\0\0\0\0\0\0\0\x01a\
    \xa5\0\0\0\x0b\x01\0\0\0\0\x01\0\0\0\x01b\
    \0";

/// The same with the second gate closed.
pub const A_TAPE: &'static [u8] = b"\xa5VTLCART1\0\x01T00001L6        \0\0\0\0\x01\0\0\0\
    \xa5\0\0\0\x0b\x01\0\0\0\0\0\0\0\0\x01a\
    \0\0\0\0\x0b\x01\0\0\0\0\x01\0\0\0\x01b\
    \0";

/// A store of drive 1 with no frames.
pub const NEW_STORE: &'static [u8] = b"\xa5VTLRESV1\0\0DRIVE1          \0";

/// The same after host 1 has registered a1 with APTPL and reserved type 5: its gates are at 27, 45 and 63.
pub const HELD_STORE: &'static [u8] = b"\xa5VTLRESV1\0\0DRIVE1          \
    \xa5\0\0\0\x0d\x01\0\0\x01\x01\0\0\0\0\0\0\0\xa1\
    \xa5\0\0\0\x0d\x01\x05\x01\x01\x01\0\0\0\0\0\0\0\xa1\
    \0";

/// The same with a frame after its last gate, which is closed: host 1 has registered a1 over a1 without APTPL.
pub const LEFT_STORE: &'static [u8] = b"\xa5VTLRESV1\0\0DRIVE1          \
    \xa5\0\0\0\x0d\x01\0\0\x01\x01\0\0\0\0\0\0\0\xa1\
    \xa5\0\0\0\x0d\x01\x05\x01\x01\x01\0\0\0\0\0\0\0\xa1\
    \0\0\0\0\x0d\0\x05\x01\x01\x01\0\0\0\0\0\0\0\xa1\
    \0";

// The expected status, 18 bytes of sense data and bytes.
type Heard<'a> = (Status, Option<[u8; 18]>, &'a [u8]);

fn wanted_of(wanted: Wanted) -> Heard {
    let (sense, bytes) = wanted;
    let Some((response, key, information, code, qualifier)) = sense else {
        return (Status::Good, None, bytes);
    };
    let [a, b, c, d] = information.to_be_bytes();
    let sense = [
        response, 0, key, a, b, c, d, 0x0a, 0, 0, 0, 0, code, qualifier, 0, 0, 0, 0,
    ];
    (Status::Check, Some(sense), bytes)
}

fn heard(reply: &Reply) -> Heard<'_> {
    let sense = match &reply.sense {
        Some(sense) => Some(sense.bytes()),
        None => None,
    };
    (reply.status, sense, reply.bytes.as_slice())
}

/// A command has the expected reply.
pub fn ask<D: Disk>(
    rt: &impl Abort,
    drive: &mut Bay<D>,
    row: Row,
    wanted: Wanted,
    at: &impl Debug,
) {
    let (host, cdb, sent, _) = row;
    let nexus = Nexus::new(host).expect(rt, "a nexus");
    let reply = drive.execute(nexus, cdb, sent);
    assert_equal!(rt; heard(&reply), wanted_of(wanted); at);
}

pub fn asks<D: Disk>(rt: &impl Abort, drive: &mut Bay<D>, rows: &[Row], at: &impl Debug) {
    for (place, row) in rows.iter().enumerate() {
        ask(rt, drive, *row, row.3, &(place, at));
    }
}

/// Whether a command has the expected reply.
pub fn answers<D: Disk>(drive: &mut Bay<D>, row: Row) -> bool {
    let (host, cdb, sent, wanted) = row;
    match Nexus::new(host) {
        Some(nexus) => heard(&drive.execute(nexus, cdb, sent)) == wanted_of(wanted),
        None => false,
    }
}

/// Whether the tape has these blocks of one byte from the position on, and then the end of data.
pub fn reads<D: Disk>(drive: &mut Bay<D>, blocks: &[u8]) -> bool {
    for i in 0..blocks.len() {
        if !answers(drive, (1, READ_1, NONE, (None, &blocks[i..i + 1]))) {
            return false;
        }
    }
    answers(drive, (1, READ_1, NONE, END))
}
