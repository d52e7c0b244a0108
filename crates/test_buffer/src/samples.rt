//! A drive over a cartridge on two disks, and the commands of the tests.
use cartridge::{Cartridge, Shelved};
use scsi_sense::{Reply, Status};
use std::alloc::Global;
use std::process::Abort;
use std::test::Fail;
use tape_disk::{Disk, MemDisk};
use test_assertions::assert_equal;
pub use test_tapes::commands::{
    CHANGED, END, FAILED, GOOD, LATE_ERROR, LOAD, LOCATE_1, MARK, NONE, POWERED_ON, READ_1,
    READ_ERROR, READY, REWIND, Row, SELECT_4, UNLOAD, WRITE_1, WRITE_ERROR, WRITE_OUT, Wanted,
};
use test_tapes::drives::switched_on;
pub use test_tapes::drives::{Tape, switch_off};
use volume_core::Kind;
use vtl_base::{Bytes, Nexus};

/// A cartridge `T00001L6` of one partition of 16,777,216 bytes, with no frames.
pub static EMPTY: &'static [u8] = b"\xa5VTLCART1\0\x01T00001L6        \0\0\0\0\x01\0\0\0\0";

/// The same with one frame: the block `a`.
pub static ONE: &'static [u8] = b"\xa5VTLCART1\0\x01T00001L6        \0\0\0\0\x01\0\0\0\
    \xa5\0\0\0\x0b\x01\0\0\0\0\0\0\0\0\x01a\0";

pub const MARK_AT_ONCE: &'static [u8] = &[0x10, 1, 0, 0, 1, 0];

pub const INQUIRY: &'static [u8] = &[0x12, 0, 0, 0, 36, 0];

pub const ERASE: &'static [u8] = &[0x19, 0, 0, 0, 0, 0];

pub const MODE_0: &'static [u8] = &[0, 0, 0, 0];

pub const MODE_1: &'static [u8] = &[0, 0, 0x10, 0];

pub const NO_MEDIUM: Wanted<'static> = (Some((0x70, 2, 0, 0x3a, 0)), &[]);

// A filemark, for a request of one byte.
pub const AT_MARK: Wanted<'static> = (Some((0xf0, 0x80, 1, 0, 1)), &[]);

pub const INQUIRED: Wanted<'static> = (
    None,
    b"\x01\x80\x06\x02\x1f\0\0\0VTLIB   TAPE DRIVE      0001",
);

// The expected status, 18 bytes of sense data and bytes.
type Heard<'a> = (Status, Option<[u8; 18]>, &'a [u8]);

fn wanted_of(wanted: Wanted) -> Heard {
    let (sense, bytes) = wanted;
    let Some((response, key, information, code, qualifier)) = sense else {
        return (Status::Good, None, bytes);
    };
    let [a, b, c, d] = information.to_be_bytes();
    let sense = [
        response, 0, key, a, b, c, d, 0x0a, 0, 0, 0, 0, code, qualifier, 0, 0, 0, 0,
    ];
    (Status::Check, Some(sense), bytes)
}

// The status, sense data and bytes of a reply.
fn heard(reply: &Reply) -> Heard<'_> {
    let sense = match &reply.sense {
        Some(sense) => Some(sense.bytes()),
        None => None,
    };
    (reply.status, sense, reply.bytes.as_slice())
}

/// A command has the expected reply.
pub fn ask<D: Disk + Drop>(rt: &impl Abort, drive: &mut Tape<D>, row: Row, at: usize) {
    let (host, cdb, sent, wanted) = row;
    let nexus = Nexus::new(host).expect(rt, "a nexus");
    let reply = drive.execute(nexus, cdb, sent);
    assert_equal!(rt; heard(&reply), wanted_of(wanted); at);
}

/// The same for a command whose data are borrowed, or lent.
pub fn ask_by<D: Disk + Drop>(
    rt: &impl Abort,
    alloc: Global,
    drive: &mut Tape<D>,
    is_lent: bool,
    row: Row,
) {
    if !is_lent {
        return ask(rt, drive, row, 0);
    }
    let (host, cdb, sent, wanted) = row;
    let nexus = Nexus::new(host).expect(rt, "a nexus");
    let mut lent = Bytes::from_slice(alloc, sent).expect(rt, "memory");
    let reply = drive.execute_lent(nexus, cdb, &mut lent);
    assert_equal!(rt; heard(&reply), wanted_of(wanted), "the reply to lent data");
}

pub fn asks<D: Disk + Drop>(rt: &impl Abort, drive: &mut Tape<D>, rows: &[Row]) {
    for (at, row) in rows.iter().enumerate() {
        ask(rt, drive, *row, at);
    }
}

// The power on is reported to hosts 1 and 2.
static GREETINGS: &'static [Row<'static>] = &[
    (1, READY, NONE, POWERED_ON),
    (2, READY, NONE, POWERED_ON),
];

/// A drive that was switched on with the cartridge on two disks, which was reported to hosts 1 and 2.
pub fn greeted<D: Disk + Drop>(
    rt: &impl Abort,
    alloc: Global,
    first: D,
    second: D,
) -> Result<Tape<D>, Fail> {
    let Some(mut drive) = switched_on(alloc, first, second) else {
        return Err(Fail::from("not switched on"));
    };
    asks(rt, &mut drive, GREETINGS);
    Ok(drive)
}

/// The tape has these objects from the position on, blocks of one byte and `|` for a filemark, and then the
/// end of data.
pub fn reads<D: Disk + Drop>(rt: &impl Abort, drive: &mut Tape<D>, objects: &[u8]) {
    for i in 0..objects.len() {
        let wanted: Wanted = match objects[i] {
            b'|' => AT_MARK,
            _ => (None, &objects[i..i + 1]),
        };
        ask(rt, drive, (1, READ_1, NONE, wanted), i);
    }
    ask(rt, drive, (1, READ_1, NONE, END), objects.len());
}

/// The syncs of the disk with the side that counts.
pub fn syncs(drive: &Tape<MemDisk>) -> u64 {
    match drive.disk() {
        Some(disk) => disk.syncs(),
        None => 0,
    }
}

/// The contents of the cartridge on a disk, with an empty second one: the bytes of blocks, and `|` for a filemark.
pub fn found(alloc: Global, disk: MemDisk) -> Result<Vec<u8>, Fail> {
    let Ok(mut cartridge) = Cartridge::open(alloc, Shelved::of(disk, MemDisk::new(alloc))) else {
        return Err(Fail::from("no cartridge"));
    };
    let mut text = Vec::new(alloc);
    let mut block = Vec::new(alloc);
    for at in 0..cartridge.count(0) {
        match cartridge.kind_at(0, at) {
            Some(Kind::Block) => {
                cartridge.fetch(0, at, &mut block)?;
                text.extend_from_slice(&block)?;
            }
            _ => text.push(b'|')?,
        }
    }
    Ok(text)
}
