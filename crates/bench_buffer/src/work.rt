//! The work that is timed.
use scsi_sense::{Reply, Sense, Status};
use std::alloc::Global;
use std::time::Instant;
use tape_disk::{Disk, MemDisk};
use test_tapes::drives::{Tape, switch_off, switched_on};
use vtl_base::Nexus;

const BLOCK: usize = 65_536;

// The blocks of 64 MiB.
const BLOCKS_A_MARK: u32 = 1_024;

// WRITE of 65,536 bytes and of one byte, WRITE FILEMARKS of one, stored before its answer.
const WRITE_BLOCK: [u8; 6] = [0x0a, 0, 1, 0, 0, 0];

const WRITE_BYTE: [u8; 6] = [0x0a, 0, 0, 0, 1, 0];

const MARK: [u8; 6] = [0x10, 0, 0, 0, 1, 0];

pub(crate) const TEST_UNIT_READY: [u8; 6] = [0; 6];

// The side of a cartridge of one partition of 1,099,511,627,776 bytes, with no frames.
const SIDE: [u8; 36] = *b"\xa5VTLCART1\0\x01T00001L6        \0\0\x01\0\0\0\0\0\0";

/// Nanoseconds, and the result of the work.
pub type Timed = (u128, u64);

// A drive with an empty cartridge in memory, and a host to which its power on was reported.
fn new_drive(alloc: Global) -> Option<(Tape<MemDisk>, Nexus)> {
    let host = Nexus::new(1)?;
    let disk = MemDisk::from_bytes(alloc, &SIDE).ok()?;
    let mut drive = switched_on(alloc, disk, MemDisk::new(alloc))?;
    let _ = drive.execute(host, &TEST_UNIT_READY, &[]);
    Some((drive, host))
}

// Sends a command, and once more where memory runs out. Returns whether it is GOOD.
fn ask<D: Disk + Drop>(drive: &mut Tape<D>, host: Nexus, cdb: &[u8], sent: &[u8]) -> bool {
    let mut reply = drive.execute(host, cdb, sent);
    if reply.sense == Some(Sense::insufficient_resources()) {
        reply = drive.execute(host, cdb, sent);
    }
    reply.status == Status::Good
}

// The syncs of a drive's disk.
fn syncs(drive: &Tape<MemDisk>) -> u64 {
    match drive.disk() {
        Some(disk) => disk.syncs(),
        None => 0,
    }
}

// `count` writes of a block, with a filemark after each group of them, if any. Returns whether all are GOOD.
pub(crate) fn writes<D: Disk + Drop>(
    drive: &mut Tape<D>,
    host: Nexus,
    count: u32,
    cdb: &[u8],
    block: &[u8],
    group: u32,
) -> bool {
    for i in 0..count {
        if !ask(drive, host, cdb, block) {
            return false;
        }
        let marked = group > 0 && i % group == group - 1;
        if marked && !ask(drive, host, &MARK, &[]) {
            return false;
        }
    }
    true
}

// The same on a new drive: the time, and how many syncs they took.
fn written(rt: &HostRuntime, count: u32, cdb: &[u8], block: &[u8], group: u32) -> Option<Timed> {
    let (mut drive, host) = new_drive(rt.alloc())?;
    let timed = timed_writes(rt, &mut drive, host, count, cdb, block, group);
    switch_off(drive);
    timed
}

fn timed_writes(
    rt: &HostRuntime,
    drive: &mut Tape<MemDisk>,
    host: Nexus,
    count: u32,
    cdb: &[u8],
    block: &[u8],
    group: u32,
) -> Option<Timed> {
    let before = syncs(drive);
    let start = Instant::now(rt).ok()?;
    if !writes(drive, host, count, cdb, block, group) {
        return None;
    }
    let time = start.elapsed(rt).ok()?.as_nanos();
    Some((time, syncs(drive).saturating_sub(before)))
}

/// Buffered writes of 65,536 bytes, with a filemark after each 1,024 of them: how many syncs they take.
pub fn blocks(rt: &HostRuntime, count: u32) -> Option<Timed> {
    let block = vec![in rt.alloc(); 90u8; BLOCK].ok()?;
    written(rt, count, &WRITE_BLOCK, &block, BLOCKS_A_MARK)
}

/// Buffered writes of one byte: how many syncs they take.
pub fn bytes(rt: &HostRuntime, count: u32) -> Option<Timed> {
    written(rt, count, &WRITE_BYTE, b"x", 0)
}

/// Buffered writes of one byte, with a filemark after each: how many syncs they take.
pub fn marks(rt: &HostRuntime, count: u32) -> Option<Timed> {
    written(rt, count, &WRITE_BYTE, b"x", 1)
}

/// Copies as many blocks of 65,536 bytes into one vector: how many bytes it has.
pub fn copied(rt: &HostRuntime, count: u32) -> Option<Timed> {
    let block = vec![in rt.alloc(); 90u8; BLOCK].ok()?;
    let mut row = Vec::new(rt.alloc());
    let start = Instant::now(rt).ok()?;
    for _ in 0..count {
        row.extend_from_slice(&block).ok()?;
    }
    Some((start.elapsed(rt).ok()?.as_nanos(), row.len() as u64))
}
