//! A drive over a cartridge in a file.
use crate::work::{TEST_UNIT_READY, Timed, writes};
use cartridge::Cartridge;
use file_disk::{FileDisk, create, open};
use std::time::Instant;
use test_tapes::drives::{Tape, switch_off, switched_on};
use vtl_base::limits::MAX_CAPACITY;
use vtl_base::{Barcode, Nexus};

const BLOCK: usize = 262_144;

// The blocks of 64 MiB.
const BLOCKS_A_MARK: u32 = 256;

// WRITE of 262,144 bytes.
const WRITE_BLOCK: [u8; 6] = [0x0a, 0, 4, 0, 0, 0];

// The disk in a cartridge's second file, which is created where it is missing.
fn second_disk(rt: &HostRuntime, path: &str) -> Option<FileDisk> {
    let path = format!(in rt.alloc(); "{path}.2").ok()?;
    match create(rt, path.as_str()) {
        Ok(disk) => Some(disk),
        Err(_) => open(rt, path.as_str()).ok(),
    }
}

// A drive with an empty cartridge in a new file and a second one.
fn new_drive(rt: &HostRuntime, path: &str) -> Option<Tape<FileDisk>> {
    let barcode = Barcode::parse(b"T00001L6").ok()?;
    let first = create(rt, path).ok()?;
    let second = second_disk(rt, path)?;
    let shelved = Cartridge::create(rt.alloc(), first, second, &barcode, &[MAX_CAPACITY]).ok()?;
    let (first, second) = shelved.into_disks();
    switched_on(rt.alloc(), first, second)
}

// Writes this many blocks and a last mark, and returns whether all were accepted.
fn are_written(drive: &mut Tape<FileDisk>, host: Nexus, count: u32, block: &[u8]) -> bool {
    writes(drive, host, count, &WRITE_BLOCK, block, BLOCKS_A_MARK)
        && writes(drive, host, 1, &[0x10, 0, 0, 0, 1, 0], &[], 0)
}

// How many nanoseconds the writes take, and how many bytes they write.
fn timed(rt: &HostRuntime, drive: &mut Tape<FileDisk>, count: u32) -> Option<Timed> {
    let block = vec![in rt.alloc(); 90u8; BLOCK].ok()?;
    let host = Nexus::new(1)?;
    let _ = drive.execute(host, &TEST_UNIT_READY, &[]);
    let start = Instant::now(rt).ok()?;
    if !are_written(drive, host, count, &block) {
        return None;
    }
    let time = start.elapsed(rt).ok()?.as_nanos();
    Some((time, count as u64 * BLOCK as u64))
}

/// Buffered writes of 262,144 bytes to a new cartridge in this file, which must not exist, with a filemark
/// after each 256 of them and one at the end. Returns how many bytes were written. Its second file has `.2`
/// added to the name.
pub fn appended(rt: &HostRuntime, path: &str, count: u32) -> Option<Timed> {
    let mut drive = new_drive(rt, path)?;
    let timed = timed(rt, &mut drive, count);
    switch_off(drive);
    timed
}
