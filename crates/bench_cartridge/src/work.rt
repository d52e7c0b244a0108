//! The work that is timed.
use cartridge::{Cartridge, Shelved};
use std::alloc::Global;
use std::time::{Duration, Instant};
use tape_disk::MemDisk;
use test_known::Known;
use volume_core::{Change, Kind};
use vtl_base::Bytes;

const BLOCK: usize = 262_144;

const SMALL: usize = 1_024;

const TEBIBYTE: u64 = 1_099_511_627_776;

// The first bytes of a side with one partition of 1,099,511,627,776 bytes, up to its first gate.
const HEADER: [u8; 35] = *b"\xa5VTLCART1\0\x01T00001L6        \0\0\x01\0\0\0\0\0";

/// Nanoseconds, and the result of the work.
pub type Timed = (u128, usize);

// A cartridge in memory without objects.
fn new_cartridge(alloc: Global) -> Option<Known<MemDisk>> {
    Known::made(alloc, MemDisk::new(alloc), MemDisk::new(alloc), &[TEBIBYTE]).ok()
}

// `count` blocks of this size, from an object number on.
fn blocks(alloc: Global, from: u32, count: u32, size: usize) -> Option<Vec<Change>> {
    let mut changes = Vec::new(alloc);
    for i in 0..count {
        let block = Bytes::from_vec(vec![in alloc; 90u8; size].ok()?);
        let at = from.checked_add(i)?;
        changes.push(Change::Put { part: 0, at, block }).ok()?;
    }
    Some(changes)
}

// Stores one frame of blocks of a size, after as many frames of the same: the time of the store alone.
fn store_one(
    rt: &HostRuntime,
    known: &mut Known<MemDisk>,
    frame: u32,
    count: u32,
    size: usize,
) -> Option<Duration> {
    let changes = blocks(rt.alloc(), frame.checked_mul(count)?, count, size)?;
    known.store_by_the_clock(rt, &changes)
}

// Stores frames of blocks of a size: the time of the stores alone, and how many frames there are.
fn store_all(
    rt: &HostRuntime,
    known: &mut Known<MemDisk>,
    frames: u32,
    count: u32,
    size: usize,
) -> Option<Timed> {
    let mut time = 0u128;
    for frame in 0..frames {
        time = time.checked_add(store_one(rt, known, frame, count, size)?.as_nanos())?;
    }
    Some((time, known.cartridge().frames()))
}

/// Stores frames of one block of 262,144 bytes: how many there are.
pub fn stored(rt: &HostRuntime, count: u32) -> Option<Timed> {
    let mut known = new_cartridge(rt.alloc())?;
    store_all(rt, &mut known, count, 1, BLOCK)
}

/// Stores frames of 64 blocks of 1,024 bytes each: how many there are.
pub fn stored_together(rt: &HostRuntime, count: u32) -> Option<Timed> {
    let mut known = new_cartridge(rt.alloc())?;
    store_all(rt, &mut known, count, 64, SMALL)
}

/// Copies as many blocks of 262,144 bytes into one vector: how many bytes it has.
pub fn copied(rt: &HostRuntime, count: u32) -> Option<Timed> {
    let block = vec![in rt.alloc(); 90u8; BLOCK].ok()?;
    let mut row = Vec::new(rt.alloc());
    let start = Instant::now(rt).ok()?;
    for _ in 0..count {
        row.extend_from_slice(&block).ok()?;
    }
    Some((start.elapsed(rt).ok()?.as_nanos(), row.len()))
}

// Fetches each of these blocks into one buffer: how many bytes the last one has.
fn fetch_all(
    rt: &HostRuntime,
    cartridge: &mut Cartridge<MemDisk>,
    count: u32,
    into: &mut Vec<u8>,
) -> Option<Timed> {
    let start = Instant::now(rt).ok()?;
    for at in 0..count {
        if cartridge.kind_at(0, at) != Some(Kind::Block) {
            return None;
        }
        cartridge.fetch(0, at, into).ok()?;
    }
    Some((start.elapsed(rt).ok()?.as_nanos(), into.len()))
}

// Stores `count` blocks of 262,144 bytes, and returns only the cartridge.
fn full_cartridge(rt: &HostRuntime, count: u32) -> Option<Cartridge<MemDisk>> {
    let mut known = new_cartridge(rt.alloc())?;
    store_all(rt, &mut known, count, 1, BLOCK)?;
    Some(known.into_cartridge())
}

/// Fetches each of `count` blocks of 262,144 bytes: how many bytes the last one has.
pub fn fetched(rt: &HostRuntime, count: u32) -> Option<Timed> {
    let mut into = vec![in rt.alloc(); 0u8; BLOCK].ok()?;
    let mut cartridge = full_cartridge(rt, count)?;
    fetch_all(rt, &mut cartridge, count, &mut into)
}

// The bytes of a side with `count` frames, each of one block of 1,024 bytes.
fn side_of(alloc: Global, count: u32) -> Option<Vec<u8>> {
    let block = vec![in alloc; 90u8; SMALL].ok()?;
    let mut bytes = Vec::from_slice(alloc, &HEADER).ok()?;
    for at in 0..count {
        // An open gate, the length of the body, and the head of a record.
        bytes.extend_from_slice(b"\xa5\0\0\x04\x0a\x01\0").ok()?;
        bytes.extend_from_slice(&at.to_be_bytes()).ok()?;
        bytes.extend_from_slice(b"\0\0\x04\0").ok()?;
        bytes.extend_from_slice(&block).ok()?;
    }
    bytes.push(0).ok()?;
    Some(bytes)
}

/// Puts a side with `count` frames of one block of 1,024 bytes on a disk: how many bytes it has.
pub fn made(rt: &HostRuntime, count: u32) -> Option<Timed> {
    let start = Instant::now(rt).ok()?;
    let bytes = side_of(rt.alloc(), count)?;
    let disk = MemDisk::from_bytes(rt.alloc(), &bytes).ok()?;
    Some((start.elapsed(rt).ok()?.as_nanos(), disk.bytes().len()))
}

// Opens a cartridge: how many objects it has.
fn open_one(rt: &HostRuntime, shelved: Shelved<MemDisk>) -> Option<Timed> {
    let start = Instant::now(rt).ok()?;
    let cartridge = Cartridge::open(rt.alloc(), shelved).ok()?;
    let time = start.elapsed(rt);
    let count = cartridge.count(0) as usize;
    Some((time.ok()?.as_nanos(), count))
}

/// Opens such a side: how many objects it has. Its bytes stay in memory, so the memory above that of `made`
/// is the open cartridge's.
pub fn opened(rt: &HostRuntime, count: u32) -> Option<Timed> {
    let bytes = side_of(rt.alloc(), count)?;
    let disk = MemDisk::from_bytes(rt.alloc(), &bytes).ok()?;
    let timed = open_one(rt, Shelved::of(disk, MemDisk::new(rt.alloc())));
    // The last byte of the side is its end gate, which is closed.
    match bytes.last() {
        Some(0) => timed,
        _ => None,
    }
}
