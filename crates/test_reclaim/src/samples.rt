//! What tests do with a cartridge on two disks.
use cartridge::{Cartridge, CartridgeError, ReclaimError, Shelved};
use cartridge_sides::Which;
use std::alloc::Global;
use tape_disk::{Disk, MemDisk};
use volume_core::Kind;
use vtl_base::{DevFault, NoMemory, PartNo};

/// Two disks in memory, the first one first.
pub type Pair = (MemDisk, MemDisk);

/// The first fault of a disk.
pub const FAULT: ReclaimError = ReclaimError::Cartridge(CartridgeError::Device(DevFault {
    failures: 1,
}));

/// Copies with the same past.
pub fn copy_of(pair: &Pair) -> Result<Pair, NoMemory> {
    Ok((pair.0.copy()?, pair.1.copy()?))
}

/// The cartridge on two disks, or why they hold none.
pub fn opened<D: Disk + Drop>(
    alloc: Global,
    first: D,
    second: D,
) -> Result<Cartridge<D>, CartridgeError> {
    match Cartridge::open(alloc, Shelved::of(first, second)) {
        Ok(cartridge) => Ok(cartridge),
        Err(refused) => Err(refused.error),
    }
}

/// Reclaims the cartridge on two disks. Returns them, and why it was not done, if it was not.
pub fn reclaim<D: Disk>(alloc: Global, first: D, second: D) -> (D, D, Result<(), ReclaimError>) {
    match Cartridge::reclaim(alloc, Shelved::of(first, second)) {
        Ok(shelved) => {
            let (first, second) = shelved.into_disks();
            (first, second, Ok(()))
        }
        Err(refused) => {
            let error = refused.error;
            let (first, second) = refused.shelved.into_disks();
            (first, second, Err(error))
        }
    }
}

/// Whether the only partition, of 4,096 bytes, holds these blocks, and a filemark where there are no bytes.
pub fn holds(
    alloc: Global,
    cartridge: &mut Cartridge<MemDisk>,
    objects: &[&[u8]],
) -> Result<bool, CartridgeError> {
    let mut block = Vec::new(alloc);
    let mut at = 0u32;
    for object in objects {
        block.clear();
        match cartridge.kind_at(0, at) {
            Some(Kind::Block) => cartridge.fetch(0, at, &mut block)?,
            Some(Kind::Mark) => {}
            None => return Ok(false),
        }
        if block.as_slice() != *object {
            return Ok(false);
        }
        at = at.saturating_add(1);
    }
    let capacities = (cartridge.capacity(0), cartridge.capacity(1));
    Ok(cartridge.count(0) == at && capacities == (4_096, 0))
}

// The number of eight bytes at that place, if it is there.
fn number_at(bytes: &[u8], at: usize) -> Option<u64> {
    let mut number = 0u64;
    for i in 0..8 {
        let byte = bytes.get(at.saturating_add(i))?;
        number = number.wrapping_mul(256).wrapping_add(u64::from(*byte));
    }
    Some(number)
}

// How often a side was reclaimed: the number after the capacities, if the byte of their count says so.
fn epoch_on(bytes: &[u8], parts: PartNo) -> Option<u64> {
    match bytes.get(10) {
        Some(0x81..=0x84) => number_at(
            bytes,
            (parts as usize).saturating_mul(8).saturating_add(27),
        ),
        _ => Some(0),
    }
}

/// Which side counts, how often it was reclaimed, and the length of its disk.
pub fn side_of(cartridge: &Cartridge<MemDisk>) -> (Which, Option<u64>, usize) {
    let bytes = cartridge.disk().bytes();
    (
        cartridge.which(),
        epoch_on(bytes, cartridge.parts()),
        bytes.len(),
    )
}

/// How often the cartridge on two disks was reclaimed, and whether it holds these objects.
pub fn found(
    alloc: Global,
    pair: Pair,
    objects: &[&[u8]],
) -> Result<(Option<u64>, bool), CartridgeError> {
    let mut cartridge = opened(alloc, pair.0, pair.1)?;
    let (_, epoch, _) = side_of(&cartridge);
    Ok((epoch, holds(alloc, &mut cartridge, objects)?))
}
