//! A side of two frames, and what tests do with it.
use cartridge::{Cartridge, CartridgeError, Shelved};
use gate_journal::{Journal, JournalError};
use std::alloc::Global;
use std::test::Fail;
use tape_disk::{Disk, FuseDisk, MemDisk};
use test_known::Known;
use volume_core::{Change, Kind};
use vtl_base::{Bytes, DevFault, NoMemory, ObjNo, PartNo};

/// A cartridge `T00001L6` of one partition of 4,096 bytes, with two frames, whose gates are at 35, 55 and 70:
/// the block `hello`, and one mark after it.
pub const SIDE: &'static [u8; 71] = b"\xa5VTLCART1\0\x01T00001L6        \0\0\0\0\0\0\x10\0\
    \xa5\0\0\0\x0f\x01\0\0\0\0\0\0\0\0\x05hello\
    \xa5\0\0\0\x0a\x02\0\0\0\0\x01\0\0\0\x01\
    \0";

/// A store of drive 1 with no frames.
pub const STORE: &'static [u8; 28] = b"\xa5VTLRESV1\0\0DRIVE1          \0";

/// The first fault of a disk.
pub const FAULT: CartridgeError = CartridgeError::Device(DevFault { failures: 1 });

/// The first bytes of a side, with a value at one place.
pub type Image = (&'static [u8], usize, usize, u8);

/// The frames of a cartridge, the objects of its first partition and what they take, or why there is none.
pub type Extent = Result<(usize, ObjNo, u64), CartridgeError>;

/// What is found on a disk: the frames of its side, and the cartridge beside an empty second disk.
pub type Found = (Result<usize, JournalError>, Extent);

pub const NOT_OURS: Found = (Err(JournalError::NotOurs), Err(CartridgeError::NotOurs));

pub const NEW: Found = (Ok(0), Ok((0, 0, 0)));

pub const ONE: Found = (Ok(1), Ok((1, 1, 21)));

pub const TWO: Found = (Ok(2), Ok((2, 2, 37)));

pub const DAMAGED_35: Found = (
    Err(JournalError::Damaged { at: 35 }),
    Err(CartridgeError::Damaged { at: 35 }),
);

pub const DAMAGED_55: Found = (
    Err(JournalError::Damaged { at: 55 }),
    Err(CartridgeError::Damaged { at: 55 }),
);

pub const DAMAGED_70: Found = (
    Err(JournalError::Damaged { at: 70 }),
    Err(CartridgeError::Damaged { at: 70 }),
);

/// A disk with an image.
pub fn disk_of(alloc: Global, image: Image) -> Result<MemDisk, NoMemory> {
    let (bytes, len, place, value) = image;
    let mut changed = Vec::from_slice(alloc, &bytes[..bytes.len().min(len)])?;
    if let Some(byte) = changed.get_mut(place) {
        *byte = value;
    }
    MemDisk::from_bytes(alloc, changed.as_slice())
}

/// A block after the first objects of a partition.
pub fn block(alloc: Global, part: PartNo, at: ObjNo, bytes: &[u8]) -> Result<Change, NoMemory> {
    let block = Bytes::from_slice(alloc, bytes)?;
    Ok(Change::Put { part, at, block })
}

/// Some marks after the first objects of a partition.
pub fn marks(part: PartNo, at: ObjNo, count: u32) -> Change {
    Change::Marks { part, at, count }
}

/// The cartridge on two disks, or why they hold none.
pub fn opened<D: Disk + Drop>(
    alloc: Global,
    first: D,
    second: D,
) -> Result<Cartridge<D>, CartridgeError> {
    match Cartridge::open(alloc, Shelved::of(first, second)) {
        Ok(cartridge) => Ok(cartridge),
        Err(refused) => Err(refused.error),
    }
}

/// Frames, the objects of the first partition and what they take.
pub fn extent_of<D: Disk>(cartridge: &Cartridge<D>) -> (usize, ObjNo, u64) {
    let count = cartridge.count(0);
    (cartridge.frames(), count, cartridge.used(0, count))
}

fn extent_on(alloc: Global, disk: MemDisk) -> Extent {
    let cartridge = opened(alloc, disk, MemDisk::new(alloc))?;
    Ok(extent_of(&cartridge))
}

/// What is found on a disk.
pub fn found(alloc: Global, disk: MemDisk) -> Result<Found, NoMemory> {
    let frames = match Journal::open(alloc, disk.copy()?) {
        Ok(side) => Ok(side.frames()),
        Err(refused) => Err(refused.error),
    };
    Ok((frames, extent_on(alloc, disk)))
}

/// Stores a frame of one block.
pub fn store_block<D: Disk + Drop>(
    alloc: Global,
    known: &mut Known<D>,
    at: ObjNo,
    bytes: &[u8],
) -> Result<(), CartridgeError> {
    known.store(alloc, &[block(alloc, 0, at, bytes)?])
}

/// Stores a block and a mark, in one frame each.
pub fn store_side<D: Disk + Drop>(
    alloc: Global,
    known: &mut Known<D>,
) -> Result<(), CartridgeError> {
    store_block(alloc, known, 0, b"hello")?;
    known.store(alloc, &[marks(0, 1, 1)])
}

/// Stores a block in place of the mark of the side, and two marks after it.
pub fn store_two<D: Disk + Drop>(
    alloc: Global,
    known: &mut Known<D>,
) -> Result<(), CartridgeError> {
    known.store(alloc, &[block(alloc, 0, 1, b"abc")?, marks(0, 2, 2)])
}

/// A new cartridge with this capacity.
pub fn made(alloc: Global, capacity: u64) -> Result<Known<MemDisk>, Fail> {
    Known::made(alloc, MemDisk::new(alloc), MemDisk::new(alloc), &[capacity]).map_err(
        |_| Fail::from("not made"),
    )
}

/// An empty disk that never fails.
pub fn spare(alloc: Global) -> FuseDisk<MemDisk> {
    FuseDisk::new(MemDisk::new(alloc), u64::MAX)
}

/// Whether a block of the first partition has these bytes; without a block there are none.
pub fn has<D: Disk>(
    alloc: Global,
    cartridge: &mut Cartridge<D>,
    at: ObjNo,
    wanted: &[u8],
) -> Result<bool, CartridgeError> {
    let mut bytes = Vec::new(alloc);
    if cartridge.kind_at(0, at) == Some(Kind::Block) {
        cartridge.fetch(0, at, &mut bytes)?;
    }
    Ok(bytes.as_slice() == wanted)
}

/// Erases the first partition.
pub fn erased<D: Disk>(cartridge: &mut Cartridge<D>) -> Result<(), CartridgeError> {
    // Called for the proof: every cartridge has this partition.
    let _ = cartridge.parts();
    cartridge.store(&[Change::Erase { part: 0, at: 0 }])
}
