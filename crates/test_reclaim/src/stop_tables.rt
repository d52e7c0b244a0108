//! Pairs of images that are reclaimed, and their contents.
use crate::rows::{BEFORE, ONCE_AND_ON, ONCE_CLOSED, PAIRED, PREPARED, TWICE_AND_ON};
use crate::samples::Pair;
use std::alloc::Global;
use tape_disk::MemDisk;
use vtl_base::NoMemory;

/// A pair to be reclaimed.
pub struct Work {
    /// The first image, and the second one.
    pub first: &'static [u8],
    pub second: &'static [u8],
    /// The blocks of its tape; a filemark where there are no bytes.
    pub objects: &'static [&'static [u8]],
    /// How often it was reclaimed.
    pub epoch: u64,
    /// How many calls of both disks a reclaim makes.
    pub calls: u64,
}

/// Finding which side counts takes a sync of each disk and a read of the first, and of the second where the
/// pair gate is open. Opening that side takes a sync, two reads of its head, one of each gate and one of each
/// body. Then the pair gate is read; where it is closed, the second disk is cut, written and synced. The gate
/// is read again, and where it is closed, written and synced. The gate of the other side is read, and where
/// it is open, written and synced. The copy takes a cut, a write of its head, of its frame and of a closed
/// gate, a read of each block, and a sync; and its gate a write and a sync.
pub static WORKS: &'static [Work] = &[
    // A first reclaim: the second disk has any bytes, or a side that would count if both were read.
    Work {
        first: BEFORE,
        second: b"old bytes of another file",
        objects: &[b"x"],
        epoch: 0,
        calls: 29,
    },
    Work {
        first: BEFORE,
        second: ONCE_AND_ON,
        objects: &[b"x"],
        epoch: 0,
        calls: 29,
    },
    // One that was stopped after the pair gate.
    Work {
        first: PAIRED,
        second: PREPARED,
        objects: &[b"x"],
        epoch: 0,
        calls: 25,
    },
    // A second reclaim. The first side has an older volume.
    Work {
        first: PAIRED,
        second: ONCE_AND_ON,
        objects: &[b"x", b"y"],
        epoch: 1,
        calls: 26,
    },
    // A third reclaim. The second side has an older volume, and is open; or closed, where a reclaim was
    // stopped.
    Work {
        first: TWICE_AND_ON,
        second: ONCE_AND_ON,
        objects: &[b"x", b"y", b"", b""],
        epoch: 2,
        calls: 26,
    },
    Work {
        first: TWICE_AND_ON,
        second: ONCE_CLOSED,
        objects: &[b"x", b"y", b"", b""],
        epoch: 2,
        calls: 24,
    },
];

impl Work {
    /// The disks before it.
    pub fn pair(&self, alloc: Global) -> Result<Pair, NoMemory> {
        Ok((
            MemDisk::from_bytes(alloc, self.first)?,
            MemDisk::from_bytes(alloc, self.second)?,
        ))
    }
}
