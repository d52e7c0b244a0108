//! Changes of a volume, and why one is refused.
ghost use Rattle.std.specs.Prelude.{◌≡◌, ◌<◌, ◌^◌, ℕ, List, IfOk, OnErr, length};
ghost use Rattle.volume_core.specs.declared.changes.Change.TheVariants.{Put, Marks, Erase};
ghost use Rattle.volume_core.specs.Volume.{part_of, staying_of, demand_of, HasLongBlock};
ghost use Rattle.volume_core.specs.Medium.{frame_size};

use std::alloc::Global;
use thiserror::Error;
use vtl_base::layout::FRAMED_HEAD;
use vtl_base::limits::{MAX_BLOCK, OBJECT_COST};
use vtl_base::{Bytes, NoMemory, ObjNo, PartNo};

/// A change of one partition, as one command makes it. It cuts the partition after its first `at` objects and, in the
/// same step, may append one block or a number of filemarks.
#[derive(Drop)]
pub enum Change {
    /// Cuts after the first `at` objects, and appends this block (SSC-4, WRITE).
    Put {
        part: PartNo,
        at: ObjNo,
        block: Bytes,
    },
    /// Cuts after the first `at` objects, and appends this many filemarks (SSC-4, WRITE FILEMARKS).
    Marks {
        part: PartNo,
        at: ObjNo,
        count: u32,
    },
    /// Cuts after the first `at` objects (SSC-4, ERASE).
    Erase {
        part: PartNo,
        at: ObjNo,
    },
}

/// Why a change is refused. The first of these causes that holds is reported, and nothing has changed (own).
#[derive(Clone, Copy, PartialEq, Eq, Debug, Error)]
pub enum Refusal {
    /// The volume has no such partition.
    #[error("no such partition")]
    NoPartition,
    /// The partition has fewer objects than the change's `at`.
    #[error("past the end of data")]
    PastEnd,
    /// After the change, the partition's objects would take more bytes than its capacity, or there would be more than
    /// 16,000,000 of them.
    #[error("no room in the partition")]
    NoRoom,
    /// The block has no bytes or more than 1,048,576 bytes, or the number of filemarks is 0.
    #[error("the block is too long or empty, or there is no mark")]
    TooLong,
}

impl Change {
    /// Returns a copy of the change, with a copy of its block. It allocates memory, and may return `NoMemory`, only for
    /// a block of more than 24 bytes.
    pub fn copy(&self, alloc: Global) -> Result<Change, NoMemory>
        ensures copy { IfOk result (λ copy. copy ≡ self.now) }
        ensures memory { OnErr result (HasLongBlock self.now) }
    {
        match self {
            Change::Put { part, at, block } => Ok(Change::Put {
                part: *part,
                at: *at,
                block: Bytes::from_slice(alloc, block.as_slice())?,
            }),
            Change::Marks { part, at, count } => Ok(Change::Marks {
                part: *part,
                at: *at,
                count: *count,
            }),
            Change::Erase { part, at } => Ok(Change::Erase {
                part: *part,
                at: *at,
            }),
        }
    }

    /// How many bytes of a side (the bytes of one file) the change takes as a frame of its own (own).
    pub fn frame_size(&self) -> u64
        ensures { result ≡ frame_size self.now }
    {
        match self {
            Change::Put { block, .. } => FRAMED_HEAD + block.len() as u64,
            Change::Marks { .. } | Change::Erase { .. } => FRAMED_HEAD,
        }
    }

    /// The number of the partition that is changed (own).
    pub fn part(&self) -> PartNo
        ensures { result ≡ part_of self.now }
    {
        match self {
            Change::Put { part, .. } | Change::Marks { part, .. } | Change::Erase { part, .. } =>
                *part,
        }
    }

    /// How many objects of the partition stay: its first `at` objects (own).
    pub fn staying(&self) -> ObjNo
        ensures { result ≡ staying_of self.now }
    {
        match self {
            Change::Put { at, .. } | Change::Marks { at, .. } | Change::Erase { at, .. } => *at,
        }
    }

    /// What the change asks of its partition (own).
    pub fn demand(&self) -> Demand
        ensures { result ≡ demand_of self.now }
    {
        match self {
            Change::Put { block, .. } => Demand::block(block.len()),
            Change::Marks { count, .. } => Demand::marks(*count),
            Change::Erase { .. } => Demand::nothing(),
        }
    }
}

/// What a change asks of its partition, apart from its place: as much as its refusal depends on (own).
#[derive(Clone, Copy)]
pub struct Demand {
    // How many objects are added.
    pub(crate) objects: u32,
    // How many bytes of the capacity they take.
    pub(crate) bytes: u64,
    // Whether a block has 1 to 1,048,576 bytes, and there is at least one filemark.
    pub(crate) formed: bool,
}

impl Demand {
    /// That of a block of this many bytes (SSC-4, WRITE; limits own).
    pub fn block(size: usize) -> Demand
        requires { size < 2 ^ 63 }
        ensures { (part at : ℕ) (block : List ℕ) → length block ≡ size → result ≡ demand_of (Put part at block) }
    {
        Demand {
            objects: 1,
            bytes: size as u64 + OBJECT_COST,
            formed: 1 <= size && size <= MAX_BLOCK as usize,
        }
    }

    /// That of this many filemarks (SSC-4, WRITE FILEMARKS; limits own).
    pub fn marks(count: u32) -> Demand
        ensures { (part at : ℕ) → result ≡ demand_of (Marks part at count) }
    {
        Demand {
            objects: count,
            bytes: count as u64 * OBJECT_COST,
            formed: count > 0,
        }
    }

    /// That of an erase, which adds nothing (SSC-4, ERASE).
    pub fn nothing() -> Demand
        ensures { (part at : ℕ) → result ≡ demand_of (Erase part at) }
    {
        Demand {
            objects: 0,
            bytes: 0,
            formed: true,
        }
    }
}
