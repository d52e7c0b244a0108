//! Records: how the changes of a frame's body are spelled, format 1 (own). Numbers are big-endian. A body is one record
//! after another.
//!
//! | Place | Content |
//! |---|---|
//! | 0 | kind: 01h a block, 02h marks, 03h an erase |
//! | 1 | the partition |
//! | 2 to 5 | how many of its objects stay |
//! | 6 to 9 | of a block its length in bytes, 1 to 1,048,576; of marks their count, 1 to 16,000,000; of an erase 0 |
//! | 10 on | the bytes of the block, if there is one |
ghost use Rattle.std.specs.Prelude.{◌≡◌, ◌≤◌, ◌<◌, ◌-◌, ◌^◌, IfOk, IfSome, IfNone, length};
ghost use Rattle.change_records.specs.Records.{BeginsWithRecord, IsAtFront, IsRecord, change_in, record_of, size_of};
ghost use Rattle.volume_core.specs.Volume.{demand_of};
ghost use Rattle.change_records.specs.Records.{record_staying, outlined, record_part};
ghost use Rattle.change_records.specs.Inner.Decoded.{block_decoded, erase_decoded, head_decoded, marks_decoded, decoded};
ghost use Rattle.vtl_base.specs.declared.layout.TheConstants.{RECORD_HEAD};

use byteorder::{BigEndian, ByteOrder};
use std::alloc::{AllocError, Global};
use thiserror::Error;
use volume_core::{Change, Demand};
use vtl_base::layout::{BLOCK, ERASE, MARKS, RECORD_HEAD, RECORD_NUMBER, RECORD_OBJECT};
use vtl_base::limits::{MAX_BLOCK, MAX_OBJECTS};
use vtl_base::{Bytes, NoMemory, ObjNo, PartNo};

/// A record without the bytes of its block, which stay where they are, directly after the record's head of 10 bytes.
#[derive(Clone, Copy, PartialEq, Eq, Debug)]
pub enum Record {
    /// Cuts the partition after its first `at` objects, and appends a block of `length` bytes.
    Put {
        part: PartNo,
        at: ObjNo,
        length: u32,
    },
    /// Cuts the partition after its first `at` objects, and appends `count` filemarks.
    Marks {
        part: PartNo,
        at: ObjNo,
        count: u32,
    },
    /// Cuts the partition after its first `at` objects.
    Erase {
        part: PartNo,
        at: ObjNo,
    },
}

/// Why bytes were not decoded as changes.
#[derive(Clone, Copy, PartialEq, Eq, Debug, Error)]
pub enum RecordError {
    /// There are only whole records before byte `at`. More bytes follow, but they do not begin with a whole record.
    #[error("bad record at {at}")]
    BadRecord { at: usize },
    /// Memory ran out.
    #[error("out of memory")]
    NoMemory,
}

impl From<AllocError> for RecordError {
    ghost use Rattle.std.specs.Prelude.{◌≡◌};
    ghost use Rattle.change_records.specs.declared.records.RecordError.TheVariants as Errors;

    ghost from_gives = { λ _ error. error ≡ Errors.NoMemory };

    fn from(_: AllocError) -> Self {
        RecordError::NoMemory
    }
}

impl From<NoMemory> for RecordError {
    ghost use Rattle.std.specs.Prelude.{◌≡◌};
    ghost use Rattle.change_records.specs.declared.records.RecordError.TheVariants as Errors;

    ghost from_gives = { λ _ error. error ≡ Errors.NoMemory };

    fn from(_: NoMemory) -> Self {
        RecordError::NoMemory
    }
}

impl Record {
    /// The record of a change: all of the change but the bytes of its block.
    pub fn of(change: &Change) -> Self
        requires { IsRecord change.now }
        ensures { result ≡ record_of change.now }
    {
        match change {
            Change::Put { part, at, block } => Record::Put {
                part: *part,
                at: *at,
                length: block.len() as u32,
            },
            Change::Marks { part, at, count } => Record::Marks {
                part: *part,
                at: *at,
                count: *count,
            },
            Change::Erase { part, at } => Record::Erase {
                part: *part,
                at: *at,
            },
        }
    }

    /// The record at the beginning of `bytes`; None where they do not begin with a whole record, its block included.
    /// Allocates nothing, and reads at most 10 bytes.
    pub fn read(bytes: &[u8]) -> Option<Self>
        ensures found { IfSome result (λ item. IsAtFront item bytes.now) }
        ensures none { IfNone result (BeginsWithRecord bytes.now → ⊥) }
    {
        decoded(bytes)
    }

    /// The length of the record in bytes, with its block.
    pub fn size(self) -> usize
        ensures { result ≡ size_of self }
    {
        match self {
            Record::Put { length, .. } => RECORD_HEAD + length as usize,
            Record::Marks { .. } | Record::Erase { .. } => RECORD_HEAD,
        }
    }

    /// The number of the partition that the record changes.
    pub fn part(self) -> PartNo
        ensures { result ≡ record_part self }
    {
        match self {
            Record::Put { part, .. } | Record::Marks { part, .. } | Record::Erase { part, .. } => {
                part
            }
        }
    }

    /// How many of the partition's first objects stay: the record's `at`.
    pub fn staying(self) -> ObjNo
        ensures { result ≡ record_staying self }
    {
        match self {
            Record::Put { at, .. } | Record::Marks { at, .. } | Record::Erase { at, .. } => at,
        }
    }

    // The change of a record at the start of these bytes, with a copy of its block.
    pub(crate) fn change(self, alloc: Global, bytes: &[u8]) -> Result<Change, NoMemory>
        requires { size_of self ≤ length bytes.now }
        ensures { IfOk result (λ change. change ≡ change_in self bytes.now) }
    {
        Ok(match self {
            Record::Put { part, at, length } => {
                let end = RECORD_HEAD + length as usize;
                let block = Bytes::from_slice(alloc, &bytes[RECORD_HEAD..end])?;
                Change::Put { part, at, block }
            }
            Record::Marks { part, at, count } => Change::Marks { part, at, count },
            Record::Erase { part, at } => Change::Erase { part, at },
        })
    }

    /// What the record's change asks of its partition.
    pub fn demand(self) -> Demand
        ensures { result ≡ demand_of (outlined self) }
    {
        match self {
            Record::Put { length, .. } => Demand::block(length as usize),
            Record::Marks { count, .. } => Demand::marks(count),
            Record::Erase { .. } => Demand::nothing(),
        }
    }
}

// The record at the start of the bytes, by its head and by how many bytes there are.
fn decoded(bytes: &[u8]) -> Option<Record>
    ensures { result ≡ decoded bytes.now }
{
    if bytes.len() < RECORD_HEAD {
        return None;
    }
    head_decoded(bytes, bytes.len() - RECORD_HEAD)
}

// The record with this head, if the head is valid and the `there` bytes after it suffice for the block.
pub(crate) fn head_decoded(head: &[u8], there: usize) -> Option<Record>
    requires { RECORD_HEAD ≤ length head.now }
    ensures { result ≡ head_decoded head.now there }
{
    let part = head[1];
    let at = BigEndian::read_u32(&head[RECORD_OBJECT..]);
    let number = BigEndian::read_u32(&head[RECORD_NUMBER..]);
    match head[0] {
        BLOCK => block_decoded(part, at, number, there),
        MARKS => marks_decoded(part, at, number),
        ERASE => erase_decoded(part, at, number),
        _ => None,
    }
}

// The record of a block of 1 to 1,048,576 bytes, all of which are there; else None.
fn block_decoded(part: PartNo, at: ObjNo, length: u32, there: usize) -> Option<Record>
    ensures { result ≡ block_decoded part at length there }
{
    if 1 <= length && length <= MAX_BLOCK && length as usize <= there {
        Some(Record::Put { part, at, length })
    } else {
        None
    }
}

// The record of 1 to 16,000,000 filemarks; None for any other count.
fn marks_decoded(part: PartNo, at: ObjNo, count: u32) -> Option<Record>
    ensures { result ≡ marks_decoded part at count }
{
    if 1 <= count && count <= MAX_OBJECTS {
        Some(Record::Marks { part, at, count })
    } else {
        None
    }
}

// The record of an erase; None where its number is not 0.
fn erase_decoded(part: PartNo, at: ObjNo, number: u32) -> Option<Record>
    ensures { result ≡ erase_decoded part at number }
{
    if number == 0 {
        Some(Record::Erase { part, at })
    } else {
        None
    }
}
