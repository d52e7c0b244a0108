//! Spells the record of a change, with its sums (own). Numbers are big-endian.
//!
//! | Place | Content |
//! |---|---|
//! | 0 to 9 | kind, partition, object, number, as on a side without sums |
//! | 10 to 13 | the sum of the block: over its bytes alone; 0 where there is no block |
//! | 14 to 17 | the sum of the head: over the seed (8), the place of byte 0 in the file (8), and bytes 0 to 13 |
//! | 18 on | the bytes of the block, if there is one |
//!
//! The seed is the same for all records of a frame: the sum of the side's heading (4), which is over its epoch too, and
//! the length of the frame's body (4). Each sum is a CRC-32C.
ghost use Rattle.std.specs.Prelude.{◌≡◌, ◌≤◌, ◌++◌, ◌==◌, length, take};
ghost use Rattle.std.specs.Int.{to_be_bytes, w32};
ghost use Rattle.change_records.specs.Records.{IsRecord};
ghost use Rattle.crc32c.specs.Crc.{crc32c};
ghost use Rattle.vtl_base.specs.declared.layout.TheConstants.{RECORD_HEAD, SEALED_HEAD};
ghost use Rattle.sealed_records.specs.Sealed.{IsSum, block_of, head_sum, laid_with, spell_laid};
ghost use Rattle.sealed_records.specs.Frames.{seed_of};

use byteorder::{BigEndian, ByteOrder};
use change_records::spelled_parts;
use crc32c::{Sum, sum_of};
use volume_core::Change;
use vtl_base::layout::{HEAD_SUM, RECORD_HEAD, SEALED_HEAD};

/// The spelling of a change at byte `place` of the file, in a frame with this seed, in two parts: the 18 bytes of its
/// record's head, and the bytes of its block, borrowed and not copied; there are none for filemarks and for an erase.
/// `sum` is what the head gives as the sum of the block, right or not: a copy has that of the record it was made of.
pub fn sealed_parts(change: &Change, sum: u32, seed: u64, place: u64) -> ([u8; SEALED_HEAD], &[u8])
    requires record { IsRecord change.now }
    requires sum { IsSum change.now sum }
    ensures { result.0 ++ result.1.now ≡ spell_laid seed place (laid_with change.now sum) }
{
    let (plain, block) = spelled_parts(change);
    (sealed_head(&plain, sum, seed, place), block)
}

/// The sum of the block of a change; that of no bytes where it has none.
pub fn block_sum(change: &Change) -> u32
    ensures { result ≡ crc32c (block_of change.now) }
{
    match change {
        Change::Put { block, .. } => sum_of(block.as_slice()),
        Change::Marks { .. } | Change::Erase { .. } => sum_of(&[]),
    }
}

/// Whether a block that was read has the sum that the head of its record gives.
pub fn is_sound(block: &[u8], sum: u32) -> bool
    ensures { result ≡ (crc32c block.now == sum) }
{
    sum_of(block) == sum
}

/// The seed of the records of a frame, whose body has `length` bytes, on a side whose heading has this sum.
pub fn frame_seed(heading_sum: u32, length: u32) -> u64
    ensures { result ≡ seed_of heading_sum length }
{
    heading_sum as u64 * 0x1_0000_0000 + length as u64
}

// A head of eighteen bytes: these ten, the sum of the block, and the sum of the head.
fn sealed_head(plain: &[u8; RECORD_HEAD], sum: u32, seed: u64, place: u64) -> [u8; SEALED_HEAD]
    ensures { result ≡ (plain.now ++ to_be_bytes w32 sum)
        ++ to_be_bytes w32 (head_sum seed place (plain.now ++ to_be_bytes w32 sum)) }
{
    let mut head = [0; SEALED_HEAD];
    head[..RECORD_HEAD].copy_from_slice(plain);
    BigEndian::write_u32(&mut head[RECORD_HEAD..], sum);
    let own = sum_at(seed, place, &head[..HEAD_SUM]);
    BigEndian::write_u32(&mut head[HEAD_SUM..], own);
    head
}

// The sum of a head with these fields.
pub(crate) fn sum_at(seed: u64, place: u64, fields: &[u8]) -> u32
    ensures { result ≡ head_sum seed place fields.now }
{
    let mut sum = Sum::new();
    sum.update(&seed.to_be_bytes());
    sum.update(&place.to_be_bytes());
    sum.update(fields);
    sum.finish()
}
