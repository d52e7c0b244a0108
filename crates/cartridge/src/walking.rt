//! Carrying out the records of a body on the index, as their bytes come.
ghost use Rattle.std.specs.Prelude.{◌≡◌, ◌+◌, ◌^◌, ◌<◌, ◌≤◌, ◌++◌, ℕ, List, length, IfOk};
ghost use Rattle.change_records.specs.Records.{size_of};
ghost use Rattle.object_index.specs.Places.{PlacedPart};
ghost use Rattle.cartridge.specs.Lying.{HasBlock};
ghost use Rattle.cartridge.specs.Inner.Reading.{EntersAt, IsBodyWalked, MayWalk, Walks};

use crate::placing::place_of;
use change_records::{Fed, Found, Record, RecordReader};
use object_index::Index;
use volume_core::ApplyError;
use vtl_base::NoMemory;

// Carries out on the index the records that end in `piece`, the next bytes of the body at `place`. Returns false where
// the body spells no changes, or one that does not apply, whatever follows these bytes.
pub(crate) fn walk_piece(
    index: &mut Index,
    reader: &mut RecordReader,
    place: u64,
    piece: &[u8],
) -> Result<bool, NoMemory>
    requires { MayWalk place (length piece.now) index.old reader.old }
    ensures { IfOk result (λ good. (start : List PlacedPart) (so_far : List ℕ) →
        IsBodyWalked start place so_far index.old reader.old →
        Walks good start place (so_far ++ piece.now) index.new reader.new) }
{
    let mut from = 0;
    while from < piece.len() {
        match reader.feed(&piece[from..]) {
            Fed::Found { item, at, taken } => {
                if !enter(index, item, place + at as u64)? {
                    return Ok(false);
                }
                from += taken;
            }
            Fed::More => return Ok(true),
            Fed::Bad { .. } => return Ok(false),
        }
    }
    Ok(true)
}

// Passes over the next `count` bytes of the body at `place`, all of them a block's, and carries out the block's record
// where they end it. Returns false where the change does not apply.
pub(crate) fn walk_over(
    index: &mut Index,
    reader: &mut RecordReader,
    place: u64,
    count: usize,
) -> Result<bool, NoMemory>
    requires unseen { count ≤ reader.old.left }
    requires may { MayWalk place count index.old reader.old }
    ensures { IfOk result (λ good. (start : List PlacedPart) (so_far bytes : List ℕ) →
        length bytes ≡ count → IsBodyWalked start place so_far index.old reader.old →
        Walks good start place (so_far ++ bytes) index.new reader.new) }
{
    if count == 0 {
        return Ok(true);
    }
    match reader.pass(count) {
        Some(Found { item, at }) => enter(index, item, place + at as u64),
        None => Ok(true),
    }
}

// Carries out on the index a record that begins at place `at`. Returns false where the record does not apply.
fn enter(index: &mut Index, item: Record, at: u64) -> Result<bool, NoMemory>
    requires sized { HasBlock item }
    requires fits { at + size_of item < 2 ^ 64 }
    ensures { IfOk result (λ good. EntersAt good item at index.old index.new) }
{
    match index.apply(item, place_of(item, at)) {
        Ok(()) => Ok(true),
        Err(ApplyError::Refused(_)) => Ok(false),
        Err(ApplyError::NoMemory) => Err(NoMemory),
    }
}
