//! READ.
ghost use Rattle.std.specs.Prelude.{◌≡◌, ◌≤◌, [], false, true, Some, length, nat_lt, IfOk};
ghost use Rattle.vtl_base.specs.declared.limits.TheConstants.{MAX_BLOCK};
ghost use Rattle.volume_core.specs.declared.objects.Kind.TheVariants as Kinds;
ghost use Rattle.volume_core.specs.Volume.{kind_at, block_at};
ghost use Rattle.vtl_base.specs.Below.{Advances};
ghost use Rattle.volume_core.specs.Medium.{volume_of};
ghost use Rattle.volume_core.specs.Stores.{Stores};
ghost use Rattle.drive_commands.specs.State.{IsPositioned, mounted};
ghost use Rattle.drive_commands.specs.Read.{ReadWork, GivesObject, block_reply};
ghost use Rattle.drive_commands.specs.Execute.{is_device_fault};
ghost use Rattle.drive_commands.specs.Inner.Carries.{Carries, IsOnWorkingMedium};
ghost use Rattle.drive_commands.specs.Inner.Fetching.{FetchesBlock};

use crate::faults::Fault;
use crate::storing::store_pending;
use positioning::Pos;
use scsi_sense::{Reply, Sense};
use std::alloc::Global;
use volume_core::{Kind, Medium, MediumError};
use vtl_base::{Bytes, ObjNo, PartNo};

/// Stores what is pending, then reads the object at the position and moves the position past it (SSC-4, READ(6)). At
/// most `length` bytes of a block are returned. A block whose length is not `length` bytes is reported, unless
/// `suppress_length` is true. A filemark is reported, and so is the end of data, where the position stays. A READ of 0
/// bytes does nothing.
pub fn read<M: Medium>(
    alloc: Global,
    medium: &mut M,
    position: &mut Pos,
    length: u32,
    suppress_length: bool,
) -> Result<Reply, Fault>
    requires hand { nat_lt 0 length ≡ true → M.below.at_hand medium.old }
    requires ready { IsOnWorkingMedium (mounted (M.state medium.old) position.old) }
    ensures carries { Carries M.state M.below
        (ReadWork (M.below.honest medium.old) suppress_length length)
        medium.old position.old result [] medium.new position.new }
    ensures on { IsPositioned (M.state medium.new) position.new }
{
    if length == 0 {
        return Ok(Reply::good(Bytes::new(alloc)));
    }
    store_pending(medium)?;
    give(alloc, medium, position, length, suppress_length)
}

// Reads the object at the position, once nothing is pending, and moves the position past it.
fn give<M: Medium>(
    alloc: Global,
    medium: &mut M,
    position: &mut Pos,
    length: u32,
    suppress_length: bool,
) -> Result<Reply, Fault>
    requires hand { M.below.at_hand medium.old }
    requires ready { IsOnWorkingMedium (mounted (M.state medium.old) position.old) }
    ensures carries { Carries M.state M.below
        (GivesObject (M.below.honest medium.old) suppress_length length)
        medium.old position.old result [] medium.new position.new }
    ensures on { IsPositioned (M.state medium.new) position.new }
{
    if position.obj >= medium.count(position.part) {
        return Ok(Reply::check(Sense::end_of_data(Some(length)), Bytes::new(alloc)));
    }
    match medium.kind_at(position.part, position.obj) {
        Some(Kind::Block) => {
            let block = fetch(alloc, medium, position.part, position.obj)?;
            position.obj += 1;
            Ok(block_reply(block, length, suppress_length))
        }
        Some(Kind::Mark) => {
            position.obj += 1;
            Ok(Reply::check(Sense::filemark_detected(length), Bytes::new(alloc)))
        }
        None => unreachable!(),
    }
}

// The bytes of a block.
fn fetch<M: Medium>(
    alloc: Global,
    medium: &mut M,
    part: PartNo,
    at: ObjNo,
) -> Result<Vec<u8>, Fault>
    requires hand { M.below.at_hand medium.old }
    requires awake { (M.state medium.old).awake ≡ true }
    requires works { (M.state medium.old).failed ≡ false }
    requires block { kind_at (volume_of (M.state medium.old)) part at ≡ Some Kinds.Block }
    ensures bytes { M.below.honest medium.old
        → IfOk result (λ block.
        block_at (volume_of (M.state medium.old)) part at ≡ Some block.items) }
    ensures bound { IfOk result (λ block. length block.items ≤ MAX_BLOCK) }
    ensures answer { FetchesBlock (M.state medium.old) result (M.state medium.new) }
    ensures stores { Stores (M.state medium.old) [] (M.state medium.new) }
    ensures advances { Advances M.below medium.old [] (is_device_fault result) medium.new }
{
    let mut block = Vec::new(alloc);
    match medium.fetch(part, at, &mut block) {
        Ok(()) => Ok(block),
        Err(MediumError::NoMemory) => Err(Fault::NoMemory),
        Err(MediumError::Device) => Err(Fault::Reading),
        Err(_) => unreachable!(),
    }
}

// GOOD with the bytes of the block that fit, or CHECK CONDITION with these bytes and the sense data of a wrong length.
fn block_reply(mut block: Vec<u8>, asked: u32, suppress_length: bool) -> Reply
    requires { length block.items ≤ MAX_BLOCK }
    ensures { result ≡ block_reply suppress_length asked block.items }
{
    let has = block.len() as u32;
    if asked == has {
        return Reply::good(Bytes::from_vec(block));
    }
    block.truncate(asked as usize);
    if suppress_length {
        return Reply::good(Bytes::from_vec(block));
    }
    Reply::check(
        Sense::incorrect_length(asked.wrapping_sub(has)),
        Bytes::from_vec(block),
    )
}
