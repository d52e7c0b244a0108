//! WRITE.
ghost use Rattle.std.specs.Prelude.{◌≡◌, ◌≤◌, [], false, length};
ghost use Rattle.vtl_base.specs.declared.limits.TheConstants.{MAX_BLOCK};
ghost use Rattle.drive_commands.specs.State.{IsPositioned, mounted};
ghost use Rattle.drive_commands.specs.Write.{WriteWork};
ghost use Rattle.drive_commands.specs.Data.{data_left};
ghost use Rattle.drive_commands.specs.Inner.Appending.{restored};
ghost use Rattle.drive_commands.specs.Inner.Carries.{IsOnWorkingMedium, Tallies};

use crate::appends::append;
use crate::faults::Fault;
use positioning::Pos;
use scsi_sense::{Reply, Sense};
use std::alloc::Global;
use volume_core::{Change, Demand, Medium, refusal_for};
use vtl_base::Bytes;

/// Writes the bytes in `sent` as one block at the position, and moves the position past the block, to the end of data
/// (SSC-4, WRITE(6)). In unbuffered mode the block is stored before the answer. A WRITE of 0 bytes does nothing. A
/// medium that accepts the block takes the bytes, and `sent` is then empty; else `sent` still holds them.
pub fn write<M: Medium>(
    alloc: Global,
    medium: &mut M,
    position: &mut Pos,
    accepted: &mut u64,
    buffered: bool,
    sent: &mut Bytes,
) -> Result<Reply, Fault>
    requires settled { (sent.old ≡ [] → ⊥) → buffered ≡ false → M.below.at_hand medium.old }
    requires room { (sent.old ≡ [] → ⊥) → M.alone medium.old (length sent.old) ≡ false
        → M.below.at_hand medium.old }
    requires ready { IsOnWorkingMedium (mounted (M.state medium.old) position.old) }
    requires short { length sent.old ≤ MAX_BLOCK }
    ensures carries { (tallies : Tallies M.state M.below
        (WriteWork buffered sent.old)
        medium.old position.old accepted.old result medium.new position.new accepted.new)
        × (sent.new ≡ data_left tallies.made sent.old) }
    ensures on { IsPositioned (M.state medium.new) position.new }
{
    if sent.is_empty() {
        return Ok(Reply::good(Bytes::new(alloc)));
    }
    let amount = sent.len() as u32;
    let change = Change::Put {
        part: position.part,
        at: position.obj,
        block: sent.take(),
    };
    let appended = append(
        alloc,
        medium,
        position,
        accepted,
        change,
        Some(amount),
        !buffered,
    );
    restore(sent, appended.returned);
    appended.answer
}

// Puts the bytes of a block that was returned back into `sent`.
fn restore(sent: &mut Bytes, returned: Option<Change>)
    ensures { sent.new ≡ restored returned sent.old }
{
    match returned {
        Some(Change::Put { block, .. }) => *sent = block,
        Some(Change::Marks { .. }) | Some(Change::Erase { .. }) | None => {}
    }
}

/// Writes a copy of the bytes in `sent`, as `write` does. A block that does not fit the partition, or the side, is not
/// copied.
pub fn write_copy<M: Medium>(
    alloc: Global,
    medium: &mut M,
    position: &mut Pos,
    accepted: &mut u64,
    buffered: bool,
    sent: &[u8],
) -> Result<Reply, Fault>
    requires settled { (sent.now ≡ [] → ⊥) → buffered ≡ false → M.below.at_hand medium.old }
    requires room { (sent.now ≡ [] → ⊥) → M.alone medium.old (length sent.now) ≡ false
        → M.below.at_hand medium.old }
    requires ready { IsOnWorkingMedium (mounted (M.state medium.old) position.old) }
    requires short { length sent.now ≤ MAX_BLOCK }
    ensures carries { Tallies M.state M.below
        (WriteWork buffered sent.now)
        medium.old position.old accepted.old result medium.new position.new accepted.new }
    ensures on { IsPositioned (M.state medium.new) position.new }
{
    if sent.is_empty() {
        return Ok(Reply::good(Bytes::new(alloc)));
    }
    let amount = sent.len() as u32;
    let demand = Demand::block(sent.len());
    match refusal_for(medium, position.part, position.obj, demand) {
        Some(_) => {
            let sense = Sense::volume_overflow(Some(amount));
            return Ok(Reply::check(sense, Bytes::new(alloc)));
        }
        None => {}
    }
    if !medium.has_room_for(amount) {
        return Err(Fault::SideFull {
            residue: Some(amount),
        });
    }
    let mut copy = Bytes::from_slice(alloc, sent)?;
    write(alloc, medium, position, accepted, buffered, &mut copy)
}
