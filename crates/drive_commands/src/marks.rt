//! WRITE FILEMARKS.
ghost use Rattle.std.specs.Prelude.{◌≡◌, [], false};
ghost use Rattle.drive_commands.specs.State.{IsPositioned, mounted};
ghost use Rattle.drive_commands.specs.Marks.{MarksWork};
ghost use Rattle.drive_commands.specs.Inner.Carries.{Carries, IsOnWorkingMedium, Tallies};

use crate::appends::append;
use crate::faults::Fault;
use crate::storing::store_pending;
use positioning::Pos;
use scsi_sense::Reply;
use std::alloc::Global;
use volume_core::{Change, Medium};
use vtl_base::Bytes;

/// Writes `count` filemarks at the position, and moves the position past them, to the end of data (SSC-4, WRITE
/// FILEMARKS(6)). Unless `immediate` is true, all that is pending is stored before the answer. A `count` of 0 writes
/// nothing; what is pending is still stored, unless `immediate` is true.
pub fn write_marks<M: Medium>(
    alloc: Global,
    medium: &mut M,
    position: &mut Pos,
    accepted: &mut u64,
    count: u32,
    immediate: bool,
) -> Result<Reply, Fault>
    requires settled { immediate ≡ false → M.below.at_hand medium.old }
    requires room { (count ≡ 0 → ⊥) → M.alone medium.old 0 ≡ false → M.below.at_hand medium.old }
    requires ready { IsOnWorkingMedium (mounted (M.state medium.old) position.old) }
    ensures carries { Tallies M.state M.below
        (MarksWork count immediate)
        medium.old position.old accepted.old result medium.new position.new accepted.new }
    ensures on { IsPositioned (M.state medium.new) position.new }
{
    if count == 0 {
        return write_none(alloc, medium, position, immediate);
    }
    let change = Change::Marks {
        part: position.part,
        at: position.obj,
        count,
    };
    append(
        alloc,
        medium,
        position,
        accepted,
        change,
        Some(count),
        !immediate,
    )
    .answer
}

// Writes no filemarks. What is pending is stored, unless `immediate` is true.
fn write_none<M: Medium>(
    alloc: Global,
    medium: &mut M,
    position: &Pos,
    immediate: bool,
) -> Result<Reply, Fault>
    requires settled { immediate ≡ false → M.below.at_hand medium.old }
    requires ready { IsOnWorkingMedium (mounted (M.state medium.old) position.now) }
    ensures carries { Carries M.state M.below
        (MarksWork 0 immediate)
        medium.old position.now result [] medium.new position.now }
    ensures on { IsPositioned (M.state medium.new) position.now }
{
    if immediate {
        return Ok(Reply::good(Bytes::new(alloc)));
    }
    store_pending(medium)?;
    Ok(Reply::good(Bytes::new(alloc)))
}
