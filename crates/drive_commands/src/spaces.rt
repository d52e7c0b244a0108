//! SPACE.
ghost use Rattle.std.specs.Prelude.{◌≡◌, [], false};
ghost use Rattle.drive_commands.specs.State.{IsPositioned, mounted};
ghost use Rattle.drive_commands.specs.Space.{SpaceWork, is_over_nothing, space_reply};
ghost use Rattle.drive_commands.specs.Inner.Carries.{Carries, IsOnWorkingMedium};

use crate::faults::Fault;
use crate::storing::store_pending;
use positioning::{Moved, Pos, Stop};
use scsi_sense::{Reply, Sense};
use std::alloc::Global;
use volume_core::Medium;
use vtl_base::{Bytes, SpaceCode};

/// Stores what is pending, and moves the position as `code` says: over `count` blocks or filemarks, backward where
/// `count` is below 0, or to the end of data (SSC-4, SPACE(6)). A motion that ends early is reported. A SPACE over 0
/// blocks or 0 filemarks does nothing.
pub fn space<M: Medium>(
    alloc: Global,
    medium: &mut M,
    position: &mut Pos,
    code: SpaceCode,
    count: i32,
) -> Result<Reply, Fault>
    requires hand { is_over_nothing code count ≡ false → M.below.at_hand medium.old }
    requires ready { IsOnWorkingMedium (mounted (M.state medium.old) position.old) }
    ensures carries { Carries M.state M.below
        (SpaceWork code count)
        medium.old position.old result [] medium.new position.new }
    ensures on { IsPositioned (M.state medium.new) position.new }
{
    if is_over_nothing(code, count) {
        return Ok(Reply::good(Bytes::new(alloc)));
    }
    store_pending(medium)?;
    let moved = positioning::space(medium, *position, code, count);
    *position = moved.pos;
    Ok(space_reply(alloc, moved))
}

/// Whether a SPACE with `code` and `count` moves over 0 blocks or 0 filemarks.
pub fn is_over_nothing(code: SpaceCode, count: i32) -> bool
    ensures { result ≡ is_over_nothing code count }
{
    match code {
        SpaceCode::EndOfData => false,
        SpaceCode::Blocks | SpaceCode::Filemarks => count == 0,
    }
}

fn space_reply(alloc: Global, moved: Moved) -> Reply
    ensures { result ≡ space_reply moved.stop moved.left }
{
    let none = Bytes::new(alloc);
    match moved.stop {
        Stop::Done => Reply::good(none),
        Stop::AtMark => Reply::check(Sense::filemark_detected(moved.left), none),
        Stop::AtEnd => Reply::check(Sense::end_of_data(Some(moved.left)), none),
        Stop::AtStart => Reply::check(Sense::beginning(moved.left), none),
    }
}
