//! LOCATE.
ghost use Rattle.std.specs.Prelude.{◌≡◌, ◌<◌, [], length, IfSome};
ghost use Rattle.volume_core.specs.Medium.{volume_of};
ghost use Rattle.drive_commands.specs.State.{IsPositioned, mounted};
ghost use Rattle.drive_commands.specs.Locate.{LocateWork, locate_reply};
ghost use Rattle.drive_commands.specs.Inner.Carries.{Carries, IsOnWorkingMedium};

use crate::faults::Fault;
use crate::storing::store_pending;
use positioning::{Pos, Stop};
use scsi_sense::{Reply, Sense};
use std::alloc::Global;
use volume_core::Medium;
use vtl_base::{Bytes, ObjNo, PartNo};

/// Stores what is pending, and moves the position to object number `object` of partition `part`, or of the position's
/// partition where `part` is None (SSC-4, LOCATE(10)). Where that partition has fewer than `object` objects, the
/// position moves to the end of data, and the reply reports this.
pub fn locate<M: Medium>(
    alloc: Global,
    medium: &mut M,
    position: &mut Pos,
    object: ObjNo,
    part: Option<PartNo>,
) -> Result<Reply, Fault>
    requires hand { M.below.at_hand medium.old }
    requires ready { IsOnWorkingMedium (mounted (M.state medium.old) position.old) }
    requires part { IfSome part (λ number. number < length (volume_of (M.state medium.old))) }
    ensures carries { Carries M.state M.below
        (LocateWork object part)
        medium.old position.old result [] medium.new position.new }
    ensures on { IsPositioned (M.state medium.new) position.new }
{
    store_pending(medium)?;
    let start = Pos {
        part: part.unwrap_or(position.part),
        obj: 0,
    };
    let moved = positioning::locate(medium, start, object);
    *position = moved.pos;
    Ok(locate_reply(alloc, moved.stop))
}

fn locate_reply(alloc: Global, stop: Stop) -> Reply
    ensures { result ≡ locate_reply stop }
{
    let none = Bytes::new(alloc);
    match stop {
        Stop::Done => Reply::good(none),
        Stop::AtMark | Stop::AtEnd | Stop::AtStart => Reply::check(Sense::end_of_data(None), none),
    }
}
