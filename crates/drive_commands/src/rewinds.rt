//! REWIND.
ghost use Rattle.std.specs.Prelude.{◌≡◌, []};
ghost use Rattle.drive_commands.specs.State.{IsPositioned, mounted};
ghost use Rattle.drive_commands.specs.Rewind.{RewindWork};
ghost use Rattle.drive_commands.specs.Inner.Carries.{Carries, IsOnWorkingMedium};

use crate::faults::Fault;
use crate::storing::store_pending;
use positioning::Pos;
use scsi_sense::Reply;
use std::alloc::Global;
use volume_core::Medium;
use vtl_base::Bytes;

/// Stores what is pending, and moves the position to object 0 of its partition (SSC-4, REWIND).
pub fn rewind<M: Medium>(alloc: Global, medium: &mut M, position: &mut Pos) -> Result<Reply, Fault>
    requires hand { M.below.at_hand medium.old }
    requires ready { IsOnWorkingMedium (mounted (M.state medium.old) position.old) }
    ensures carries { Carries M.state M.below
        RewindWork
        medium.old position.old result [] medium.new position.new }
    ensures on { IsPositioned (M.state medium.new) position.new }
{
    store_pending(medium)?;
    position.obj = 0;
    Ok(Reply::good(Bytes::new(alloc)))
}
