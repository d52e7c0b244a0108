//! LOAD of a medium that is loaded.
ghost use Rattle.std.specs.Prelude.{◌≡◌, []};
ghost use Rattle.drive_commands.specs.State.{IsPositioned, mounted, start};
ghost use Rattle.drive_commands.specs.StoredFirst.{GoesTo, StoredFirst};
ghost use Rattle.drive_commands.specs.Inner.Carries.{Carries, IsOnWorkingMedium};

use crate::faults::Fault;
use crate::opening::start_of;
use crate::storing::store_pending;
use positioning::Pos;
use scsi_sense::Reply;
use std::alloc::Global;
use volume_core::Medium;
use vtl_base::Bytes;

/// Stores what is pending, and moves the position to the start of the medium (SSC-4, LOAD UNLOAD).
pub fn go_to_start<M: Medium>(
    alloc: Global,
    medium: &mut M,
    position: &mut Pos,
) -> Result<Reply, Fault>
    requires hand { M.below.at_hand medium.old }
    requires ready { IsOnWorkingMedium (mounted (M.state medium.old) position.old) }
    ensures carries { Carries M.state M.below
        (StoredFirst (GoesTo (λ m. start)))
        medium.old position.old result [] medium.new position.new }
    ensures on { IsPositioned (M.state medium.new) position.new }
{
    store_pending(medium)?;
    *position = start_of(medium);
    Ok(Reply::good(Bytes::new(alloc)))
}
