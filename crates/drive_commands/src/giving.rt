//! Commands that return data: READ POSITION, and what it shares with INQUIRY, READ BLOCK LIMITS, MODE SENSE and REQUEST
//! SENSE.
ghost use Rattle.std.specs.Prelude.{◌≡◌, []};
ghost use Rattle.drive_commands.specs.State.{IsPositioned, mounted};
ghost use Rattle.drive_commands.specs.Giving.{Gives, ReadPositionWork};
ghost use Rattle.drive_commands.specs.Inner.Carries.{Carries, IsOnWorkingMedium};

use crate::faults::Fault;
use crate::storing::store_pending;
use positioning::{Pos, report};
use scsi_sense::Reply;
use std::alloc::Global;
use volume_core::Medium;
use vtl_base::Bytes;

/// Returns the reply GOOD with a copy of `bytes`, or `Fault::NoMemory` where memory for the copy runs out. A copy of at
/// most 24 bytes allocates no memory.
pub fn give(alloc: Global, bytes: &[u8]) -> Result<Reply, Fault>
    ensures { Gives bytes.now result }
{
    Ok(Reply::good(Bytes::from_slice(alloc, bytes)?))
}

/// Stores what is pending, and returns the position as the 20 bytes of the short form (SSC-4, READ POSITION).
pub fn read_position<M: Medium>(
    alloc: Global,
    medium: &mut M,
    position: &Pos,
) -> Result<Reply, Fault>
    requires hand { M.below.at_hand medium.old }
    requires ready { IsOnWorkingMedium (mounted (M.state medium.old) position.now) }
    ensures carries { Carries M.state M.below
        ReadPositionWork
        medium.old position.now result [] medium.new position.now }
    ensures on { IsPositioned (M.state medium.new) position.now }
{
    store_pending(medium)?;
    give(alloc, &report(medium, *position))
}
