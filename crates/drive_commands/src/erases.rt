//! ERASE.
ghost use Rattle.std.specs.Prelude.{◌≡◌, None, true};
ghost use Rattle.volume_core.specs.Volume.{refusal_of};
ghost use Rattle.volume_core.specs.Medium.{volume_of};
ghost use Rattle.drive_commands.specs.State.{IsPositioned, mounted};
ghost use Rattle.drive_commands.specs.Erase.{EraseWork, erase_at};
ghost use Rattle.drive_commands.specs.Inner.Carries.{IsOnWorkingMedium, Tallies};

use crate::appends::append;
use crate::faults::Fault;
use crate::storing::store_pending;
use positioning::Pos;
use scsi_sense::Reply;
use std::alloc::Global;
use volume_core::{Catalog, Change, Medium};

/// Stores what is pending, and then erases all objects of the partition from the position on (SSC-4, ERASE(6)). At the
/// end of data there are no such objects, but the erasure is still made. In unbuffered mode the erasure is stored
/// before the answer.
pub fn erase<M: Medium>(
    alloc: Global,
    medium: &mut M,
    position: &mut Pos,
    accepted: &mut u64,
    buffered: bool,
) -> Result<Reply, Fault>
    requires hand { M.below.at_hand medium.old }
    requires ready { IsOnWorkingMedium (mounted (M.state medium.old) position.old) }
    ensures carries { Tallies M.state M.below
        (EraseWork buffered)
        medium.old position.old accepted.old result medium.new position.new accepted.new }
    ensures on { IsPositioned (M.state medium.new) position.new }
{
    store_pending(medium)?;
    note_that_it_fits(medium, *position);
    let change = Change::Erase {
        part: position.part,
        at: position.obj,
    };
    append(alloc, medium, position, accepted, change, None, !buffered).answer
}

// Shows that an erasure at the position is not refused: the objects before the position fit the partition, since they
// stand there. Both calls are made for the proof alone.
fn note_that_it_fits<C: Catalog>(medium: &C, position: Pos)
    requires { IsPositioned (C.state medium.now) position }
    ensures { refusal_of (volume_of (C.state medium.now)) (erase_at position) ≡ None }
{
    let _ = medium.count(position.part);
    let _ = medium.used(position.part, position.obj);
}
