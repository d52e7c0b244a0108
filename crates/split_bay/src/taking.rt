//! Takes what waits in the ring into the medium of the disk's half.
ghost use Rattle.std.specs.Prelude.{◌≡◌};
ghost use Rattle.split_bay.specs.Backs.{FollowsSpan};
ghost use Rattle.split_bay.specs.Taken.{TakesKnown};
ghost use Rattle.split_bay.specs.Spans.{span_of};

use crate::ends::{Receiving, Rings};
use tape_buffer::Disks;
use tape_disk::Disk;

// Receives all changes that are known to wait, up to where the next span begins, and takes them into what is pending.
// The call takes no memory, and calls no device.
pub(crate) fn take_known<D: Disk, R: Rings>(receiving: &mut Receiving<R>, medium: &mut Disks<D>)
    requires { FollowsSpan D.state medium.old (span_of receiving.old.received) }
    ensures follows { FollowsSpan D.state medium.new (span_of receiving.new.received) }
    ensures takes { TakesKnown D.state receiving.old medium.old receiving.new medium.new }
{
    receiving.known();
    'changes: while receiving.has_change() {
        let change = receiving.receive();
        medium.take(change);
    }
}
