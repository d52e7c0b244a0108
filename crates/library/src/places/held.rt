//! Both halves of a drive, while their locks are held.
ghost use Rattle.std.specs.Prelude.{◌≡◌, None, is_some, true};
ghost use Rattle.split_bay.specs.Rings.{AreEnds};
ghost use Rattle.library.specs.Halves.{JoinsHeld, PartsHeld};
ghost use Rattle.library.specs.Keeps.{KeepsDrive};

use bay_moves::Bay;
use split_bay::{Back, Ends, Front, Rings, join, part};
use std::sync::Wait;
use tape_disk::Disk;

// The invariant of a drive as one fact, for the proof alone.
pub(super) fn known_drive<D: Disk>(bay: &Bay<D>)
    ensures { KeepsDrive D.state bay.now }
{
    bay.known();
}

// Checks that these are the two halves of one drive. A library keeps the halves of a drive together; if they were not
// those of one drive, the call would wait forever.
pub(super) fn fit<D: Disk, B: Rings, R: Wait>(rt: &R, front: &Front<D, B>, back: &Back<D, B>)
    ensures { AreEnds front.now.sending back.now.number back.now.received }
{
    if !front.fits(back) {
        for _ in rt.forever() {}
        unreachable!()
    }
}

// Takes both halves out of their places, and joins them.
pub(super) fn join_held<D: Disk, B: Rings, R: Wait>(
    rt: &R,
    front: &mut Option<Front<D, B>>,
    back: &mut Option<Back<D, B>>,
) -> (Bay<D>, Ends<B>)
    requires front { is_some front.old ≡ true }
    requires back { is_some back.old ≡ true }
    ensures { JoinsHeld D.state front.old back.old result.0 result.1 }
{
    let Some(hosts) = front.take() else {
        unreachable!()
    };
    let Some(disks) = back.take() else {
        unreachable!()
    };
    fit(rt, &hosts, &disks);
    join(hosts, disks)
}

// Splits a drive, and puts both halves into their places.
pub(super) fn part_held<D: Disk + Drop, B: Rings>(
    bay: Bay<D>,
    ends: Ends<B>,
    front: &mut Option<Front<D, B>>,
    back: &mut Option<Back<D, B>>,
)
    ensures { PartsHeld D.state bay ends front.new back.new }
{
    let (hosts, disks) = part(bay, ends);
    front.insert(hosts);
    back.insert(disks);
}
