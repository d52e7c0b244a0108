//! A new ring for each drive that a library is to have. The hosts' half of a drive sends changes through it to the
//! disk's half.
ghost use Rattle.std.specs.Prelude.{◌≡◌, ◌<◌, None, IfOk, is_some, length, slice_index_or, slice_set};
ghost use Rattle.vtl_base.specs.declared.limits.TheConstants.{DRIVES};
ghost use Rattle.library.specs.Counts.{which_are_there};

use bay_moves::Bay;
use split_bay::NewRing;
use std::alloc::Global;
use std::marker::Model;
use tape_disk::Disk;
use vtl_base::NoMemory;
use vtl_base::limits::DRIVES;

/// New rings: a place for each drive number, from 1 to 16, with the ring of that drive if there is one. Of each ring a
/// contract sees the sending end.
#[derive(Drop)]
pub struct RingRow {
    rings: Vec<Option<NewRing>>,
}

impl Model for RingRow {
    ghost use Rattle.std.specs.Prelude.{◌≡◌, List, Option, length};
    ghost use Rattle.vtl_base.specs.declared.limits.TheConstants.{DRIVES};
    ghost use Rattle.split_bay.specs.Rings.{Sender};

    ghost Value = { List (Option Sender) };

    ghost view = { λ r. r.rings.items };

    ghost invariant = { λ r. length r.rings.items ≡ DRIVES };
}

impl RingRow {
    /// Makes a ring for each drive of `bays`, which has a place for each drive number, from 1 to 16. All memory that a
    /// ring needs is allocated here. If memory runs out, an error is returned.
    pub fn of_drives<D: Disk>(alloc: Global, bays: &[Option<Bay<D>>]) -> Result<RingRow, NoMemory>
        requires { length bays.now ≡ DRIVES }
        ensures { IfOk result (λ rings. which_are_there rings ≡ which_are_there bays.now) }
    {
        let mut rings = Vec::with_capacity(alloc, DRIVES as usize)?;
        for bay in bays {
            let ring = ring_for(alloc, bay)?;
            rings.push(ring).unwrap();
        }
        Ok(RingRow { rings })
    }

    // Takes the ring, if there is one, out of this place.
    pub(crate) fn take(&mut self, place: usize) -> Option<NewRing>
        requires { place < DRIVES }
        ensures out { result ≡ slice_index_or self.old place None }
        ensures left { self.new ≡ slice_set self.old place None }
    {
        self.rings[place].take()
    }
}

// A ring for a drive, if there is one.
fn ring_for<D: Disk>(alloc: Global, bay: &Option<Bay<D>>) -> Result<Option<NewRing>, NoMemory>
    ensures { IfOk result (λ ring. is_some ring ≡ is_some bay.now) }
{
    match bay {
        Some(_) => Ok(Some(NewRing::new(alloc)?)),
        None => Ok(None),
    }
}
