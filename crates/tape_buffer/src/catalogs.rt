//! The catalog of a buffered medium's volume: the volume that is stored, with the pending changes carried out on it.
ghost use Rattle.std.specs.Prelude.{◌≡◌, true};
ghost use Rattle.volume_core.specs.Medium.{volume_of};
ghost use Rattle.object_index.specs.Shapes.{IsIndexOf};
ghost use Rattle.tape_buffer.specs.State.{state_of};

use crate::buffered::Buffered;
use object_index::Index;
use object_index::laws::a_volume_is_seen_by_its_shape;
use tape_disk::Disk;
use volume_core::{Catalog, Kind};
use vtl_base::{ObjNo, PartNo};

impl<D: Disk> Buffered<D> {
    // The catalog of a medium that is open.
    fn shown(&self) -> &Index
        requires { (state_of D.state self.now).awake ≡ true }
        ensures { IsIndexOf result.now (volume_of (state_of D.state self.now)) }
    {
        match &self.catalog {
            Some(index) => index,
            None => unreachable!(),
        }
    }
}

impl<D: Disk> Catalog for Buffered<D> {
    ghost use Rattle.tape_buffer.specs.State.{state_of};

    ghost state = { state_of D.state };

    fn parts(&self) -> PartNo {
        self.shown().parts()
    }

    fn capacity(&self, part: PartNo) -> u64 {
        a_volume_is_seen_by_its_shape();
        self.shown().capacity(part)
    }

    fn count(&self, part: PartNo) -> u32 {
        a_volume_is_seen_by_its_shape();
        self.shown().count(part)
    }

    fn kind_at(&self, part: PartNo, at: ObjNo) -> Option<Kind> {
        a_volume_is_seen_by_its_shape();
        self.shown().kind_at(part, at)
    }

    fn used(&self, part: PartNo, n: ObjNo) -> u64 {
        a_volume_is_seen_by_its_shape();
        self.shown().used(part, n)
    }

    fn marks_upto(&self, part: PartNo, n: ObjNo) -> u32 {
        a_volume_is_seen_by_its_shape();
        self.shown().marks_upto(part, n)
    }

    fn mark_at(&self, part: PartNo, k: u32) -> ObjNo {
        a_volume_is_seen_by_its_shape();
        self.shown().mark_at(part, k)
    }
}
