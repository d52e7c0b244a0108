//! A catalog that counts the objects that are looked at, and the searches for filemarks.
ghost use Rattle.std.specs.Prelude.{◌≡◌};

use std::cell::Cell;
use volume_core::{Catalog, Kind, PlainMedium};
use vtl_base::{ObjNo, PartNo};

#[derive(Drop)]
pub(crate) struct Counting<'a> {
    medium: &'a PlainMedium,
    looks: Cell<u32>,
    searches: Cell<u32>,
}

impl<'a> Counting<'a> {
    pub(crate) fn new(medium: &'a PlainMedium) -> Self
        ensures { result.medium.now ≡ medium.now }
    {
        Counting {
            medium,
            looks: Cell::new(0),
            searches: Cell::new(0),
        }
    }

    pub(crate) fn looks(&self) -> u32 {
        self.looks.get()
    }

    pub(crate) fn searches(&self) -> u32 {
        self.searches.get()
    }

    fn searched(&self) {
        self.searches.set(self.searches.get().saturating_add(1));
    }
}

impl<'a> Catalog for Counting<'a> {
    ghost use Rattle.volume_core.specs.Plain.{plain_state};

    ghost state = { λ c. plain_state c.medium.now };

    fn parts(&self) -> PartNo {
        self.medium.parts()
    }

    fn capacity(&self, part: PartNo) -> u64 {
        self.medium.capacity(part)
    }

    fn count(&self, part: PartNo) -> u32 {
        self.medium.count(part)
    }

    fn kind_at(&self, part: PartNo, at: ObjNo) -> Option<Kind> {
        self.looks.set(self.looks.get().saturating_add(1));
        self.medium.kind_at(part, at)
    }

    fn used(&self, part: PartNo, n: ObjNo) -> u64 {
        self.medium.used(part, n)
    }

    fn marks_upto(&self, part: PartNo, n: ObjNo) -> u32 {
        self.searched();
        self.medium.marks_upto(part, n)
    }

    fn mark_at(&self, part: PartNo, k: u32) -> ObjNo {
        self.searched();
        self.medium.mark_at(part, k)
    }
}
