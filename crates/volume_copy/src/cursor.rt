//! The position in a copy, and the entry that comes next.
ghost use Rattle.std.specs.Prelude.{◌≡◌, ◌≤◌, ◌<◌, ◌+◌, true, false, [], ◌∷◌, IfSome, IfNone, Some, length, slice_get};
ghost use Rattle.vtl_base.specs.declared.limits.TheConstants.{MAX_OBJECTS, MAX_PARTITIONS};
ghost use Rattle.object_index.specs.MarkRuns.{HasMarkAt};
ghost use Rattle.object_index.specs.Places.{placed_objects};
ghost use Rattle.volume_copy.specs.EntryFacts.{RunOfMarks};
ghost use Rattle.volume_copy.specs.Entries.{entries_from};

use crate::entries::Entry;
use change_records::Record;
use object_index::{Index, Placed};
use volume_core::Catalog;
use vtl_base::{ObjNo, PartNo, Steps};

/// A position in a copy: before object `at` of partition `part`, or at the end of the partition's objects. A position
/// that `start` or `next` returns never splits a run of filemarks.
#[derive(Clone, Copy, PartialEq, Eq, Debug)]
pub struct Cursor {
    pub part: PartNo,
    pub at: ObjNo,
}

/// The next entry of a copy, and `behind`, the position after this entry.
#[derive(Clone, Copy, PartialEq, Eq, Debug)]
pub struct Ahead {
    pub entry: Entry,
    pub behind: Cursor,
}

impl Cursor {
    /// The beginning of a copy.
    pub fn start() -> Self
        ensures part { result.part ≡ 0 }
        ensures at { result.at ≡ 0 }
    {
        Cursor { part: 0, at: 0 }
    }

    /// The next entry in the copy of the volume that `index` describes, and the position after it. None at the end of
    /// the copy.
    pub fn next(self, index: &Index) -> Option<Ahead>
        ensures some { IfSome result (λ ahead. entries_from index.now self.part self.at
            ≡ ahead.entry ∷ entries_from index.now ahead.behind.part ahead.behind.at) }
        ensures none { IfNone result (entries_from index.now self.part self.at ≡ []) }
    {
        let here = self.settled(index);
        match index.place(here.part, here.at) {
            Some(object) => Some(here.ahead(object, index)),
            None => None,
        }
    }

    // The same position in the copy, moved past partitions that have no more objects.
    fn settled(self, index: &Index) -> Self
        ensures same { entries_from index.now result.part result.at
            ≡ entries_from index.now self.part self.at }
        ensures inside { result.part < length index.now →
            result.at < length (placed_objects index.now result.part) }
    {
        let mut cursor = self;
        while cursor.is_at_end(index) {
            cursor = Cursor {
                part: cursor.part + 1,
                at: 0,
            };
        }
        cursor
    }

    // Whether the position is in a partition that exists and that has no objects after it.
    fn is_at_end(self, index: &Index) -> bool
        ensures yes { result ≡ true → (self.part < length index.now)
            × (length index.now ≤ MAX_PARTITIONS)
            × (length (placed_objects index.now self.part) ≤ self.at) }
        ensures no { result ≡ false → self.part < length index.now →
            self.at < length (placed_objects index.now self.part) }
    {
        self.part < index.parts() && index.count(self.part) <= self.at
    }

    // The next entry: that of `object`, which stands at the position.
    fn ahead(self, object: Placed, index: &Index) -> Ahead
        requires { slice_get (placed_objects index.now self.part) self.at ≡ Some object }
        ensures { entries_from index.now self.part self.at
            ≡ result.entry ∷ entries_from index.now result.behind.part result.behind.at }
    {
        // Called for the proof: a partition has no more objects than it may.
        let _ = index.count(self.part);
        match object {
            Placed::Block { place, length } => Ahead {
                entry: Entry {
                    item: Record::Put {
                        part: self.part,
                        at: self.at,
                        length,
                    },
                    place,
                },
                behind: self.behind(1),
            },
            Placed::Mark => {
                let count = self.marks(index);
                Ahead {
                    entry: Entry {
                        item: Record::Marks {
                            part: self.part,
                            at: self.at,
                            count,
                        },
                        place: 0,
                    },
                    behind: self.behind(count),
                }
            }
        }
    }

    // The position `count` objects further on.
    fn behind(self, count: u32) -> Self
        requires { self.at + count ≤ MAX_OBJECTS }
        ensures part { result.part ≡ self.part }
        ensures at { result.at ≡ self.at + count }
    {
        Cursor {
            part: self.part,
            at: self.at + count,
        }
    }

    // How many filemarks the run at the position has from there on.
    fn marks(self, index: &Index) -> u32
        requires { HasMarkAt (placed_objects index.now self.part) self.at }
        ensures runs { RunOfMarks (placed_objects index.now self.part) self.at result }
        ensures bound { self.at + result ≤ MAX_OBJECTS }
    {
        // Called for the proof: a partition has no more objects than it may.
        let _ = index.count(self.part);
        let mut steps = Steps::new();
        match index.run_upto(self.part, self.at + 1, &mut steps) {
            Some(run) => run.first + run.count - self.at,
            None => unreachable!(),
        }
    }
}
