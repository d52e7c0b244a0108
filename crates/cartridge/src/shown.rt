//! The catalog of a volume as a caller sees it: an index with the kinds and lengths of the objects, in which the places
//! of blocks mean nothing.
ghost use Rattle.std.specs.Prelude.{◌≡◌, ◌≤◌, ◌+◌, List, ℕ, OnErr, OnOk, length};
ghost use Rattle.volume_core.specs.declared.changes.Change.{Change};
ghost use Rattle.volume_core.specs.Volume.{Part, changed, refusal_of};
ghost use Rattle.object_index.specs.Places.{reserved_of};
ghost use Rattle.change_records.specs.Records.{record_of};
ghost use Rattle.object_index.specs.Shapes.{IsIndexOf};
ghost use Rattle.cartridge.specs.Shown.{HasEntriesIn, IsGrownIn, LacksEntriesIn, MayEnter};

use crate::reserving::reserve_each;
use change_records::Record;
use object_index::Index;
use object_index::laws::{a_volume_is_seen_by_its_shape, an_index_follows_a_volume};
use volume_core::{ApplyError, Catalog, Change, Refusal, refusal};
use vtl_base::NoMemory;

/// Why the volume that `index` shows refuses a change: the first cause that holds, or None where the change is not
/// refused.
pub fn refusal_shown(index: &Index, change: &Change) -> Option<Refusal>
    ensures { (volume : List Part) → IsIndexOf index.now volume → result ≡ refusal_of volume change.now }
{
    refusal(index, change)
}

/// Enters the change whose entry is `item` into an index in which memory for it is reserved. The volume that the index
/// shows must not refuse the change.
pub fn enter_item(index: &mut Index, item: Record)
    requires { (volume : List Part) × (change : Change) × (item ≡ record_of change)
        × MayEnter index.old volume change }
    ensures shows { (volume : List Part) (change : Change) → item ≡ record_of change
        → IsIndexOf index.old volume → IsIndexOf index.new (changed volume change) }
    ensures parts { length index.new ≡ length index.old }
    ensures reserved { (part : ℕ) → reserved_of index.old part ≤ reserved_of index.new part + 1 }
{
    a_volume_is_seen_by_its_shape();
    an_index_follows_a_volume();
    match index.apply(item, 0) {
        Ok(()) => {}
        Err(ApplyError::Refused(_)) => unreachable!(),
        Err(ApplyError::NoMemory) => unreachable!(),
    }
}

/// Enters a change into an index in which memory for it is reserved. The volume that the index shows must not refuse
/// the change.
pub fn enter_shown(index: &mut Index, change: &Change)
    requires { (volume : List Part) × MayEnter index.old volume change.now }
    ensures shows { (volume : List Part) → IsIndexOf index.old volume
        → IsIndexOf index.new (changed volume change.now) }
    ensures parts { length index.new ≡ length index.old }
    ensures reserved { (part : ℕ) → reserved_of index.old part ≤ reserved_of index.new part + 1 }
{
    // Called for the proof: the index keeps the limits of a volume.
    let _ = index.parts();
    enter_item(index, Record::of(change));
}

/// Reserves memory for `entries` more blocks and runs of filemarks in each partition of a catalog. Does nothing where
/// `catalog` is None. After an error the memory may be reserved in some of the partitions.
pub fn reserve_shown(catalog: &mut Option<Index>, entries: usize) -> Result<(), NoMemory>
    ensures grown { IsGrownIn catalog.old catalog.new }
    ensures ok { OnOk result (HasEntriesIn catalog.new entries) }
    ensures err { OnErr result (LacksEntriesIn catalog.old entries) }
{
    match catalog {
        Some(index) => reserve_each(index, entries),
        None => Ok(()),
    }
}
