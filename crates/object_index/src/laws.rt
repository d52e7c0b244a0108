//! Laws of the definitions. Each is a function that does nothing, and its contract is the law.
ghost use Rattle.std.specs.Prelude.{◌≡◌, ℕ, List};
ghost use Rattle.volume_core.specs.declared.changes.Change.{Change};
ghost use Rattle.volume_core.specs.Volume.{Part, capacity_of, changed, count_of, kind_at, mark_count, marks_upto, refusal_of, used_up_to};
ghost use Rattle.change_records.specs.Records.{record_of};
ghost use Rattle.object_index.specs.Places.{PlacedPart, Reading, change_by, placed_after, volume_by};
ghost use Rattle.object_index.specs.Shapes.{IsIndexOf, shape_of, shape_of_change};

/// The capacities, counts, kinds, filemarks, costs and refusals of a volume do not depend on the bytes of its blocks,
/// only on their lengths.
pub fn a_volume_is_seen_by_its_shape()
    ensures capacity { (volume : List Part) (part : ℕ) →
        capacity_of (shape_of volume) part ≡ capacity_of volume part }
    ensures count { (volume : List Part) (part : ℕ) →
        count_of (shape_of volume) part ≡ count_of volume part }
    ensures kind { (volume : List Part) (part at : ℕ) →
        kind_at (shape_of volume) part at ≡ kind_at volume part at }
    ensures marks { (volume : List Part) (part n : ℕ) →
        marks_upto (shape_of volume) part n ≡ marks_upto volume part n }
    ensures mark_count { (volume : List Part) (part : ℕ) →
        mark_count (shape_of volume) part ≡ mark_count volume part }
    ensures used { (volume : List Part) (part n : ℕ) →
        used_up_to (shape_of volume) part n ≡ used_up_to volume part n }
    ensures refusal { (volume : List Part) (change : Change) →
        refusal_of (shape_of volume) (shape_of_change change) ≡ refusal_of volume change }
{}

/// When the record of a change is applied to an index of a volume, the result is an index of the changed volume. If a
/// read at the record's place returns the block of the change, the volume as it is read through the index changes by
/// just that change.
pub fn an_index_follows_a_volume()
    ensures shape { (parts : List PlacedPart) (volume : List Part) (change : Change)
        (place reserved : ℕ) → IsIndexOf parts volume →
        IsIndexOf (placed_after parts (record_of change) place reserved) (changed volume change) }
    ensures blocks { (read : Reading) (parts : List PlacedPart) (change : Change)
        (place reserved : ℕ) → change_by read (record_of change) place ≡ change →
        volume_by read (placed_after parts (record_of change) place reserved)
        ≡ changed (volume_by read parts) change }
{}
