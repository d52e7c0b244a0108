//! Laws of the definitions. Each is a function that does nothing, and its contract is the law.
ghost use Rattle.std.specs.Prelude.{◌≡◌, ◌≤◌, List, length, map};
ghost use Rattle.std.specs.List.{All, flat_map};
ghost use Rattle.volume_core.specs.declared.changes.Change.{Change};
ghost use Rattle.volume_core.specs.Volume.{IsVolume, Part, empty_volume};
ghost use Rattle.change_records.specs.Records.{IsRecord, record_of, spell_all};
ghost use Rattle.object_index.specs.Shapes.{shape_of};
ghost use Rattle.vtl_base.specs.declared.limits.TheConstants.{COPY_BODY};
ghost use Rattle.volume_copy.specs.Copies.{Makes, NoRunIsCut, copy_of};
ghost use Rattle.volume_copy.specs.CopyFacts.{capacities_of};
ghost use Rattle.volume_copy.specs.Frames.{ArePackedInto, change_size, frames_of};

/// The changes of a volume's copy apply, one after another, to a volume that has the same capacities and no objects,
/// and turn it into the copied volume.
pub fn a_copy_makes_the_volume()
    ensures { (volume : List Part) → IsVolume volume →
        Makes (empty_volume (capacities_of volume)) (copy_of volume) volume }
{}

/// A copy has one record for each longest run of filemarks: no two neighbouring changes of it append filemarks to the
/// same partition.
pub fn no_run_is_cut()
    ensures { (volume : List Part) → NoRunIsCut (copy_of volume) }
{}

/// Each change of a copy has a spelling.
pub fn a_copy_is_spelled()
    ensures { (volume : List Part) → IsVolume volume → All IsRecord (copy_of volume) }
{}

/// A copy is packed into frames, as many records into each as fit. The changes of the frames, one frame after another,
/// are the copy. The body of each frame has 1 to 4,194,304 bytes.
pub fn a_copy_is_packed()
    ensures packed { (volume : List Part) → IsVolume volume →
        ArePackedInto change_size (copy_of volume) (frames_of (copy_of volume)) }
    ensures whole { (volume : List Part) → IsVolume volume →
        flat_map (λ frame. frame) (frames_of (copy_of volume)) ≡ copy_of volume }
    ensures bodies { (volume : List Part) → IsVolume volume →
        All (λ frame. (1 ≤ length (spell_all frame)) × (length (spell_all frame) ≤ COPY_BODY))
        (frames_of (copy_of volume)) }
{}

/// There is only one way to pack changes into frames: that of `frames_of`.
pub fn changes_are_packed_in_one_way()
    ensures { (changes : List Change) (frames : List (List Change)) →
        ArePackedInto change_size changes frames → frames ≡ frames_of changes }
{}

/// The records of a copy's frames depend on the lengths of blocks, but not on the bytes in them. So the number and the
/// lengths of the frames do not depend on these bytes either.
pub fn a_copy_is_sized_by_its_shape()
    ensures { (volume other : List Part) → shape_of volume ≡ shape_of other →
        map (map record_of) (frames_of (copy_of volume))
        ≡ map (map record_of) (frames_of (copy_of other)) }
{}
