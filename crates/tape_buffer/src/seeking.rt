//! Which of the changes that wait put an object.
ghost use Rattle.std.specs.Prelude.{◌≡◌, ◌≢◌, ◌≤◌, ◌<◌, ◌⊎◌, IfNone, IfSome, List, Some, length, slice_get, true, false};
ghost use Rattle.vtl_base.specs.declared.limits.TheConstants.{MAX_BLOCK};
ghost use Rattle.volume_core.specs.declared.objects.Kind.TheVariants as Kinds;
ghost use Rattle.volume_core.specs.Volume.{AllApply, Part, after, block_at, kind_at, objects_of, part_of, staying_of};
ghost use Rattle.tape_buffer.specs.Inner.Seeking.{IsLastOf};

use volume_core::Change;
use vtl_base::{Bytes, ObjNo, PartNo};

// The block with number `at` in a partition, where one of `changes` put it; None where it is stored. The changes must
// apply, one after another, to a volume, and make one that has a block there.
pub(crate) fn waiting_block(changes: &[Change], part: PartNo, at: ObjNo) -> Option<&Bytes>
    requires { (volume : List Part) × AllApply volume changes.now
        × (kind_at (after volume changes.now) part at ≡ Some Kinds.Block) }
    ensures waits { IfSome result (λ block. (volume : List Part) → AllApply volume changes.now →
        kind_at (after volume changes.now) part at ≡ Some Kinds.Block →
        (block_at (after volume changes.now) part at ≡ Some block.now) × (length block.now ≤ MAX_BLOCK)) }
    ensures stored { IfNone result ((volume : List Part) → AllApply volume changes.now →
        slice_get (objects_of (after volume changes.now) part) at ≡ slice_get (objects_of volume part) at) }
{
    let Some(number) = last_of(changes, part, at) else {
        return None;
    };
    match &changes[number] {
        Change::Put { block, .. } => Some(block),
        Change::Marks { .. } | Change::Erase { .. } => unreachable!(),
    }
}

// The number of the last of `changes` that put the object with number `at` in a partition, or cut it off; None where
// none of them did. The changes must apply, one after another, to the volume that is stored.
fn last_of(changes: &[Change], part: PartNo, at: ObjNo) -> Option<usize>
    ensures { (volume : List Part) → AllApply volume changes.now → IsLastOf volume changes.now part at result }
{
    let mut number = changes.len();
    'back: while number > 0 {
        number -= 1;
        if reaches(&changes[number], part, at) {
            return Some(number);
        }
    }
    None
}

// Whether a change put the object with number `at` in a partition, or cut it off.
fn reaches(change: &Change, part: PartNo, at: ObjNo) -> bool
    ensures yes { result ≡ true → (part ≡ part_of change.now) × (staying_of change.now ≤ at) }
    ensures no { result ≡ false → (part ≢ part_of change.now) ⊎ (at < staying_of change.now) }
{
    change.part() == part && change.staying() <= at
}
