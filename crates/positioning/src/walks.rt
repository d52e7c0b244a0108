//! Motions over filemarks by their numbers. A motion looks at no object: it only asks the catalog how many filemarks
//! come before a place, and at which place the filemark with a number stands.
ghost use Rattle.std.specs.Prelude.{◌≡◌, ◌≤◌, true};
ghost use Rattle.volume_core.specs.Volume.{count_of, objects_of};
ghost use Rattle.volume_core.specs.Medium.{volume_of};
ghost use Rattle.positioning.specs.Inner.Walks.{WalksBackward, WalksForward};

use volume_core::Catalog;
use vtl_base::{ObjNo, PartNo};

// Where a walk ended, and how many filemarks were still to come.
#[derive(Clone, Copy)]
pub(crate) struct Walk {
    pub(crate) at: ObjNo,
    pub(crate) left: u32,
}

// Moves forward until `marks` filemarks are passed, but no further than the limit.
pub(crate) fn forward<C: Catalog>(
    catalog: &C,
    part: PartNo,
    from: ObjNo,
    limit: ObjNo,
    marks: u32,
) -> Walk
    requires awake { (C.state catalog.now).awake ≡ true }
    requires range { from ≤ limit }
    requires limit { limit ≤ count_of (volume_of (C.state catalog.now)) part }
    requires some { 1 ≤ marks }
    ensures { WalksForward (objects_of (volume_of (C.state catalog.now)) part) from limit marks
        result.at result.left }
{
    let passed = catalog.marks_upto(part, from);
    let ahead = catalog.marks_upto(part, limit) - passed;
    if ahead < marks {
        return Walk {
            at: limit,
            left: marks - ahead,
        };
    }
    let last = catalog.mark_at(part, passed + (marks - 1));
    Walk {
        at: last + 1,
        left: 0,
    }
}

// Moves backward until `marks` filemarks are passed, but no further than the limit.
pub(crate) fn backward<C: Catalog>(
    catalog: &C,
    part: PartNo,
    from: ObjNo,
    limit: ObjNo,
    marks: u32,
) -> Walk
    requires awake { (C.state catalog.now).awake ≡ true }
    requires range { limit ≤ from }
    requires on_tape { from ≤ count_of (volume_of (C.state catalog.now)) part }
    requires some { 1 ≤ marks }
    ensures { WalksBackward (objects_of (volume_of (C.state catalog.now)) part) from limit marks
        result.at result.left }
{
    let before = catalog.marks_upto(part, from);
    let behind = before - catalog.marks_upto(part, limit);
    if behind < marks {
        return Walk {
            at: limit,
            left: marks - behind,
        };
    }
    let last = catalog.mark_at(part, before - marks);
    Walk { at: last, left: 0 }
}
