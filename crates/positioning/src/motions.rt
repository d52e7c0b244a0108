//! SPACE and LOCATE.
ghost use Rattle.std.specs.Prelude.{◌≡◌, ◌≤◌, true};
ghost use Rattle.volume_core.specs.Volume.{count_of, objects_of};
ghost use Rattle.volume_core.specs.Medium.{volume_of};
ghost use Rattle.positioning.specs.Motion.{BackwardOverBlocks, ForwardOverBlocks, IsOnTape, LocatesTo, BackwardOverMarks, ForwardOverMarks, SpacesTo};

use crate::positions::{Moved, Pos, Stop};
use crate::walks::{backward, forward};
use volume_core::Catalog;
use vtl_base::{ObjNo, SpaceCode};

fn moved(from: Pos, obj: ObjNo, stop: Stop, left: u32) -> Moved
    ensures part { result.pos.part ≡ from.part }
    ensures obj { result.pos.obj ≡ obj }
    ensures stop { result.stop ≡ stop }
    ensures left { result.left ≡ left }
{
    Moved {
        pos: Pos { obj, ..from },
        stop,
        left,
    }
}

fn blocks_forward<C: Catalog>(catalog: &C, pos: Pos, count: u32) -> Moved
    requires awake { (C.state catalog.now).awake ≡ true }
    requires on_tape { IsOnTape (volume_of (C.state catalog.now)) pos }
    ensures part { result.pos.part ≡ pos.part }
    ensures moves { ForwardOverBlocks (objects_of (volume_of (C.state catalog.now)) pos.part) pos.obj count
        result.pos.obj result.stop result.left }
    ensures on_tape { result.pos.obj ≤ count_of (volume_of (C.state catalog.now)) pos.part }
{
    let ahead = catalog.count(pos.part) - pos.obj;
    let most = count.min(ahead);
    let walk = forward(catalog, pos.part, pos.obj, pos.obj + most, 1);
    if walk.left == 0 {
        moved(pos, walk.at, Stop::AtMark, count - (walk.at - pos.obj - 1))
    } else if most == count {
        moved(pos, walk.at, Stop::Done, 0)
    } else {
        moved(pos, walk.at, Stop::AtEnd, count - most)
    }
}

fn blocks_backward<C: Catalog>(catalog: &C, pos: Pos, count: u32) -> Moved
    requires awake { (C.state catalog.now).awake ≡ true }
    requires on_tape { IsOnTape (volume_of (C.state catalog.now)) pos }
    ensures part { result.pos.part ≡ pos.part }
    ensures moves { BackwardOverBlocks (objects_of (volume_of (C.state catalog.now)) pos.part) pos.obj
        count result.pos.obj result.stop result.left }
    ensures on_tape { result.pos.obj ≤ count_of (volume_of (C.state catalog.now)) pos.part }
{
    let most = count.min(pos.obj);
    let walk = backward(catalog, pos.part, pos.obj, pos.obj - most, 1);
    if walk.left == 0 {
        moved(pos, walk.at, Stop::AtMark, count - (pos.obj - walk.at - 1))
    } else if most == count {
        moved(pos, walk.at, Stop::Done, 0)
    } else {
        moved(pos, walk.at, Stop::AtStart, count - most)
    }
}

fn marks_forward<C: Catalog>(catalog: &C, pos: Pos, count: u32) -> Moved
    requires awake { (C.state catalog.now).awake ≡ true }
    requires on_tape { IsOnTape (volume_of (C.state catalog.now)) pos }
    requires some { 1 ≤ count }
    ensures part { result.pos.part ≡ pos.part }
    ensures moves { ForwardOverMarks (objects_of (volume_of (C.state catalog.now)) pos.part) pos.obj count
        result.pos.obj result.stop result.left }
    ensures on_tape { result.pos.obj ≤ count_of (volume_of (C.state catalog.now)) pos.part }
{
    let walk = forward(catalog, pos.part, pos.obj, catalog.count(pos.part), count);
    let stop = if walk.left == 0 {
        Stop::Done
    } else {
        Stop::AtEnd
    };
    moved(pos, walk.at, stop, walk.left)
}

fn marks_backward<C: Catalog>(catalog: &C, pos: Pos, count: u32) -> Moved
    requires awake { (C.state catalog.now).awake ≡ true }
    requires on_tape { IsOnTape (volume_of (C.state catalog.now)) pos }
    requires some { 1 ≤ count }
    ensures part { result.pos.part ≡ pos.part }
    ensures moves { BackwardOverMarks (objects_of (volume_of (C.state catalog.now)) pos.part) pos.obj
        count result.pos.obj result.stop result.left }
    ensures on_tape { result.pos.obj ≤ count_of (volume_of (C.state catalog.now)) pos.part }
{
    let walk = backward(catalog, pos.part, pos.obj, 0, count);
    let stop = if walk.left == 0 {
        Stop::Done
    } else {
        Stop::AtStart
    };
    moved(pos, walk.at, stop, walk.left)
}

/// Returns where SPACE from `pos` ends. As `code` says, it passes `count` blocks or filemarks, backward where `count`
/// is below 0, or goes to the end of data. Where it ends earlier, the result says why. The medium must be awake, and
/// `pos` must be on its tape. The call always succeeds, and looks at no object.
pub fn space<C: Catalog>(catalog: &C, pos: Pos, code: SpaceCode, count: i32) -> Moved
    requires awake { (C.state catalog.now).awake ≡ true }
    requires on_tape { IsOnTape (volume_of (C.state catalog.now)) pos }
    ensures part { result.pos.part ≡ pos.part }
    ensures moves { SpacesTo (objects_of (volume_of (C.state catalog.now)) pos.part) pos.obj code count
        result.pos.obj result.stop result.left }
    ensures on_tape { IsOnTape (volume_of (C.state catalog.now)) result.pos }
{
    let size = count.unsigned_abs();
    match code {
        SpaceCode::EndOfData => moved(pos, catalog.count(pos.part), Stop::Done, 0),
        _ if size == 0 => moved(pos, pos.obj, Stop::Done, 0),
        SpaceCode::Blocks if count > 0 => blocks_forward(catalog, pos, size),
        SpaceCode::Blocks => blocks_backward(catalog, pos, size),
        SpaceCode::Filemarks if count > 0 => marks_forward(catalog, pos, size),
        SpaceCode::Filemarks => marks_backward(catalog, pos, size),
    }
}

/// Returns where LOCATE to object `to` of the partition of `pos` ends: before that object, or at the end of data where
/// the partition has fewer than `to` objects. The medium must be awake, and `pos` must be on its tape. The call always
/// succeeds, and looks at no object.
pub fn locate<C: Catalog>(catalog: &C, pos: Pos, to: ObjNo) -> Moved
    requires awake { (C.state catalog.now).awake ≡ true }
    requires on_tape { IsOnTape (volume_of (C.state catalog.now)) pos }
    ensures part { result.pos.part ≡ pos.part }
    ensures moves { LocatesTo (objects_of (volume_of (C.state catalog.now)) pos.part) to
        result.pos.obj result.stop result.left }
    ensures on_tape { IsOnTape (volume_of (C.state catalog.now)) result.pos }
{
    let end = catalog.count(pos.part);
    if to <= end {
        moved(pos, to, Stop::Done, 0)
    } else {
        moved(pos, end, Stop::AtEnd, 0)
    }
}
