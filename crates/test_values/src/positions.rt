//! Motions by the objects that they look at.
ghost use Rattle.std.specs.Prelude.{◌≡◌, true, IfOk};

mod counting;

use counting::Counting;
use positioning::{Moved, Pos, SpaceCode, locate, report, space};
use std::alloc::Global;
use std::test::Fail;
use test_assertions::{assert_equal, assert_holds};
use volume_core::{Catalog, Kind, Medium, PlainMedium};
use vtl_base::Bytes;

// A cartridge of two partitions. The first has these objects: a block of one byte for a `b`, else a
// filemark.
fn tape(alloc: Global, objects: &[u8]) -> Result<PlainMedium, Fail>
    ensures { IfOk result (λ medium. medium.awake ≡ true) }
{
    let mut medium = PlainMedium::new(alloc, &[4_096, 4_111])?;
    let mut at = 0u32;
    for object in objects {
        if *object == b'b' {
            medium.put(0, at, Bytes::from_slice(alloc, b"x")?)?;
        } else {
            medium.marks(0, at, 1)?;
        }
        at = at.saturating_add(1);
    }
    Ok(medium)
}

fn spaced<C: Catalog>(catalog: &C, pos: Pos, code: SpaceCode, count: i32) -> Option<Moved>
    requires { (C.state catalog.now).awake ≡ true }
{
    if pos.part < catalog.parts() && pos.obj <= catalog.count(pos.part) {
        Some(space(catalog, pos, code, count))
    } else {
        None
    }
}

// LOCATE of an object, and READ POSITION there: whether both are done.
fn are_done<C: Catalog>(catalog: &C, from: Pos, to: Pos) -> bool
    requires { (C.state catalog.now).awake ≡ true }
{
    if from.part < catalog.parts()
        && from.obj <= catalog.count(from.part)
        && to.part < catalog.parts()
        && to.obj <= catalog.count(to.part)
    {
        let _ = locate(catalog, from, to.obj);
        let _ = report(catalog, to);
        true
    } else {
        false
    }
}

// An object, a code and a count. Each motion asks for filemarks at most three times, however far it goes.
static LOOKS: &'static [(u32, SpaceCode, i32)] = &[
    (0, SpaceCode::Blocks, 8_388_607),
    (6, SpaceCode::Blocks, 8_388_607),
    (8, SpaceCode::Blocks, -8_388_608),
    (2, SpaceCode::Blocks, -8_388_608),
    (0, SpaceCode::Blocks, 2),
    (0, SpaceCode::Blocks, 0),
    (0, SpaceCode::Filemarks, 8_388_607),
    (8, SpaceCode::Filemarks, i32::MIN),
    (0, SpaceCode::Filemarks, 1),
    (8, SpaceCode::Filemarks, -1),
    (0, SpaceCode::EndOfData, 8_388_607),
];

#[test]
fn no_motion_looks_at_an_object(rt: HostRuntime) -> Result<(), Fail> {
    let medium = tape(rt.alloc(), b"bbmbmmbb")?;
    for &(obj, code, count) in LOOKS {
        let counting = Counting::new(&medium);
        let moved = spaced(&counting, Pos { part: 0, obj }, code, count);
        assert_holds!(rt; moved.is_some(); (count, obj));
        assert_equal!(rt; counting.looks(), 0; (count, obj));
        assert_holds!(rt; counting.searches() <= 3; (count, obj));
    }
    let counting = Counting::new(&medium);
    let (from, to) = (Pos { part: 0, obj: 1 }, Pos { part: 0, obj: 7 });
    assert_holds!(rt; are_done(&counting, from, to));
    assert_equal!(rt; (counting.looks(), counting.searches()), (0, 0));
    assert_equal!(rt; (counting.kind_at(0, 2), counting.looks()), (Some(Kind::Mark), 1));
    Ok(())
}
