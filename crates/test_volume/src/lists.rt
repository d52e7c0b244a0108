//! An index against a plain list of objects, and by its single calls.
use crate::volumes::Add;
use change_records::Record;
use object_index::{Index, Placed, Run};
use std::process::Abort;
use std::test::Fail;
use test_assertions::assert_equal;
use volume_core::{ApplyError, Catalog, Refusal, refusal_for};
use vtl_base::{ObjNo, PartNo};

fn record(part: PartNo, at: ObjNo, add: Add) -> Record {
    match add {
        Add::Block(length) => Record::Put { part, at, length },
        Add::Marks(count) => Record::Marks { part, at, count },
        Add::Nothing => Record::Erase { part, at },
    }
}

// A record by its partition, object number and what it adds, the place of its block, and why it is refused.
type Row = (PartNo, ObjNo, Add, u64, Option<Refusal>);

// Blocks and runs of marks; changes after runs, inside them and at their borders; refusals.
static ROWS: &'static [Row] = &[
    (1, 0, Add::Block(5), 45, None),
    (1, 1, Add::Marks(3), 0, None),
    (1, 4, Add::Block(1), 100, None),
    (1, 5, Add::Marks(1), 0, None),
    (1, 6, Add::Marks(2), 0, None),
    (1, 3, Add::Block(7), 200, None),
    (1, 2, Add::Nothing, 0, None),
    (1, 2, Add::Marks(4), 0, None),
    (1, 6, Add::Nothing, 0, None),
    (1, 4, Add::Nothing, 0, None),
    (1, 4, Add::Marks(0), 0, Some(Refusal::TooLong)),
    (1, 4, Add::Marks(16_000_000), 0, Some(Refusal::NoRoom)),
    (2, 0, Add::Nothing, 0, Some(Refusal::NoPartition)),
    (1, 4, Add::Block(3_979), 1_099_511_627_775, None),
    (1, 5, Add::Marks(1), 0, None),
    (1, 0, Add::Block(4_080), 27, None),
    (1, 0, Add::Nothing, 0, None),
];

// The plain list after a record that was not refused.
fn follow(list: &mut Vec<Placed>, item: Record, place: u64) -> Result<(), Fail> {
    list.truncate(item.staying() as usize);
    match item {
        Record::Put { length, .. } => list.push(Placed::Block { place, length })?,
        Record::Marks { count, .. } => {
            for _ in 0..count {
                list.push(Placed::Mark)?;
            }
        }
        Record::Erase { .. } => {}
    }
    Ok(())
}

// The index has these objects, and each first part of them takes what their lengths give.
fn assert_same(rt: &impl Abort, index: &Index, list: &[Placed]) {
    assert_equal!(rt; index.count(1) as usize, list.len());
    assert_equal!(rt; index.place(1, index.count(1)), None);
    let mut used = 0u64;
    let mut at = 0u32;
    for placed in list {
        assert_equal!(rt; index.place(1, at), Some(*placed); at);
        assert_equal!(rt; index.kind_at(1, at), Some(placed.kind()); at);
        assert_equal!(rt; index.used(1, at), used; at);
        used = used.saturating_add(match placed {
            Placed::Block { length, .. } => *length as u64 + 16,
            Placed::Mark => 16,
        });
        at = at.saturating_add(1);
    }
    assert_equal!(rt; index.used(1, u32::MAX), used);
}

#[test]
fn index_against_a_list(rt: HostRuntime) -> Result<(), Fail> {
    let alloc = rt.alloc();
    let mut index = Index::new(alloc, &[4_096, 4_096])?;
    let mut list = Vec::new(alloc);
    for (part, at, add, place, refusal) in ROWS {
        let item = record(*part, *at, *add);
        let found = refusal_for(&index, item.part(), item.staying(), item.demand());
        assert_equal!(rt; found, *refusal; (add, at));
        if *place < u64::MAX {
            let applied = index.apply(item, *place).err();
            assert_equal!(rt; applied, refusal.map(ApplyError::Refused); (add, at));
        }
        if refusal.is_none() {
            follow(&mut list, item, *place)?;
        }
        assert_same(&rt, &index, &list);
        assert_equal!(rt; index.count(0), 0);
    }
    Ok(())
}

// By its single calls: a block and a run of three marks are put behind, and cut.
#[test]
fn runs_are_put_behind_and_cut(rt: HostRuntime) -> Result<(), Fail> {
    let mut index = Index::new(rt.alloc(), &[4_096, 8_192])?;
    assert_equal!(rt; (index.parts(), index.capacity(1), index.capacity(2)), (2, 8_192, 0));
    let block = Run::Block {
        place: 45,
        length: 5,
    };
    let marks = Run::Marks { count: 3 };
    assert_equal!(rt; (block.count(), marks.count()), (1, 3));
    index.reserve(1, 2)?;
    index.add(1, block)?;
    index.add(1, marks)?;
    assert_equal!(rt; (index.count(0), index.count(1), index.used(1, 4)), (0, 4, 69));
    index.cut_at(1, 2);
    assert_equal!(rt; (index.count(1), index.used(1, 4)), (2, 37));
    assert_equal!(rt; (index.place(1, 1), index.place(1, 2)), (Some(Placed::Mark), None));
    Ok(())
}
