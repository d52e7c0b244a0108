//! Refusals in their order, capacities at their borders; each public call once.
use crate::volumes::Add::{Block, Marks, Nothing};
use std::alloc::Global;
use std::process::Abort;
use std::test::Fail;
use test_assertions::assert_equal;
use volume_core::Refusal::{NoPartition, NoRoom, PastEnd, TooLong};
use volume_core::{
    ApplyError, Catalog, Change, Kind, Object, Refusal, Volume, are_capacities, is_in_early_zone,
    refusal,
};
use vtl_base::{Bytes, ObjNo, PartNo};

const TEBIBYTE: u64 = 1_099_511_627_776;

/// What a change adds: a block of this size, this many marks, or nothing.
#[derive(Clone, Copy, Debug)]
pub enum Add {
    Block(u32),
    Marks(u32),
    Nothing,
}

/// The change that adds this to a partition.
pub fn make_change(alloc: Global, part: PartNo, at: ObjNo, add: Add) -> Result<Change, Fail> {
    Ok(match add {
        Add::Block(length) => Change::Put {
            part,
            at,
            block: Bytes::from_vec(vec![in alloc; 7u8; length as usize]?),
        },
        Add::Marks(count) => Change::Marks { part, at, count },
        Add::Nothing => Change::Erase { part, at },
    })
}

// A change by its partition, object number and what it adds; why it is refused; and how many objects the
// partition has then, what they take, and whether it is in its early zone.
type Row = (PartNo, ObjNo, Add, Option<Refusal>, u32, u64, bool);

// The change of a row is applied, or refused for its cause; the volume after it.
fn assert_row(rt: &impl Abort, alloc: Global, volume: &mut Volume, row: &Row) -> Result<(), Fail> {
    let (part, at, add, cause, count, used, early) = *row;
    let change = make_change(alloc, part, at, add)?;
    assert_equal!(rt; refusal(volume, &change), cause; (add, at));
    let applied = match volume.apply(change) {
        Ok(()) => None,
        Err(refused) => Some(refused.error),
    };
    assert_equal!(rt; applied, cause.map(ApplyError::Refused); (add, at));
    assert_equal!(rt; (volume.count(part), volume.used(part, u32::MAX)), (count, used); (add, at));
    assert_equal!(rt; is_in_early_zone(volume.capacity(part), used), early; (add, at));
    Ok(())
}

static REFUSALS: &'static [Row] = &[
    (0, 0, Block(1_000), None, 1, 1_016, false),
    (0, 1, Block(1_000), None, 2, 2_032, false),
    (2, 3, Block(1_048_577), Some(NoPartition), 0, 0, false),
    (0, 3, Block(1_048_577), Some(PastEnd), 2, 2_032, false),
    (0, 2, Block(2_049), Some(NoRoom), 2, 2_032, false),
    (0, 2, Block(0), Some(TooLong), 2, 2_032, false),
    (1, 0, Block(1_048_577), Some(TooLong), 0, 0, false),
    (0, 2, Marks(130), Some(NoRoom), 2, 2_032, false),
    (1, 0, Marks(16_000_001), Some(NoRoom), 0, 0, false),
    (0, 2, Marks(0), Some(TooLong), 2, 2_032, false),
    (0, 3, Nothing, Some(PastEnd), 2, 2_032, false),
    (1, 0, Block(1_048_576), None, 1, 1_048_592, false),
    (0, 2, Marks(129), None, 131, 4_096, true),
    (0, 131, Block(1), Some(NoRoom), 131, 4_096, true),
    (0, 1, Marks(3), None, 4, 1_064, false),
    (0, 2, Nothing, None, 2, 1_032, false),
    (0, 1, Block(5), None, 2, 1_037, false),
];

#[test]
fn refusals_come_in_their_order_and_a_partition_fills(rt: HostRuntime) -> Result<(), Fail> {
    let mut volume = Volume::new(rt.alloc(), &[4_096, TEBIBYTE])?;
    for row in REFUSALS {
        assert_row(&rt, rt.alloc(), &mut volume, row)?;
    }
    assert_equal!(rt; (volume.parts(), volume.capacity(0), volume.capacity(2)), (2, 4_096, 0));
    assert_equal!(rt; (volume.kind_at(0, 1), volume.kind_at(0, 2)), (Some(Kind::Block), None));
    assert_equal!(rt; volume.block_at(0, 1), Some(b"\x07\x07\x07\x07\x07".as_slice()));
    Ok(())
}

// The capacities of partitions, and whether they are accepted.
static CAPACITIES: &'static [(&'static [u64], bool)] = &[
    (&[], false),
    (&[4_095], false),
    (&[4_096, TEBIBYTE + 1], false),
    (&[4_096; 4], true),
    (&[4_096; 5], false),
];

// A capacity, what is used of it, and whether that reaches into the early zone.
static EARLY: &'static [(u64, u64, bool)] = &[(4_111, 3_855, false), (4_111, 3_856, true)];

#[test]
fn capacities_have_their_limits(rt: HostRuntime) {
    for (capacities, taken) in CAPACITIES {
        assert_equal!(rt; are_capacities(capacities), *taken; capacities);
    }
    for (capacity, used, early) in EARLY {
        assert_equal!(rt; is_in_early_zone(*capacity, *used), *early; (used, capacity));
    }
    assert_equal!(rt; (Object::Mark.cost(), Object::Mark.kind()), (16, Kind::Mark));
}
