//! A keeper whose store becomes full, or one of whose saves fails.
use super::{ONE, OTHER, after};
use pr_core::{Keeper, KeeperError, Reservations};
use std::process::Abort;
use test_assertions::{assert_equal, assert_holds};
use test_media::{SaveFault, SavePlan, StagedKeeper};

// The result of one of the first four saves, where the save after this many fails.
fn answer(save: u32, after: u32, by: SaveFault) -> Result<(), KeeperError> {
    match by {
        SaveFault::NoMemory if save == after => Err(KeeperError::NoMemory),
        SaveFault::Device if save == after => Err(KeeperError::Device),
        SaveFault::Device if save > after => Err(KeeperError::Failed),
        SaveFault::NoMemory | SaveFault::Device => Ok(()),
    }
}

// Whether the reservations that a keeper saved last are exactly these.
fn holds(rt: &impl Abort, keeper: &StagedKeeper, state: &Reservations) {
    assert_holds!(rt; !keeper.saved().needs_save(state));
}

// How many saves come before the one that fails, how it fails, and how many hosts are registered in what was
// saved last.
static FAULTS: &'static [(u32, SaveFault, u8)] = &[
    (0, SaveFault::NoMemory, 2),
    (1, SaveFault::NoMemory, 2),
    (2, SaveFault::NoMemory, 2),
    (3, SaveFault::NoMemory, 1),
    (4, SaveFault::NoMemory, 2),
    (0, SaveFault::Device, 0),
    (1, SaveFault::Device, 1),
    (2, SaveFault::Device, 2),
    (3, SaveFault::Device, 1),
    (4, SaveFault::Device, 2),
];

#[test]
fn one_save_fails(rt: HostRuntime) {
    let empty = Reservations::empty();
    let one = after(&rt, empty, &[(1, ONE)]);
    let two = after(&rt, one, &[(2, OTHER)]);
    for &(behind, by, hosts) in FAULTS {
        let plan = SavePlan { after: behind, by };
        let mut keeper = StagedKeeper::new(empty, 1_000, Some(plan));
        for save in 0..4u32 {
            let state = if save % 2 == 0 { &one } else { &two };
            assert_equal!(rt; keeper.save(state), answer(save, behind, by); (save, behind));
        }
        let last = match hosts {
            0 => &empty,
            1 => &one,
            _ => &two,
        };
        holds(&rt, &keeper, last);
        let failed = by == SaveFault::Device && behind < 4;
        assert_equal!(rt; keeper.has_failed(), failed; behind);
        assert_equal!(rt; keeper.torn().is_some(), failed; behind);
    }
}

// Whether a host is registered in what is saved, the result, and the room that is left.
static SAVES: &'static [(bool, Result<(), KeeperError>, u64)] = &[
    (true, Ok(()), 17),
    (true, Err(KeeperError::SideFull), 17),
    (false, Ok(()), 8),
    (false, Err(KeeperError::SideFull), 8),
];

// A state with one registration takes 18 bytes of a store, with none 9.
#[test]
fn a_store_fills(rt: HostRuntime) {
    let empty = Reservations::empty();
    let one = after(&rt, empty, &[(1, ONE)]);
    let mut keeper = StagedKeeper::new(empty, 35, None);
    for &(is_registered, answer, left) in SAVES {
        let state = if is_registered { &one } else { &empty };
        assert_equal!(rt; keeper.save(state), answer);
        assert_equal!(rt; keeper.room(), left);
    }
    holds(&rt, &keeper, &empty);
    assert_holds!(rt; !keeper.has_failed());
}

// The state in doubt after a device fault is distinguished from what was saved.
#[test]
fn a_save_is_torn(rt: HostRuntime) {
    let one = after(&rt, Reservations::empty(), &[(1, ONE)]);
    let plan = SavePlan {
        after: 0,
        by: SaveFault::Device,
    };
    let mut keeper = StagedKeeper::new(Reservations::empty(), 18, Some(plan));
    assert_equal!(rt; keeper.save(&one), Err(KeeperError::Device));
    holds(&rt, &keeper, &Reservations::empty());
    assert_holds!(rt; keeper.torn().is_some_and(|torn| !torn.needs_save(&one)));
    assert_equal!(rt; keeper.room(), 18);
    assert_equal!(rt; keeper.save(&Reservations::empty()), Err(KeeperError::Failed));
}
