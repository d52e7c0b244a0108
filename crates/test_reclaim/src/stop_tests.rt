//! A reclaim is stopped at each call of its two disks.
use crate::samples::{FAULT, Pair, copy_of, found, reclaim};
use crate::stop_tables::{WORKS, Work};
use crate::tied::tied;
use std::alloc::Global;
use std::fmt::Debug;
use std::process::Abort;
use std::test::Fail;
use test_assertions::{assert_equal, assert_holds};

// The disks hold the objects, with one of the allowed epochs, and after one more reclaim with the next epoch.
pub fn is_right(
    rt: &impl Abort,
    alloc: Global,
    pair: Pair,
    work: &Work,
    epochs: (u64, u64),
    at: &impl Debug,
) -> Result<(), Fail> {
    let row = (work.first, work.second, at);
    let (epoch, holds) = found(alloc, copy_of(&pair)?, work.objects)?;
    let is_right = holds && (epoch == Some(epochs.0) || epoch == Some(epochs.1));
    assert_holds!(rt; is_right; (epoch, holds, row));
    let (first, second, ended) = reclaim(alloc, pair.0, pair.1);
    assert_equal!(rt; ended, Ok(()); row);
    let again = found(alloc, (first, second), work.objects);
    let next = epoch.map(|epoch| epoch.saturating_add(1));
    assert_equal!(rt; again, Ok((next, true)); row);
    Ok(())
}

// The epochs that may be found where this many calls pass. The last call but one writes the gate of the copy,
// and the last one makes it sure.
fn epochs_at(work: &Work, calls: u64) -> (u64, u64) {
    let next = work.epoch.saturating_add(1);
    if calls >= work.calls {
        (next, next)
    } else if calls == work.calls.saturating_sub(1) {
        (work.epoch, next)
    } else {
        (work.epoch, work.epoch)
    }
}

// Each crash of the first disk, with the same one of the second, and with all and none of what is not sure
// there: of each this many bytes have landed, and this byte is in place of the others.
fn crashes(
    rt: &impl Abort,
    alloc: Global,
    work: &Work,
    pair: &Pair,
    calls: u64,
) -> Result<(), Fail> {
    for keep in [0, 1, u64::MAX] {
        for fill in [0x00, 0xa5, 0xff] {
            for (keep_there, fill_there) in [(keep, fill), (u64::MAX, 0x00), (0, 0x00)] {
                let (first, second) = copy_of(pair)?;
                let left = (
                    first.crash(keep, fill)?,
                    second.crash(keep_there, fill_there)?,
                );
                let at = (calls, keep, fill, keep_there);
                is_right(rt, alloc, left, work, epochs_at(work, calls), &at)?;
            }
        }
    }
    Ok(())
}

// Stops the reclaim after this many calls.
fn is_stopped(rt: &impl Abort, alloc: Global, work: &Work, calls: u64) -> Result<(), Fail> {
    let (first, second) = tied(alloc, work.pair(alloc)?, calls)?;
    let (first, second, ended) = reclaim(alloc, first, second);
    let expected = if calls < work.calls {
        Err(FAULT)
    } else {
        Ok(())
    };
    assert_equal!(rt; ended, expected; (work.first, work.second, calls));
    let pair = (first.into_inner(), second.into_inner());
    crashes(rt, alloc, work, &pair, calls)
}

#[test]
fn a_stop_at_each_call_of_both(rt: HostRuntime) -> Result<(), Fail> {
    for work in WORKS {
        for calls in 0..=work.calls {
            is_stopped(&rt, rt.alloc(), work, calls)?;
        }
    }
    Ok(())
}
