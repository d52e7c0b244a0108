//! Binary searches for the block with an object number, and for a run of filemarks.
ghost use Rattle.std.specs.Prelude.{◌≡◌, ◌≤◌, length, slice_get};
ghost use Rattle.vtl_base.specs.Steps.{AddsDigits};
ghost use Rattle.object_index.specs.Inner.RunSearch.{IsLastBelow, IsNotBelow, key_of};
ghost use Rattle.object_index.specs.Inner.Tables.{IsSplitAt};

use crate::runs::{MarkRun, Runs};
use crate::tables::BlockEntry;
use vtl_base::{ObjNo, Steps};

// The number of a run by which the search goes.
#[derive(Clone, Copy)]
pub(crate) enum Key {
    First,
    Before,
}

// The first runs whose numbers are below a bound: how many they are, and the last of them.
#[derive(Clone, Copy)]
pub(crate) struct Below {
    pub(crate) count: usize,
    pub(crate) last: Option<MarkRun>,
}

// How many blocks have an object number lower than `at`, by binary search: among 16,000,000 blocks in 24 steps. Each
// step of the search is one turn of this loop.
pub(crate) fn blocks_before(blocks: &[BlockEntry], at: ObjNo) -> usize
    ensures within { result ≤ length blocks.now }
    ensures split { IsSplitAt blocks.now at result }
{
    let mut low = 0;
    let mut high = blocks.len();
    while low < high {
        let middle = low + (high - low) / 2;
        if blocks[middle].number < at {
            low = middle + 1;
        } else {
            high = middle;
        }
    }
    low
}

fn key_of(by: Key, run: MarkRun) -> u32
    ensures { result ≡ key_of by run }
{
    match by {
        Key::First => run.first,
        Key::Before => run.before,
    }
}

// Finds the first runs whose numbers, chosen by `by`, are below a bound: how many they are, and the last of them. It is
// a binary search.
pub(crate) fn runs_below(runs: &Runs, by: Key, bound: u64, steps: &mut Steps) -> Below
    ensures within { result.count ≤ length runs.now.runs }
    ensures last { IsLastBelow runs.now.runs by bound result.count result.last }
    ensures behind { IsNotBelow (slice_get runs.now.runs result.count) by bound }
    ensures steps { AddsDigits steps.old steps.new (length runs.now.runs) }
{
    let mut from = 0;
    let mut to = runs.len();
    let mut last = None;
    while from < to {
        let half = from + (to - from) / 2;
        let run = runs.at(half, steps);
        if (key_of(by, run) as u64) < bound {
            last = Some(run);
            from = half + 1;
        } else {
            to = half;
        }
    }
    Below { count: from, last }
}
