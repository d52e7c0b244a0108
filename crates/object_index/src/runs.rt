//! Runs of filemarks, in order.
ghost use Rattle.std.specs.Prelude.{◌≡◌, ◌≤◌, ◌<◌, ◌+◌, ◌++◌, ◌∷◌, [], IfOk, OnOk, Some, length, take, slice_get};
ghost use Rattle.vtl_base.specs.Steps.{ticked};

use std::alloc::{AllocError, Global};
use std::marker::Model;
use vtl_base::{ObjNo, Steps};

/// A run of filemarks: consecutive filemarks of a partition. It occupies 12 bytes of memory.
#[derive(Clone, Copy, PartialEq, Eq, Debug)]
pub struct MarkRun {
    /// The object number of the run's first filemark.
    pub first: ObjNo,
    /// How many filemarks the run has.
    pub count: u32,
    /// How many filemarks of the partition come before the run.
    pub before: u32,
}

const _: () = prove!(size_of::<MarkRun>() == 12);

/// Runs of filemarks in order. A contract sees their list, and how many more can be added without allocating. A search
/// reads an entry only by `at`, and each call of `at` counts as one step.
#[derive(Drop)]
pub struct Runs {
    entries: Vec<MarkRun>,
}

impl Model for Runs {
    ghost use Rattle.std.specs.Prelude.{◌-◌, vec_len, vec_capacity};
    ghost use Rattle.object_index.specs.MarkRuns.{RunRow};

    ghost Value = { RunRow };

    ghost view = { λ r. record {
      runs = r.entries.items;
      free = vec_capacity r.entries - vec_len r.entries;
    } };
}

impl Runs {
    pub(crate) fn new(alloc: Global) -> Self
        ensures runs { result.runs ≡ [] }
    {
        Runs {
            entries: Vec::new(alloc),
        }
    }

    // A copy of the runs.
    pub(crate) fn copy(&self, alloc: Global) -> Result<Self, AllocError>
        ensures { IfOk result (λ copy. copy.runs ≡ self.now.runs) }
    {
        let mut entries = Vec::new(alloc);
        entries.extend_from_slice(&self.entries)?;
        Ok(Runs { entries })
    }

    /// How many runs there are.
    pub fn len(&self) -> usize
        ensures { result ≡ length self.now.runs }
    {
        self.entries.len()
    }

    /// The run with this number, counted from 0; there must be such a run. Adds one step to `steps`, whose count stops
    /// at 2^64 - 1.
    pub fn at(&self, number: usize, steps: &mut Steps) -> MarkRun
        requires { number < length self.now.runs }
        ensures run { slice_get self.now.runs number ≡ Some result }
        ensures step { steps.new ≡ ticked steps.old }
        ensures grows { steps.old ≤ steps.new }
    {
        steps.tick();
        self.entries[number]
    }

    // Reserves memory for `count` more runs, which then take none.
    pub(crate) fn reserve(&mut self, count: usize) -> Result<(), AllocError>
        ensures runs { self.new.runs ≡ self.old.runs }
        ensures grows { self.old.free ≤ self.new.free }
        ensures ok { OnOk result (count ≤ self.new.free) }
    {
        self.entries.reserve(count)
    }

    // Appends a run.
    pub(crate) fn push(&mut self, run: MarkRun)
        requires { 1 ≤ self.old.free }
        ensures runs { self.new.runs ≡ self.old.runs ++ run ∷ [] }
        ensures free { self.old.free ≡ self.new.free + 1 }
    {
        self.entries.push_reserved(run);
    }

    // Cuts the runs after the first `count`; all stay where there are fewer.
    pub(crate) fn keep(&mut self, count: usize)
        ensures runs { self.new.runs ≡ take count self.old.runs }
        ensures free { self.old.free + length self.old.runs ≡ self.new.free + length self.new.runs }
    {
        self.entries.truncate(count);
    }
}
