//! The partitions of an index.
ghost use Rattle.std.specs.Prelude.{◌≡◌, ◌≤◌, ◌<◌, ◌+◌, ◌-◌, ◌^◌, ◌++◌, [], IsTrue, IfOk, OnOk, OnErr, None, Some, length, take, slice_get};
ghost use Rattle.vtl_base.specs.declared.limits.TheConstants.{MAX_CAPACITY, MAX_OBJECTS};
ghost use Rattle.vtl_base.specs.Limits.{is_capacity};
ghost use Rattle.volume_core.specs.Volume.{IsPart, refusal_in, used_of};
ghost use Rattle.object_index.specs.MarkRuns.{AddsDigitsOfRuns, IsRunUpto, IsRunWith};
ghost use Rattle.change_records.specs.Records.{record_staying, outlined};
ghost use Rattle.object_index.specs.Places.{CanAdd, IsPlace, blank, empty_placed, filled_part, objects_of_run, placed_by, runs_of, unreserved, with_run};

use crate::places::{Placed, Run};
use crate::runs::MarkRun;
use crate::tables::ObjectTable;
use change_records::Record;
use std::alloc::{AllocError, Global};
use std::marker::Model;
use vtl_base::{ObjNo, Steps};

// A partition. A contract sees its capacity, its objects with their places, and how many runs can be added
// without memory.
#[derive(Drop)]
pub(crate) struct PlacedPartition {
    capacity: u64,
    table: ObjectTable,
}

impl Model for PlacedPartition {
    ghost use Rattle.volume_core.specs.Volume.{IsPart};
    ghost use Rattle.object_index.specs.Places.{PlacedPart, blank, filled_part};

    ghost Value = { PlacedPart };

    ghost view = { λ p. record {
      capacity = p.capacity;
      objects = p.table.objects;
      reserved = p.table.reserved;
    } };

    ghost invariant = { λ p. IsPart (filled_part blank (record {
      capacity = p.capacity;
      objects = p.table.objects;
      reserved = p.table.reserved;
    })) };
}

impl PlacedPartition {
    pub(crate) fn new(alloc: Global, capacity: u64) -> Self
        requires { IsTrue (is_capacity capacity) }
        ensures part { result ≡ empty_placed capacity }
        ensures limits { IsPart (filled_part blank result) }
    {
        PlacedPartition {
            capacity,
            table: ObjectTable::new(alloc),
        }
    }

    // A copy of the partition, with nothing reserved.
    pub(crate) fn copy(&self, alloc: Global) -> Result<Self, AllocError>
        ensures part { IfOk result (λ copy. copy ≡ unreserved self.now) }
        ensures limits { IfOk result (λ copy. IsPart (filled_part blank copy)) }
    {
        let table = self.table.copy(alloc)?;
        Ok(PlacedPartition {
            capacity: self.capacity,
            table,
        })
    }

    pub(crate) fn capacity(&self) -> u64
        ensures capacity { result ≡ self.now.capacity }
        ensures bound { result ≤ MAX_CAPACITY }
    {
        self.capacity
    }

    pub(crate) fn count(&self) -> ObjNo
        ensures count { result ≡ length self.now.objects }
        ensures bound { result ≤ MAX_OBJECTS }
    {
        self.table.count()
    }

    pub(crate) fn place(&self, at: ObjNo) -> Option<Placed>
        ensures { result ≡ slice_get self.now.objects at }
    {
        self.table.place(at)
    }

    // How many bytes the first n objects take. Where there are fewer, all of them are counted.
    pub(crate) fn used(&self, n: ObjNo) -> u64
        ensures used { result ≡ used_of (take n (filled_part blank self.now).objects) }
        ensures bound { result ≤ self.now.capacity }
    {
        self.table.used(n)
    }

    // The last run of filemarks that begins before object number n; None where no filemark stands before it.
    pub(crate) fn run_upto(&self, n: ObjNo, steps: &mut Steps) -> Option<MarkRun>
        ensures found { IsRunUpto self.now.objects n result }
        ensures steps { AddsDigitsOfRuns self.now.objects steps.old steps.new }
        ensures most { steps.new ≤ steps.old + 24 }
    {
        self.table.run_upto(n, steps)
    }

    // The run that has filemark k, where the first filemark is filemark 0; None where there are at most k filemarks.
    pub(crate) fn run_of(&self, k: u32, steps: &mut Steps) -> Option<MarkRun>
        ensures found { IsRunWith self.now.objects k result }
        ensures steps { AddsDigitsOfRuns self.now.objects steps.old steps.new }
        ensures most { steps.new ≤ steps.old + 24 }
    {
        self.table.run_of(k, steps)
    }

    // Makes room for `runs` more runs, which then take no memory.
    pub(crate) fn reserve(&mut self, runs: usize) -> Result<(), AllocError>
        ensures same { self.new ≡ record self.old { reserved = self.new.reserved } }
        ensures grows { self.old.reserved ≤ self.new.reserved }
        ensures ok { OnOk result (runs ≤ self.new.reserved) }
        ensures err { OnErr result ((self.old.reserved < runs) × (self.new ≡ self.old)) }
        ensures limits { IsPart (filled_part blank self.new) }
    {
        self.table.reserve(runs)
    }

    // Cuts the partition after its first n objects; all stay where there are fewer.
    pub(crate) fn cut(&mut self, n: ObjNo)
        ensures objects { self.new ≡ record self.old {
          objects = take n self.old.objects;
          reserved = self.new.reserved;
        } }
        ensures reserved { self.old.reserved ≤ self.new.reserved }
        ensures limits { IsPart (filled_part blank self.new) }
    {
        self.table.cut(n);
    }

    // Appends a run to the objects.
    pub(crate) fn add(&mut self, run: Run) -> Result<(), AllocError>
        requires { CanAdd self.old run }
        ensures ok { OnOk result (self.new ≡ record self.old {
          objects = self.old.objects ++ objects_of_run run;
          reserved = self.new.reserved;
        }) }
        ensures reserved { OnOk result (self.old.reserved ≤ self.new.reserved + 1) }
        ensures err { OnErr result ((self.old.reserved ≡ 0) × (self.new ≡ self.old)) }
        ensures limits { IsPart (filled_part blank self.new) }
    {
        self.table.reserve(1)?;
        self.table.add(run);
        Ok(())
    }

    // Carries out a record for this partition, whose change is not refused.
    pub(crate) fn apply(&mut self, item: Record, place: u64) -> Result<(), AllocError>
        requires place { place < 2 ^ 64 - 1 }
        requires fits { refusal_in (Some (filled_part blank self.old)) (outlined item) ≡ None }
        ensures ok { OnOk result (self.new ≡ record {
          capacity = self.old.capacity;
          objects = take (record_staying item) self.old.objects ++ placed_by item place;
          reserved = self.new.reserved;
        }) }
        ensures err { OnErr result ((self.old.reserved < runs_of item) × (self.new ≡ self.old)) }
        ensures reserved { self.old.reserved ≤ self.new.reserved + runs_of item }
        ensures limits { IsPart (filled_part blank self.new) }
    {
        if let Some(run) = Run::of(item, place) {
            self.table.reserve(1)?;
            self.table.cut(item.staying());
            self.table.add(run);
        } else {
            self.table.cut(item.staying());
        }
        Ok(())
    }
}
