//! The index of a cartridge: where each object lies.
ghost use Rattle.std.specs.Prelude.{◌≡◌, ◌≤◌, ◌<◌, ◌+◌, ◌-◌, ◌^◌, ◌++◌, IsTrue, Err, IfOk, IfSome, OnOk, OnErr, length, map, take, slice_get};
ghost use Rattle.std.specs.Option.{option_copied};
ghost use Rattle.vtl_base.specs.declared.limits.TheConstants.{MAX_PARTITIONS};
ghost use Rattle.volume_core.specs.Volume.{AppliesUnless, IsVolume, are_capacities, refusal_of};
ghost use Rattle.object_index.specs.MarkRuns.{AddsDigitsOfRuns, IsRunUpto, IsRunWith};
ghost use Rattle.change_records.specs.Records.{outlined, record_part};
ghost use Rattle.object_index.specs.Places.{CanAdd, empty_placed, objects_of_run, outline, placed_after, placed_objects, reserved_of, runs_of, unreserved, with_objects};
ghost use Rattle.volume_core.specs.declared.volumes.ApplyError.TheVariants as Errors;

use crate::partitions::PlacedPartition;
use crate::places::{Placed, Run};
use crate::runs::MarkRun;
use change_records::Record;
use std::alloc::Global;
use std::marker::Model;
use volume_core::{ApplyError, Catalog, Kind, Refusal, refusal_for};
use vtl_base::{NoMemory, ObjNo, PartNo, Steps};

/// An index of where each object of a cartridge lies. It has 1 to 4 partitions, with an entry of 24 bytes for each
/// block and one of 12 bytes for each run of filemarks. A contract sees the list of its partitions, each with the list
/// of its objects and their places. No call except `copy` walks through a whole partition.
#[derive(Drop)]
pub struct Index {
    partitions: Vec<PlacedPartition>,
}

impl Model for Index {
    ghost use Rattle.std.specs.Prelude.{List};
    ghost use Rattle.volume_core.specs.Volume.{IsVolume};
    ghost use Rattle.object_index.specs.Places.{PlacedPart, outline};

    ghost Value = { List PlacedPart };

    ghost view = { λ index. index.partitions.items };

    ghost invariant = { λ index. IsVolume (outline index.partitions.items) };
}

impl Index {
    /// Makes an index of empty partitions with these capacities in bytes, which `volume_core::are_capacities` must
    /// accept.
    pub fn new(alloc: Global, capacities: &[u64]) -> Result<Self, NoMemory>
        requires { IsTrue (are_capacities capacities.now) }
        ensures { IfOk result (λ index. index ≡ map empty_placed capacities.now) }
    {
        let mut partitions = Vec::with_capacity(alloc, capacities.len())?;
        for capacity in capacities {
            partitions.push_reserved(PlacedPartition::new(alloc, *capacity));
        }
        Ok(Index { partitions })
    }

    /// Copies the index, with nothing reserved in the copy. Returns an error where memory runs out.
    pub fn copy(&self, alloc: Global) -> Result<Self, NoMemory>
        ensures { IfOk result (λ copy. copy ≡ map unreserved self.now) }
    {
        let mut partitions = Vec::with_capacity(alloc, self.partitions.len())?;
        for partition in &self.partitions {
            partitions.push_reserved(partition.copy(alloc)?);
        }
        Ok(Index { partitions })
    }

    // The partition with this number, if there is one.
    fn partition(&self, part: PartNo) -> Option<&PlacedPartition>
        ensures { option_copied result ≡ slice_get self.now part }
    {
        self.partitions.get(part as usize)
    }

    /// The object with number `at` in a partition; for a block, with its place and its length. None where there is no
    /// such object.
    pub fn place(&self, part: PartNo, at: ObjNo) -> Option<Placed>
        ensures { result ≡ slice_get (placed_objects self.now part) at }
    {
        self.partition(part)?.place(at)
    }

    /// The last run of filemarks of a partition that begins before object number `n`; None where no filemark comes
    /// before that object. A binary search finds the run, and adds at most 24 steps to `steps`.
    pub fn run_upto(&self, part: PartNo, n: ObjNo, steps: &mut Steps) -> Option<MarkRun>
        ensures found { IsRunUpto (placed_objects self.now part) n result }
        ensures steps { AddsDigitsOfRuns (placed_objects self.now part) steps.old steps.new }
        ensures most { steps.new ≤ steps.old + 24 }
    {
        match self.partition(part) {
            Some(partition) => partition.run_upto(n, steps),
            None => None,
        }
    }

    /// The run that contains filemark `k` of a partition, counted from 0; None where the partition has at most `k`
    /// filemarks. A binary search finds the run, and adds at most 24 steps to `steps`.
    pub fn run_of(&self, part: PartNo, k: u32, steps: &mut Steps) -> Option<MarkRun>
        ensures found { IsRunWith (placed_objects self.now part) k result }
        ensures steps { AddsDigitsOfRuns (placed_objects self.now part) steps.old steps.new }
        ensures most { steps.new ≤ steps.old + 24 }
    {
        match self.partition(part) {
            Some(partition) => partition.run_of(k, steps),
            None => None,
        }
    }

    // Why the change of a record is refused; None where it is not.
    fn refusal(&self, item: Record) -> Option<Refusal>
        ensures { result ≡ refusal_of (outline self.now) (outlined item) }
    {
        refusal_for(self, item.part(), item.staying(), item.demand())
    }

    /// Reserves memory for `runs` later additions to a partition, which then allocate nothing. An addition is a block
    /// or a run of filemarks. Since either may come, 24 bytes for a block and 12 bytes for a run are reserved for each
    /// addition.
    pub fn reserve(&mut self, part: PartNo, runs: usize) -> Result<(), NoMemory>
        requires { part < length self.old }
        ensures same { self.new ≡ with_objects self.old part (placed_objects self.old part)
            (reserved_of self.new part) }
        ensures grows { reserved_of self.old part ≤ reserved_of self.new part }
        ensures ok { OnOk result (runs ≤ reserved_of self.new part) }
        ensures err { OnErr result
            ((reserved_of self.old part < runs) × (self.new ≡ self.old)) }
    {
        let partition = &mut self.partitions[part as usize];
        partition.reserve(runs)?;
        Ok(())
    }

    /// Cuts a partition after its first `n` objects, and removes all later ones. Where the partition has fewer objects,
    /// all of them stay.
    pub fn cut_at(&mut self, part: PartNo, n: ObjNo)
        requires { part < length self.old }
        ensures objects { self.new ≡ with_objects self.old part
            (take n (placed_objects self.old part)) (reserved_of self.new part) }
        ensures reserved { reserved_of self.old part ≤ reserved_of self.new part }
    {
        let partition = &mut self.partitions[part as usize];
        partition.cut(n);
    }

    /// Appends `run`, a block or a run of filemarks, to the objects of a partition, whose limits it must not exceed.
    /// Allocates memory only where nothing is reserved in the partition. After an `Err` nothing has changed.
    pub fn add(&mut self, part: PartNo, run: Run) -> Result<(), NoMemory>
        requires there { part < length self.old }
        requires fits { IfSome (slice_get self.old part) (λ p. CanAdd p run) }
        ensures ok { OnOk result (self.new ≡ with_objects self.old part
            (placed_objects self.old part ++ objects_of_run run) (reserved_of self.new part)) }
        ensures reserved { OnOk result
            (reserved_of self.old part ≤ reserved_of self.new part + 1) }
        ensures err { OnErr result ((reserved_of self.old part ≡ 0) × (self.new ≡ self.old)) }
    {
        let partition = &mut self.partitions[part as usize];
        partition.add(run)?;
        Ok(())
    }

    /// Carries out the change of the record `item`, whose block lies at `place`, or refuses the change for the first
    /// cause that holds. Allocates memory only where nothing is reserved in the record's partition, and never for an
    /// erase. Returns `NoMemory` only where there is no cause to refuse the change. After an `Err` nothing has changed.
    pub fn apply(&mut self, item: Record, place: u64) -> Result<(), ApplyError>
        requires { place < 2 ^ 64 - 1 }
        ensures answer { AppliesUnless (refusal_of (outline self.old) (outlined item)) self.old
            (placed_after self.old item place (reserved_of self.new (record_part item)))
            result self.new }
        ensures reserved { reserved_of self.old (record_part item)
            ≤ reserved_of self.new (record_part item) + runs_of item }
        ensures memory { result ≡ Err Errors.NoMemory →
            reserved_of self.old (record_part item) < runs_of item }
    {
        if let Some(cause) = self.refusal(item) {
            return Err(ApplyError::Refused(cause));
        }
        let partition = &mut self.partitions[item.part() as usize];
        match partition.apply(item, place) {
            Ok(()) => Ok(()),
            Err(_) => Err(ApplyError::NoMemory),
        }
    }
}

impl Catalog for Index {
    ghost use Rattle.volume_core.specs.Plain.{volume_state};
    ghost use Rattle.object_index.specs.Places.{PlacedPart, outline};
    ghost use Rattle.std.specs.Prelude.{List};

    ghost state = { λ (parts : List PlacedPart). volume_state (outline parts) };

    fn parts(&self) -> PartNo
        ensures parts { result ≡ length self.now }
        ensures some { 1 ≤ result }
        ensures few { result ≤ MAX_PARTITIONS }
        ensures limits { IsVolume (outline self.now) }
    {
        self.partitions.len() as PartNo
    }

    fn capacity(&self, part: PartNo) -> u64 {
        match self.partition(part) {
            Some(partition) => partition.capacity(),
            None => 0,
        }
    }

    fn count(&self, part: PartNo) -> ObjNo {
        match self.partition(part) {
            Some(partition) => partition.count(),
            None => 0,
        }
    }

    fn kind_at(&self, part: PartNo, at: ObjNo) -> Option<Kind> {
        Some(self.place(part, at)?.kind())
    }

    fn used(&self, part: PartNo, n: ObjNo) -> u64 {
        match self.partition(part) {
            Some(partition) => partition.used(n),
            None => 0,
        }
    }

    fn marks_upto(&self, part: PartNo, n: ObjNo) -> u32 {
        // Called for the proof: a partition has no more objects than it may.
        let _ = self.count(part);
        let mut steps = Steps::new();
        match self.run_upto(part, n, &mut steps) {
            Some(run) => run.before + run.count.min(n - run.first),
            None => 0,
        }
    }

    fn mark_at(&self, part: PartNo, k: u32) -> ObjNo {
        // Called for the proof: a partition has no more objects than it may.
        let _ = self.count(part);
        let mut steps = Steps::new();
        match self.run_of(part, k, &mut steps) {
            Some(run) => run.first + (k - run.before),
            None => unreachable!(),
        }
    }
}
