//! Volumes in memory.
ghost use Rattle.std.specs.Prelude.{◌≡◌, ◌≤◌, IsTrue, IfOk, IfErr, IfSome, Err, length, slice_get};
ghost use Rattle.std.specs.List.{list_all};
ghost use Rattle.std.specs.Option.{option_copied};
ghost use Rattle.vtl_base.specs.declared.limits.TheConstants.{MAX_BLOCK};
ghost use Rattle.vtl_base.specs.Limits.{is_capacity};
ghost use Rattle.volume_core.specs.declared.volumes.ApplyError.TheVariants as Errors;
ghost use Rattle.volume_core.specs.Volume.{AddsObjects, Applies, IsPart, apply_answer, are_capacities, block_at, empty_volume, is_in_early_zone};

use crate::changes::{Change, Refusal};
use crate::media::Catalog;
use crate::objects::Kind;
use crate::partitions::Partition;
use crate::refusals::refusal;
use std::alloc::{AllocError, Global};
use std::marker::Model;
use thiserror::Error;
use vtl_base::limits::{MAX_CAPACITY, MAX_PARTITIONS, MIN_CAPACITY};
use vtl_base::{NoMemory, ObjNo, PartNo};

/// Why a volume did not carry out a change.
#[derive(Clone, Copy, PartialEq, Eq, Debug, Error)]
pub enum ApplyError {
    /// The change itself is refused, for this cause.
    #[error("refused")]
    Refused(Refusal),
    /// The change would not be refused, but memory ran out.
    #[error("out of memory")]
    NoMemory,
}

/// A change that a volume did not carry out, and why. Nothing has changed.
#[derive(Drop)]
pub struct NotApplied {
    /// Why it was not carried out.
    pub error: ApplyError,
    /// The change, as it was.
    pub change: Change,
}

impl From<AllocError> for ApplyError {
    ghost use Rattle.std.specs.Prelude.{◌≡◌};
    ghost use Rattle.volume_core.specs.declared.volumes.ApplyError.TheVariants as Errors;

    ghost from_gives = { λ _ error. error ≡ Errors.NoMemory };

    fn from(_: AllocError) -> Self {
        ApplyError::NoMemory
    }
}

fn is_capacity(bytes: u64) -> bool
    ensures { result ≡ is_capacity bytes }
{
    MIN_CAPACITY <= bytes && bytes <= MAX_CAPACITY
}

fn all_capacities(capacities: &[u64]) -> bool
    ensures { result ≡ list_all is_capacity capacities.now }
{
    capacities.iter().all(|&bytes| is_capacity(bytes))
}

/// Whether a volume can have partitions of these capacities: there are 1 to 4 of them, each of 4,096 to
/// 1,099,511,627,776 bytes (own).
pub fn are_capacities(capacities: &[u64]) -> bool
    ensures { result ≡ are_capacities capacities.now }
{
    !capacities.is_empty()
        && capacities.len() <= MAX_PARTITIONS as usize
        && all_capacities(capacities)
}

/// Whether a partition of `capacity` bytes, of which `used` are taken, reaches into the last sixteenth of its capacity,
/// rounded down to whole bytes (own, for early warning of SSC-4).
pub fn is_in_early_zone(capacity: u64, used: u64) -> bool
    ensures { result ≡ is_in_early_zone capacity used }
{
    used > capacity - capacity / 16
}

/// The contents of a cartridge, in memory: 1 to 4 partitions of objects. A contract sees the list of its partitions.
#[derive(Drop)]
pub struct Volume {
    partitions: Vec<Partition>,
}

impl Model for Volume {
    ghost use Rattle.std.specs.Prelude.{List};
    ghost use Rattle.volume_core.specs.Volume.{Part, IsVolume};

    ghost Value = { List Part };

    ghost view = { λ v. v.partitions.items };

    ghost invariant = { λ v. IsVolume v.partitions.items };
}

impl Volume {
    /// Makes a volume of empty partitions with these capacities in bytes. They must be capacities that a volume can
    /// have, which `are_capacities` tests. If memory runs out, `NoMemory` is returned.
    pub fn new(alloc: Global, capacities: &[u64]) -> Result<Self, NoMemory>
        requires { IsTrue (are_capacities capacities.now) }
        ensures { IfOk result (λ volume. volume ≡ empty_volume capacities.now) }
    {
        let mut partitions = Vec::with_capacity(alloc, capacities.len())?;
        for capacity in capacities {
            partitions.push_reserved(Partition::new(alloc, *capacity));
        }
        Ok(Volume { partitions })
    }

    // The partition with this number, if there is one.
    fn partition(&self, part: PartNo) -> Option<&Partition>
        ensures partition { option_copied result ≡ slice_get self.now part }
        ensures limits { IfSome result (λ partition. IsPart partition.now) }
    {
        self.partitions.get(part as usize)
    }

    /// The bytes of the block with number `at` in a partition; None where there is no such object, or it is a filemark.
    pub fn block_at(&self, part: PartNo, at: ObjNo) -> Option<&[u8]>
        ensures block { option_copied result ≡ block_at self.now part at }
        ensures bound { IfSome result (λ block. length block.now ≤ MAX_BLOCK) }
    {
        self.partition(part)?.block_at(at as usize)
    }

    /// Carries out a change, or refuses it for the first cause that holds. The error is `NoMemory` only if no cause
    /// holds, and never for an erase, which needs no memory. After an error nothing has changed, and the change is
    /// returned with the error.
    pub fn apply(&mut self, change: Change) -> Result<(), NotApplied>
        ensures answer { Applies self.old change (apply_answer result) self.new }
        ensures returned { IfErr result (λ refused. refused.change ≡ change) }
        ensures memory { apply_answer result ≡ Err Errors.NoMemory → AddsObjects change }
    {
        if let Some(cause) = refusal(self, &change) {
            let error = ApplyError::Refused(cause);
            return Err(NotApplied { error, change });
        }
        let partition = &mut self.partitions[change.part() as usize];
        match partition.apply(change) {
            Ok(()) => Ok(()),
            Err(change) => {
                let error = ApplyError::NoMemory;
                Err(NotApplied { error, change })
            }
        }
    }
}

impl Catalog for Volume {
    ghost use Rattle.volume_core.specs.Plain.{volume_state};

    ghost state = { volume_state };

    fn parts(&self) -> PartNo {
        self.partitions.len() as PartNo
    }

    fn capacity(&self, part: PartNo) -> u64 {
        match self.partition(part) {
            Some(partition) => partition.capacity(),
            None => 0,
        }
    }

    fn count(&self, part: PartNo) -> u32 {
        match self.partition(part) {
            Some(partition) => partition.count(),
            None => 0,
        }
    }

    fn kind_at(&self, part: PartNo, at: ObjNo) -> Option<Kind> {
        self.partition(part)?.kind_at(at as usize)
    }

    fn used(&self, part: PartNo, n: ObjNo) -> u64 {
        match self.partition(part) {
            Some(partition) => partition.used(n as usize),
            None => 0,
        }
    }

    fn marks_upto(&self, part: PartNo, n: ObjNo) -> u32 {
        match self.partition(part) {
            Some(partition) => partition.marks_upto(n as usize),
            None => 0,
        }
    }

    fn mark_at(&self, part: PartNo, k: u32) -> ObjNo {
        match self.partition(part) {
            Some(partition) => partition.mark_at(k as usize),
            None => unreachable!(),
        }
    }
}
