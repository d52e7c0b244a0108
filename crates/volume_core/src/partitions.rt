//! Partitions in memory.
ghost use Rattle.std.specs.Prelude.{◌≡◌, ◌≤◌, ◌<◌, IsTrue, IfErr, OnOk, None, Some, slice_get, take, length};
ghost use Rattle.std.specs.Option.{option_copied};
ghost use Rattle.vtl_base.specs.declared.limits.TheConstants.{MAX_CAPACITY, MAX_OBJECTS};
ghost use Rattle.vtl_base.specs.Limits.{is_capacity};
ghost use Rattle.volume_core.specs.Volume.{IsPart, empty_part, used_of, kind_in, block_in, marks_in, refusal_in, part_after, AddsObjects};
ghost use Rattle.volume_core.specs.declared.objects.Kind.TheVariants as Kinds;

use crate::changes::Change;
use crate::object_list::ObjectList;
use crate::objects::Kind;
use std::alloc::Global;
use std::marker::Model;

// A partition. A contract sees its capacity and its objects.
#[derive(Drop)]
pub(crate) struct Partition {
    capacity: u64,
    stock: ObjectList,
}

impl Model for Partition {
    ghost use Rattle.volume_core.specs.Volume.{Part, IsPart};

    ghost Value = { Part };

    ghost view = { λ p. record { capacity = p.capacity; objects = p.stock } };

    ghost invariant = { λ p. IsPart (record { capacity = p.capacity; objects = p.stock }) };
}

impl Partition {
    pub(crate) fn new(alloc: Global, capacity: u64) -> Self
        requires { IsTrue (is_capacity capacity) }
        ensures part { result ≡ empty_part capacity }
        ensures limits { IsPart result }
    {
        Partition {
            capacity,
            stock: ObjectList::new(alloc),
        }
    }

    pub(crate) fn capacity(&self) -> u64
        ensures { result ≡ self.now.capacity }
    {
        self.capacity
    }

    pub(crate) fn count(&self) -> u32
        ensures { result ≡ length self.now.objects }
    {
        self.stock.len() as u32
    }

    pub(crate) fn kind_at(&self, at: usize) -> Option<Kind>
        ensures { result ≡ kind_in (slice_get self.now.objects at) }
    {
        self.stock.kind_at(at)
    }

    pub(crate) fn block_at(&self, at: usize) -> Option<&[u8]>
        ensures { option_copied result ≡ block_in (slice_get self.now.objects at) }
    {
        self.stock.block_at(at)
    }

    // How many bytes the first n objects take. Where there are fewer, all of them are counted.
    pub(crate) fn used(&self, n: usize) -> u64
        ensures used { result ≡ used_of (take n self.now.objects) }
        ensures bound { result ≤ self.now.capacity }
    {
        self.stock.used(n)
    }

    // How many marks are among the first n objects.
    pub(crate) fn marks_upto(&self, n: usize) -> u32
        ensures marks { result ≡ marks_in (take n self.now.objects) }
        ensures bound { result ≤ MAX_OBJECTS }
    {
        self.stock.marks_upto(n) as u32
    }

    // The object number of filemark k; the first filemark is filemark 0.
    pub(crate) fn mark_at(&self, k: usize) -> u32
        requires { k < marks_in self.now.objects }
        ensures mark { kind_in (slice_get self.now.objects result) ≡ Some Kinds.Mark }
        ensures before { marks_in (take result self.now.objects) ≡ k }
    {
        self.stock.mark_at(k) as u32
    }

    // Carries out a change of this partition that is not refused. It is returned where memory runs out, and an erase
    // takes none.
    pub(crate) fn apply(&mut self, change: Change) -> Result<(), Change>
        requires { refusal_in (Some self.old) change ≡ None }
        ensures ok { OnOk result (self.new ≡ part_after self.old change) }
        ensures err { IfErr result (λ back. (back ≡ change) × (self.new ≡ self.old) × AddsObjects change) }
        ensures limits { IsPart self.new }
    {
        match change {
            Change::Put { part, at, block } => match self.stock.put(at as usize, block) {
                Ok(()) => Ok(()),
                Err(block) => Err(Change::Put { part, at, block }),
            },
            Change::Marks { part, at, count } => match self.stock.marks(at as usize, count) {
                Ok(()) => Ok(()),
                Err(_) => Err(Change::Marks { part, at, count }),
            },
            Change::Erase { at, .. } => {
                self.stock.erase(at as usize);
                Ok(())
            }
        }
    }
}
