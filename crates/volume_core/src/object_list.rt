//! The objects of a partition, each with how many bytes the objects up to it take.
ghost use Rattle.std.specs.Prelude.{◌≡◌, ◌+◌, ◌*◌, ◌≤◌, ◌<◌, ◌^◌, ◌++◌, ◌∷◌, [], IfErr, Some, OnOk, OnErr, vec_capacity, length, take, replicate, slice_get};
ghost use Rattle.std.specs.Bool.{MatchBool};
ghost use Rattle.std.specs.Option.{option_copied};
ghost use Rattle.vtl_base.specs.declared.limits.TheConstants.{OBJECT_COST};
ghost use Rattle.volume_core.specs.declared.objects.Object.TheVariants as Objects;
ghost use Rattle.volume_core.specs.declared.objects.Kind.TheVariants as Kinds;
ghost use Rattle.volume_core.specs.Volume.{cost_of, used_of, kind_in, block_in, marks_in};

use crate::objects::{Kind, Object};
use std::alloc::{AllocError, Global};
use std::marker::Model;
use vtl_base::Bytes;
use vtl_base::limits::OBJECT_COST;

// Objects in order. A contract sees them as a list. Beside each stands what the objects up to it take, itself included,
// so that no call walks over them.
#[derive(Drop)]
pub(crate) struct ObjectList {
    objects: Vec<Object>,
    costs: Vec<u64>,
}

impl Model for ObjectList {
    ghost use Rattle.std.specs.Prelude.{List};
    ghost use Rattle.volume_core.specs.declared.objects.Object.{Object};
    ghost use Rattle.volume_core.specs.Inner.ObjectList.{IsTally};

    ghost Value = { List Object };

    ghost view = { λ s. s.objects.items };

    ghost invariant = { λ s. IsTally s.objects.items s.costs.items };
}

impl ObjectList {
    pub(crate) fn new(alloc: Global) -> Self
        ensures { result ≡ [] }
    {
        ObjectList {
            objects: Vec::new(alloc),
            costs: Vec::new(alloc),
        }
    }

    pub(crate) fn len(&self) -> usize
        ensures { result ≡ length self.now }
    {
        self.objects.len()
    }

    pub(crate) fn kind_at(&self, at: usize) -> Option<Kind>
        ensures { result ≡ kind_in (slice_get self.now at) }
    {
        self.objects.get(at).map(|object| object.kind())
    }

    pub(crate) fn block_at(&self, at: usize) -> Option<&[u8]>
        ensures { option_copied result ≡ block_in (slice_get self.now at) }
    {
        match self.objects.get(at) {
            Some(Object::Block(block)) => Some(block.as_slice()),
            _ => None,
        }
    }

    // How many bytes the first n objects take. Where there are fewer, all of them are counted.
    pub(crate) fn used(&self, n: usize) -> u64
        ensures { result ≡ used_of (take n self.now) }
    {
        let n = n.min(self.objects.len());
        if n == 0 { 0 } else { self.costs[n - 1] }
    }

    // Whether the object at a place is a filemark; if not, it is a block.
    fn is_mark_at(&self, at: usize) -> bool
        requires { at < length self.now }
        ensures { MatchBool result (kind_in (slice_get self.now at) ≡ Some Kinds.Mark)
            (kind_in (slice_get self.now at) ≡ Some Kinds.Block) }
    {
        matches!(self.kind_at(at), Some(Kind::Mark))
    }

    // How many filemarks are among the first n objects. Where there are fewer objects, all filemarks are counted.
    #[tactic(auto, using(crate::proofs::MarkLemmas::mark_more, crate::proofs::MarkLemmas::block_more))]
    pub(crate) fn marks_upto(&self, n: usize) -> usize
        ensures marks { result ≡ marks_in (take n self.now) }
        ensures bound { result ≤ length self.now }
    {
        let mut marks = 0;
        for at in 0..n.min(self.objects.len()) {
            if self.is_mark_at(at) {
                marks += 1;
            }
        }
        marks
    }

    // The object number of filemark k; the first filemark is filemark 0.
    #[tactic(auto, using(crate::proofs::MarkLemmas::mark_more, crate::proofs::MarkLemmas::block_more))]
    pub(crate) fn mark_at(&self, k: usize) -> usize
        requires { k < marks_in self.now }
        ensures mark { kind_in (slice_get self.now result) ≡ Some Kinds.Mark }
        ensures before { marks_in (take result self.now) ≡ k }
        ensures within { result < length self.now }
    {
        let mut left = k;
        for at in 0..self.objects.len() {
            if self.is_mark_at(at) {
                if left == 0 {
                    return at;
                }
                left -= 1;
            }
        }
        unreachable!()
    }

    // Cuts after the first `at` objects and appends this block, which is returned where memory runs out.
    pub(crate) fn put(&mut self, at: usize, block: Bytes) -> Result<(), Bytes>
        requires at { at ≤ length self.old }
        requires fits { used_of (take at self.old) + cost_of (Objects.Block block) < 2 ^ 64 }
        ensures ok { OnOk result (self.new ≡ take at self.old ++ Objects.Block block ∷ []) }
        ensures err { IfErr result (λ back. (back ≡ block) × (self.new ≡ self.old)) }
    {
        let cost = self.used(at) + block.len() as u64 + OBJECT_COST;
        let count = at + 1;
        let Ok(()) = make_room(&mut self.objects, count) else {
            return Err(block);
        };
        let Ok(()) = make_room(&mut self.costs, count) else {
            return Err(block);
        };
        cut(&mut self.objects, at, count);
        cut(&mut self.costs, at, count);
        self.objects.push_reserved(Object::Block(block));
        self.costs.push_reserved(cost);
        Ok(())
    }

    // Cuts after the first `at` objects and appends this many marks.
    pub(crate) fn marks(&mut self, at: usize, added: u32) -> Result<(), AllocError>
        requires at { at ≤ length self.old }
        requires fits { used_of (take at self.old) + added * OBJECT_COST < 2 ^ 64 }
        ensures ok { OnOk result (self.new ≡ take at self.old ++ replicate added Objects.Mark) }
        ensures err { OnErr result (self.new ≡ self.old) }
    {
        let mut cost = self.used(at);
        let count = at + added as usize;
        make_room(&mut self.objects, count)?;
        make_room(&mut self.costs, count)?;
        cut(&mut self.objects, at, count);
        cut(&mut self.costs, at, count);
        for _ in 0..added {
            cost += OBJECT_COST;
            self.objects.push_reserved(Object::Mark);
            self.costs.push_reserved(cost);
        }
        Ok(())
    }

    // Cuts after the first `at` objects.
    pub(crate) fn erase(&mut self, at: usize)
        ensures { self.new ≡ take at self.old }
    {
        cut(&mut self.objects, at, 0);
        cut(&mut self.costs, at, 0);
    }
}

// Makes room for this many items in all. It takes memory only where the capacity is less.
fn make_room<T>(row: &mut Vec<T>, count: usize) -> Result<(), AllocError>
    ensures same { row.new.items ≡ row.old.items }
    ensures ok { OnOk result (count ≤ vec_capacity row.new) }
    ensures full { OnErr result (vec_capacity row.old < count) }
{
    row.reserve(count.saturating_sub(row.len()))
}

// Cuts after the first n items, and leaves room for `count` in all. Room for far more than that is freed.
fn cut<T: Drop>(row: &mut Vec<T>, n: usize, count: usize)
    requires { count ≤ vec_capacity row.old }
    ensures items { row.new.items ≡ take n row.old.items }
    ensures room { count ≤ vec_capacity row.new }
{
    row.truncate(n);
    let wanted = count.max(row.len());
    if wanted < row.capacity() / 4 {
        row.shrink_to(wanted * 2);
    }
}
