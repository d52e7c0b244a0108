//! The two tables of a partition: one of its blocks, one of its runs of filemarks.
ghost use Rattle.std.specs.Prelude.{◌≡◌, ◌≤◌, ◌<◌, ◌+◌, ◌^◌, ◌++◌, ◌∷◌, [], IfOk, OnOk, OnErr, length, replicate, take, slice_get};
ghost use Rattle.object_index.specs.declared.places.Placed.TheVariants as Placeds;
ghost use Rattle.object_index.specs.Places.{objects_of_run};
ghost use Rattle.object_index.specs.MarkRuns.{AddsDigitsOfRuns, IsRunUpto, IsRunWith};
ghost use Rattle.object_index.specs.Inner.Tables.{IsTable, blocks_of, cost_of_objects, objects_of, padded};

use crate::halving::{Key, blocks_before, runs_below};
use crate::places::{Placed, Run};
use crate::runs::{MarkRun, Runs};
use std::alloc::{AllocError, Global};
use std::marker::Model;
use vtl_base::limits::OBJECT_COST;
use vtl_base::{ObjNo, Steps};

// A block, in 24 bytes.
#[derive(Clone, Copy)]
pub(crate) struct BlockEntry {
    // Where it lies.
    pub place: u64,
    // What the objects up to it take, with the block itself, in bytes.
    pub cost: u64,
    // The number of its object.
    pub number: ObjNo,
    // How many bytes it has.
    pub size: u32,
}

const _: () = prove!(size_of::<BlockEntry>() == 24);

// The objects of a partition: an entry for each block, one for each run of filemarks, and how many objects
// there are. A contract sees their list, and how many entries can be added without memory.
#[derive(Drop)]
pub(crate) struct ObjectTable {
    blocks: Vec<BlockEntry>,
    runs: Runs,
    count: ObjNo,
    reserved: usize,
}

impl Model for ObjectTable {
    ghost use Rattle.std.specs.Prelude.{◌+◌, ◌≤◌, vec_len, vec_capacity};
    ghost use Rattle.object_index.specs.Inner.Table.{Table};
    ghost use Rattle.object_index.specs.Inner.Tables.{AreTables, objects_of};

    ghost Value = { Table };

    ghost view = { λ t. record {
      objects = objects_of t.blocks.items t.count;
      reserved = t.reserved;
    } };

    ghost invariant = { λ t. AreTables t.blocks.items t.runs.runs t.count
        × (vec_len t.blocks + t.reserved ≤ vec_capacity t.blocks)
        × (t.reserved ≤ t.runs.free) };
}

// The number of the object after the first `count` blocks.
fn end_of(blocks: &[BlockEntry], count: usize) -> ObjNo
    requires count { count ≤ length blocks.now }
    requires table { IsTable blocks.now }
    ensures { result ≡ length (blocks_of (take count blocks.now)) }
{
    if count == 0 {
        0
    } else {
        blocks[count - 1].number + 1
    }
}

// How many bytes the first `count` blocks take, with all filemarks before the last of them.
fn cost_of(blocks: &[BlockEntry], count: usize) -> u64
    requires count { count ≤ length blocks.now }
    requires table { IsTable blocks.now }
    ensures { result ≡ cost_of_objects (blocks_of (take count blocks.now)) }
{
    if count == 0 {
        0
    } else {
        blocks[count - 1].cost
    }
}

// How many bytes the first n objects take: the first `count` blocks, the filemarks before them, and filemarks after
// them.
fn cost_up_to(blocks: &[BlockEntry], count: usize, n: ObjNo) -> u64
    requires count { count ≤ length blocks.now }
    requires table { IsTable blocks.now }
    requires behind { length (blocks_of (take count blocks.now)) ≤ n }
    requires cost { cost_of_objects (padded (blocks_of (take count blocks.now)) n) < 2 ^ 64 }
    ensures { result ≡ cost_of_objects (padded (blocks_of (take count blocks.now)) n) }
{
    cost_of(blocks, count) + (n - end_of(blocks, count)) as u64 * OBJECT_COST
}

// The object with this number, None where there is none.
fn object_at(blocks: &[BlockEntry], count: ObjNo, at: ObjNo) -> Option<Placed>
    requires table { IsTable blocks.now }
    requires within { length (blocks_of blocks.now) ≤ count }
    ensures { result ≡ slice_get (objects_of blocks.now count) at }
{
    if at >= count {
        return None;
    }
    let before = blocks_before(blocks, at);
    if before == blocks.len() {
        return Some(Placed::Mark);
    }
    let next = blocks[before];
    if next.number > at {
        return Some(Placed::Mark);
    }
    Some(Placed::Block {
        place: next.place,
        length: next.size,
    })
}

impl ObjectTable {
    pub(crate) fn new(alloc: Global) -> Self
        ensures { result ≡ record { objects = []; reserved = 0 } }
    {
        ObjectTable {
            blocks: Vec::new(alloc),
            runs: Runs::new(alloc),
            count: 0,
            reserved: 0,
        }
    }

    // A copy of the table, with nothing reserved.
    pub(crate) fn copy(&self, alloc: Global) -> Result<Self, AllocError>
        ensures { IfOk result (λ copy. copy ≡ record { objects = self.now.objects; reserved = 0 }) }
    {
        let mut blocks = Vec::new(alloc);
        blocks.extend_from_slice(&self.blocks)?;
        let runs = self.runs.copy(alloc)?;
        Ok(ObjectTable {
            blocks,
            runs,
            count: self.count,
            reserved: 0,
        })
    }

    pub(crate) fn count(&self) -> ObjNo
        ensures { result ≡ length self.now.objects }
    {
        self.count
    }

    pub(crate) fn place(&self, at: ObjNo) -> Option<Placed>
        ensures { result ≡ slice_get self.now.objects at }
    {
        object_at(&self.blocks, self.count, at)
    }

    // How many bytes the first n objects take. Where there are fewer, all of them are counted.
    pub(crate) fn used(&self, n: ObjNo) -> u64
        ensures { result ≡ cost_of_objects (take n self.now.objects) }
    {
        let n = n.min(self.count);
        cost_up_to(&self.blocks, blocks_before(&self.blocks, n), n)
    }

    // The last run of filemarks that begins before object number n; None where no filemark stands before it.
    pub(crate) fn run_upto(&self, n: ObjNo, steps: &mut Steps) -> Option<MarkRun>
        ensures found { IsRunUpto self.now.objects n result }
        ensures steps { AddsDigitsOfRuns self.now.objects steps.old steps.new }
    {
        runs_below(&self.runs, Key::First, n as u64, steps).last
    }

    // The run that has filemark k, where the first filemark is filemark 0; None where there are at most k filemarks.
    pub(crate) fn run_of(&self, k: u32, steps: &mut Steps) -> Option<MarkRun>
        ensures found { IsRunWith self.now.objects k result }
        ensures steps { AddsDigitsOfRuns self.now.objects steps.old steps.new }
    {
        let Some(run) = runs_below(&self.runs, Key::Before, k as u64 + 1, steps).last else {
            return None;
        };
        if k - run.before < run.count {
            Some(run)
        } else {
            None
        }
    }

    // Makes room for `entries` more entries, which then take no memory.
    pub(crate) fn reserve(&mut self, entries: usize) -> Result<(), AllocError>
        ensures objects { self.new.objects ≡ self.old.objects }
        ensures grows { self.old.reserved ≤ self.new.reserved }
        ensures ok { OnOk result (entries ≤ self.new.reserved) }
        ensures err { OnErr result ((self.old.reserved < entries) × (self.new ≡ self.old)) }
    {
        if entries <= self.reserved {
            return Ok(());
        }
        self.blocks.reserve(entries)?;
        self.runs.reserve(entries)?;
        self.reserved = entries;
        Ok(())
    }

    // Cuts the table after its first n objects; all stay where there are fewer.
    pub(crate) fn cut(&mut self, n: ObjNo)
        ensures objects { self.new.objects ≡ take n self.old.objects }
        ensures reserved { self.old.reserved ≤ self.new.reserved }
    {
        if n >= self.count {
            return;
        }
        let staying = blocks_before(&self.blocks, n);
        let end = end_of(&self.blocks, staying);
        let mut steps = Steps::new();
        let whole = runs_below(&self.runs, Key::First, end as u64, &mut steps);
        self.blocks.truncate(staying);
        self.runs.keep(whole.count);
        self.count = n;
        if end < n {
            self.runs.push(MarkRun {
                first: end,
                count: n - end,
                before: end - staying as u32,
            });
        }
    }

    // Appends a block to the objects.
    fn add_block(&mut self, place: u64, size: u32)
        requires room { 1 ≤ self.old.reserved }
        requires end { length self.old.objects + 1 < 2 ^ 32 }
        requires cost { cost_of_objects (self.old.objects ++ Placeds.Block place size ∷ []) < 2 ^ 64 }
        ensures objects { self.new.objects ≡ self.old.objects ++ Placeds.Block place size ∷ [] }
        ensures reserved { self.old.reserved ≤ self.new.reserved + 1 }
    {
        let before = cost_up_to(&self.blocks, self.blocks.len(), self.count);
        self.blocks.push_reserved(BlockEntry {
            place,
            cost: before + size as u64 + OBJECT_COST,
            number: self.count,
            size,
        });
        self.count += 1;
        self.reserved -= 1;
    }

    // Appends filemarks to the objects. They form one run with the filemarks that already stand after the last block.
    fn add_marks(&mut self, count: u32)
        requires room { 1 ≤ self.old.reserved }
        requires some { 1 ≤ count }
        requires end { length self.old.objects + count < 2 ^ 32 }
        requires cost { cost_of_objects (self.old.objects ++ replicate count Placeds.Mark) < 2 ^ 64 }
        ensures objects { self.new.objects ≡ self.old.objects ++ replicate count Placeds.Mark }
        ensures reserved { self.old.reserved ≤ self.new.reserved + 1 }
    {
        let blocks = self.blocks.len();
        let end = end_of(&self.blocks, blocks);
        let mut steps = Steps::new();
        let closed = runs_below(&self.runs, Key::First, end as u64, &mut steps);
        self.runs.keep(closed.count);
        self.count += count;
        self.runs.push(MarkRun {
            first: end,
            count: self.count - end,
            before: end - blocks as u32,
        });
        self.reserved -= 1;
    }

    // Appends a run to the objects; one without objects takes no entry.
    pub(crate) fn add(&mut self, run: Run)
        requires room { 1 ≤ self.old.reserved }
        requires end { length (self.old.objects ++ objects_of_run run) < 2 ^ 32 }
        requires cost { cost_of_objects (self.old.objects ++ objects_of_run run) < 2 ^ 64 }
        ensures objects { self.new.objects ≡ self.old.objects ++ objects_of_run run }
        ensures reserved { self.old.reserved ≤ self.new.reserved + 1 }
    {
        match run {
            Run::Block { place, length } => self.add_block(place, length),
            Run::Marks { count } => {
                if count > 0 {
                    self.add_marks(count);
                }
            }
        }
    }
}
