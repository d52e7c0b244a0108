//! Storing changes as one frame.
ghost use Rattle.std.specs.Prelude.{◌≡◌, ◌⊎◌, ◌+◌, ◌<◌, ◌≤◌, ◌++◌, [], ◌∷◌, ℕ, length, sum_by, true, false, OnOk, OnErr, IfErr, slice_index_or, map};
ghost use Rattle.std.specs.List.{All};
ghost use Rattle.tape_disk.specs.TwoDisks.{AreHonest, EachOfTwo, TwoLeave};
ghost use Rattle.vtl_base.specs.declared.limits.TheConstants.{MAX_BODY, MAX_PARTITIONS};
ghost use Rattle.volume_core.specs.Volume.{AllApply};
ghost use Rattle.change_records.specs.Records.{IsRecord, spell_all};
ghost use Rattle.object_index.specs.Places.{reserved_of};
ghost use Rattle.cartridge.specs.Answers.{HasBroken, HasStored, KeepsReserved, Lacks, LacksMemory, MatchCall, entries_of};
ghost use Rattle.cartridge.specs.Contents.{GivesContents, ShowsContents, bodies_of, volume_made};
ghost use Rattle.cartridge.specs.Disks.{CallsOne, IsFaultOfTwo, NoneOfTwo};
ghost use Rattle.cartridge.specs.Inner.Growing.{HasRoomWithin, IsGrown, IsSameSide};
ghost use Rattle.vtl_base.specs.declared.layout.TheConstants.{FRAME_HEAD};

use crate::bodies::{Spelled, size_of_body};
use crate::cartridges::Cartridge;
use crate::error::CartridgeError;
use crate::placing::place_frame;
use gate_journal::{Frame, Journal, JournalError};
use object_index::Index;
use tape_disk::Disk;
use volume_core::{Catalog, Change};
use vtl_base::layout::FRAME_HEAD;
use vtl_base::{NoMemory, PartNo};

impl<D: Disk> Cartridge<D> {
    /// Reserves memory for one later store, which then allocates nothing. That store may have a body of `body` bytes,
    /// and add `entries` blocks and runs of filemarks to partition `part`, if there is such a partition. For each of
    /// these blocks and runs 36 bytes are reserved: 24 in the table of blocks, and 12 in that of runs. After an error,
    /// what was reserved may have grown.
    pub fn reserve(
        &mut self,
        part: PartNo,
        body: usize,
        entries: usize,
    ) -> Result<(), CartridgeError>
        ensures same { self.new ≡ record self.old { reserved = self.new.reserved } }
        ensures grows { KeepsReserved self.old.reserved self.new.reserved }
        ensures ok { OnOk result ((body ≤ self.new.reserved.body) × (1 ≤ self.new.reserved.frames)
            × (part < length self.old.reserved.entries →
            entries ≤ slice_index_or self.new.reserved.entries part 0)) }
        ensures refused { IfErr result (λ error. (error ≡ CartridgeError.NoMemory)
            × Lacks self.old.reserved part body entries) }
    {
        self.frame.reserve(body)?;
        reserve_part(&mut self.index, part, entries)?;
        let Ok(()) = self.journal.reserve_extents(1) else {
            return Err(CartridgeError::NoMemory);
        };
        Ok(())
    }

    /// Stores changes as one frame of the side that counts. At Ok, where both disks are honest, no crash loses any of
    /// them. The disk of the other side is not called. There must be at least one change, each must apply to the volume
    /// that the changes before it make, and their spelling must have at most 8,388,608 bytes. A store within what was
    /// reserved allocates nothing. After `Device`, where both disks are honest, the side has the whole frame or nothing
    /// of it; the cartridge has failed and writes nothing more. After every other error nothing has changed but what is
    /// reserved.
    pub fn store(&mut self, changes: &[Change]) -> Result<(), CartridgeError>
        requires some { 1 ≤ length changes.now }
        requires apply { AllApply (volume_made self.old.contents) changes.now }
        requires short { length (spell_all changes.now) ≤ MAX_BODY }
        ensures disks { CallsOne D.state self.old.contents.which self.old.disks self.new.disks }
        ensures answer { MatchCall result
            (HasStored self.old changes.now self.new
            × NoneOfTwo D.state self.old.disks self.new.disks)
            (LacksMemory self.old changes.now self.new)
            ((self.old.failed ≡ false) × (self.old.room < length (spell_all changes.now) + FRAME_HEAD)
            × (self.new ≡ self.old))
            (λ fault. HasBroken self.old changes.now self.new
            × IsFaultOfTwo D.state fault self.old.disks self.new.disks)
            ((self.old.failed ≡ true) × (self.new ≡ self.old)) }
        ensures sure { AreHonest D.state self.old.disks → OnOk result
            (EachOfTwo D.state self.new.disks (GivesContents self.new.contents)) }
        ensures any_moment { AreHonest D.state self.old.disks → self.old.failed ≡ false →
            TwoLeave D.state self.old.disks self.new.disks
            (ShowsContents self.old.contents (changes.now ∷ [])) }
    {
        if self.journal.has_failed() {
            return Err(CartridgeError::Failed);
        }
        let size = size_of_body(changes);
        if u64::from(size) + FRAME_HEAD > self.journal.room() {
            return Err(CartridgeError::SideFull);
        }
        let Ok(()) = make_room(
            &mut self.journal,
            &mut self.index,
            &mut self.frame,
            changes,
            size as usize,
        ) else {
            return Err(CartridgeError::NoMemory);
        };
        self.frame.clear();
        let parts = Spelled::of(changes, size);
        match self.journal.append_frame(&mut self.frame, &parts) {
            Ok(()) => {
                place_frame(&mut self.index, &self.journal, &self.noted, changes);
                self.noted = self.noted.with_frame(changes);
                Ok(())
            }
            Err(JournalError::Device(fault)) => {
                self.noted = self.noted.with_torn(changes);
                Err(CartridgeError::Device(fault))
            }
            Err(JournalError::NoMemory) => unreachable!(),
            Err(JournalError::SideFull) => unreachable!(),
            Err(JournalError::Failed) => unreachable!(),
            Err(JournalError::NotOurs) => unreachable!(),
            Err(JournalError::Damaged { .. }) => unreachable!(),
        }
    }
}

// Reserves memory for a frame of these changes, whose body has `size` bytes.
fn make_room<D: Disk>(
    journal: &mut Journal<D>,
    index: &mut Index,
    frame: &mut Frame,
    changes: &[Change],
    size: usize,
) -> Result<(), NoMemory>
    ensures side { IsSameSide journal.old journal.new }
    ensures few { length index.old ≤ MAX_PARTITIONS }
    ensures grown { IsGrown index.old index.new }
    ensures body { frame.old.room ≤ frame.new.room }
    ensures ok { OnOk result ((size ≤ frame.new.room) × (1 ≤ journal.new.reserved_extents)
        × HasRoomWithin index.new changes.now) }
    ensures err { OnErr result ((journal.old.reserved_extents ≡ 0)
        ⊎ ((frame.old.room < size) ⊎ ((part : ℕ)
        × (reserved_of index.old part < sum_by (entries_of part) changes.now)))) }
{
    reserve_entries(index, changes)?;
    frame.reserve(size)?;
    let Ok(()) = journal.reserve_extents(1) else {
        return Err(NoMemory);
    };
    Ok(())
}

// Reserves memory for `entries` blocks and runs of marks in a partition, if it is there.
fn reserve_part(index: &mut Index, part: PartNo, entries: usize) -> Result<(), NoMemory>
    ensures grown { IsGrown index.old index.new }
    ensures ok { OnOk result (part < length index.old → entries ≤ reserved_of index.new part) }
    ensures err { OnErr result
        ((part < length index.old) × (reserved_of index.old part < entries)) }
{
    if part >= index.parts() {
        return Ok(());
    }
    index.reserve(part, entries)
}

// Reserves memory for the blocks and runs of marks of these changes, in each partition.
fn reserve_entries(index: &mut Index, changes: &[Change]) -> Result<(), NoMemory>
    ensures few { length index.old ≤ MAX_PARTITIONS }
    ensures grown { IsGrown index.old index.new }
    ensures ok { OnOk result (HasRoomWithin index.new changes.now) }
    ensures err { OnErr result ((part : ℕ)
        × (reserved_of index.old part < sum_by (entries_of part) changes.now)) }
{
    for part in 0..index.parts() {
        index.reserve(part, count_entries(changes, part))?;
    }
    Ok(())
}

// How many blocks and runs of marks these changes add to that partition.
fn count_entries(changes: &[Change], part: PartNo) -> usize
    ensures { result ≡ sum_by (entries_of part) changes.now }
{
    let mut count = 0;
    for change in changes {
        count += match change {
            Change::Put { part: of, .. } | Change::Marks { part: of, .. } if *of == part => 1,
            _ => 0,
        };
    }
    count
}
