//! The places of a new frame's objects.
ghost use Rattle.std.specs.Prelude.{◌≡◌, ◌+◌, ◌<◌, ◌≤◌, ◌-◌, ◌^◌, ◌++◌, [], ◌∷◌, ℕ, List, length, slice_index_or};
ghost use Rattle.std.specs.List.{All};
ghost use Rattle.volume_core.specs.Volume.{AllApply, after};
ghost use Rattle.change_records.specs.Records.{IsRecord, size_of, spell_all};
ghost use Rattle.object_index.specs.Places.{reserved_of};
ghost use Rattle.cartridge.specs.Answers.{entries_of};
ghost use Rattle.cartridge.specs.Contents.{volume_made};
ghost use Rattle.cartridge.specs.Inner.Growing.{HasEnoughReserved, TakesEntries};
ghost use Rattle.object_index.specs.Indexes.{Indexes};
ghost use Rattle.cartridge.specs.Lying.{HasBlock, IsPlaceOf, LiesOnSide};
ghost use Rattle.cartridge.specs.Notes.{noted_contents, with_frame};

use crate::noted::Noted;
use change_records::Record;
use gate_journal::Journal;
use object_index::Index;
use tape_disk::Disk;
use volume_core::{ApplyError, Change};
use vtl_base::layout::RECORD_HEAD;

// Enters the changes of the side's last frame into the index, which has room for them.
pub(crate) fn place_frame<D: Disk>(
    index: &mut Index,
    journal: &Journal<D>,
    noted: &Noted,
    changes: &[Change],
)
    requires apply { AllApply (volume_made (noted_contents noted.now.notes)) changes.now }
    requires records { All IsRecord changes.now }
    requires room { HasEnoughReserved index.old changes.now }
    requires counted { length journal.now.extents ≡ length noted.now.notes.frames + 1 }
    requires sized { (slice_index_or journal.now.extents (length noted.now.notes.frames) (0, 0)).1
        ≡ length (spell_all changes.now) }
    requires fits { (slice_index_or journal.now.extents (length noted.now.notes.frames) (0, 0)).0
        + length (spell_all changes.now) < 2 ^ 64 }
    requires lies { Indexes (LiesOnSide (with_frame noted.now.notes changes.now) journal.now.extents)
        (volume_made (noted_contents noted.now.notes)) index.old }
    ensures lies { Indexes (LiesOnSide (with_frame noted.now.notes changes.now) journal.now.extents)
        (after (volume_made (noted_contents noted.now.notes)) changes.now) index.new }
    ensures reserved { TakesEntries index.old changes.now index.new }
{
    let count = journal.frames();
    let (place, _) = journal.body_at(count - 1);
    let mut at = place;
    for change in changes {
        let item = Record::of(change);
        match index.apply(item, place_of(item, at)) {
            Ok(()) => {}
            Err(ApplyError::Refused(_)) => unreachable!(),
            Err(ApplyError::NoMemory) => unreachable!(),
        }
        at += item.size() as u64;
    }
}

// The place of the block of a record that begins at place `at`. For a record without a block the result means nothing.
pub(crate) fn place_of(item: Record, at: u64) -> u64
    requires sized { HasBlock item }
    requires fits { at + size_of item < 2 ^ 64 }
    ensures place { IsPlaceOf item at result }
    ensures fits { result < 2 ^ 64 - 1 }
{
    match item {
        Record::Put { .. } => at + RECORD_HEAD as u64,
        Record::Marks { .. } | Record::Erase { .. } => 0,
    }
}
