//! An open cartridge.
ghost use Rattle.std.specs.Prelude.{◌≡◌, ◌<◌, ◌≤◌, [], IfOk, length, true, false};
ghost use Rattle.tape_disk.specs.TwoDisks.{AreHonest, EachOfTwo};
ghost use Rattle.vtl_base.specs.declared.limits.TheConstants.{MAX_CAPACITY, MAX_OBJECTS, MAX_PARTITIONS};
ghost use Rattle.volume_core.specs.Volume.{IsMarkOf, capacity_of, count_of, kind_at, mark_count, marks_upto, used_up_to};
ghost use Rattle.gate_journal.specs.State.{room_behind};
ghost use Rattle.cartridge_sides.specs.Pairs.{gate_behind};
ghost use Rattle.cartridge_sides.specs.Passes.{other};
ghost use Rattle.cartridge.specs.Contents.{GivesContents, IsContents, ShowsContents, bodies_of, volume_made};
ghost use Rattle.cartridge.specs.Disks.{disk_at};
ghost use Rattle.object_index.specs.Shapes.{IsIndexOf};

use crate::noted::Noted;
use crate::shelved::Shelved;
use cartridge_sides::Which;
use gate_journal::{Frame, Journal};
use object_index::Index;
use object_index::laws::a_volume_is_seen_by_its_shape;
use std::alloc::Global;
use std::marker::Model;
use tape_disk::Disk;
use volume_core::{Catalog, Kind};
use vtl_base::layout::NAME_BYTES;
use vtl_base::{NoMemory, ObjNo, PartNo};

/// An open cartridge on two disks. On one of them lies the side that counts: the bytes of one file, which give the
/// volume. Only that disk is called. After a device fault the cartridge has failed until it is closed and opened again.
#[derive(Drop)]
pub struct Cartridge<D: Disk> {
    // The side that counts.
    pub(crate) journal: Journal<D>,
    // The other disk.
    pub(crate) spare: D,
    // Which of the two sides counts.
    pub(crate) which: Which,
    pub(crate) index: Index,
    // The next frame is spelled here.
    pub(crate) frame: Frame,
    pub(crate) noted: Noted,
}

impl<D: Disk> Model for Cartridge<D> {
    ghost use Rattle.std.specs.Prelude.{map};
    ghost use Rattle.tape_disk.specs.TwoDisks.{AreHonest};
    ghost use Rattle.gate_journal.specs.State.{room_behind};
    ghost use Rattle.object_index.specs.Places.{PlacedPart};
    ghost use Rattle.cartridge.specs.Contents.{IsContents};
    ghost use Rattle.cartridge.specs.Disks.{disks_by};
    ghost use Rattle.cartridge.specs.Inner.Open.{IsOpen, StoresContents};
    ghost use Rattle.cartridge.specs.Notes.{noted_as};
    ghost use Rattle.cartridge.specs.State.{OpenCartridge, open_code};

    ghost Value = { OpenCartridge D };

    ghost coded = { open_code D.code };

    ghost view = { λ a. record {
      disks = disks_by a.which a.journal.disk a.spare;
      contents = noted_as a.which a.journal.front.head.copied a.noted.notes;
      torn = a.noted.notes.torn;
      failed = a.journal.failed;
      room = room_behind a.journal.end;
      reserved = record {
        body = a.frame.room;
        frames = a.journal.reserved_extents;
        entries = map (λ (part : PlacedPart). part.reserved) a.index;
      };
    } };

    ghost invariant = { λ a.
        IsOpen a.journal.front.head.heading a.journal.extents a.journal.failed a.index a.noted.notes
        × IsContents (noted_as a.which a.journal.front.head.copied a.noted.notes)
        × (AreHonest D.state (disks_by a.which a.journal.disk a.spare) →
        StoresContents (D.state a.journal.disk) (D.state a.spare) a.which a.journal.front
        a.journal.bodies a.noted.notes) };
}

impl<D: Disk> Cartridge<D> {
    /// Does nothing; its contract is the invariant of every open cartridge. The contents are ones that a cartridge can
    /// hold, and no frame is in flight unless the cartridge has failed. The rest holds where both disks are honest
    /// (keep the promises of a disk). Each pair of images that a crash now may leave gives the contents; where the
    /// cartridge has failed, it gives those or the contents with the frame that was in flight. The room is as many
    /// bytes as the spelling of the side that counts leaves free.
    pub fn known(&self)
        ensures contents { IsContents self.now.contents }
        ensures at_rest { self.now.failed ≡ false → self.now.torn ≡ [] }
        ensures shows { AreHonest D.state self.now.disks →
            EachOfTwo D.state self.now.disks (ShowsContents self.now.contents self.now.torn) }
        ensures sure { AreHonest D.state self.now.disks → self.now.failed ≡ false →
            EachOfTwo D.state self.now.disks (GivesContents self.now.contents) }
        ensures room { AreHonest D.state self.now.disks → self.now.room ≡ room_behind
            (gate_behind self.now.contents.head (bodies_of self.now.contents.frames)) }
    {
        // Read for the proof: the facts are the type's invariant.
        self.journal.known();
        let _ = &self.noted;
    }

    /// How many frames the side that counts has. After a device fault in a store it may have one more.
    pub fn frames(&self) -> usize
        ensures { result ≡ length self.now.contents.frames }
    {
        self.journal.frames()
    }

    /// The barcode, padded with spaces to 16 bytes.
    pub fn barcode(&self) -> &[u8; NAME_BYTES]
        ensures { result.now ≡ self.now.contents.head.heading.name }
    {
        &self.journal.header().name
    }

    /// How many partitions there are, 1 to 4.
    pub fn parts(&self) -> PartNo
        ensures parts { result ≡ length (volume_made self.now.contents) }
        ensures some { 1 ≤ result }
        ensures few { result ≤ MAX_PARTITIONS }
        ensures entries { result ≡ length self.now.reserved.entries }
    {
        self.index.parts()
    }

    /// The capacity of partition `part` in bytes; 0 where there is no such partition.
    pub fn capacity(&self, part: PartNo) -> u64
        ensures capacity { result ≡ capacity_of (volume_made self.now.contents) part }
        ensures bound { result ≤ MAX_CAPACITY }
    {
        a_volume_is_seen_by_its_shape();
        self.index.capacity(part)
    }

    /// How many objects partition `part` has; 0 where there is no such partition.
    pub fn count(&self, part: PartNo) -> ObjNo
        ensures count { result ≡ count_of (volume_made self.now.contents) part }
        ensures bound { result ≤ MAX_OBJECTS }
    {
        a_volume_is_seen_by_its_shape();
        self.index.count(part)
    }

    /// The kind of the object with number `at` in partition `part`; None where there is no such object.
    pub fn kind_at(&self, part: PartNo, at: ObjNo) -> Option<Kind>
        ensures { result ≡ kind_at (volume_made self.now.contents) part at }
    {
        a_volume_is_seen_by_its_shape();
        self.index.kind_at(part, at)
    }

    /// How many bytes of the capacity of partition `part` its first `n` objects use; where it has fewer, how many all
    /// of them use.
    pub fn used(&self, part: PartNo, n: ObjNo) -> u64
        ensures used { result ≡ used_up_to (volume_made self.now.contents) part n }
        ensures bound { result ≤ capacity_of (volume_made self.now.contents) part }
    {
        a_volume_is_seen_by_its_shape();
        self.index.used(part, n)
    }

    /// How many filemarks are among the first `n` objects of partition `part`; where it has fewer, among all of them.
    pub fn marks_upto(&self, part: PartNo, n: ObjNo) -> u32
        ensures marks { result ≡ marks_upto (volume_made self.now.contents) part n }
        ensures bound { result ≤ MAX_OBJECTS }
    {
        a_volume_is_seen_by_its_shape();
        self.index.marks_upto(part, n)
    }

    /// The object number of filemark `k` of partition `part`. Filemarks are counted from 0, and the partition must have
    /// more than `k`.
    pub fn mark_at(&self, part: PartNo, k: u32) -> ObjNo
        requires { k < mark_count (volume_made self.now.contents) part }
        ensures { IsMarkOf (volume_made self.now.contents) part k result }
    {
        a_volume_is_seen_by_its_shape();
        self.index.mark_at(part, k)
    }

    /// Returns a copy of the catalog, with nothing reserved in it. A catalog has everything of the volume except the
    /// bytes of its blocks. Returns an error where memory runs out.
    pub fn catalog(&self, alloc: Global) -> Result<Index, NoMemory>
        ensures { IfOk result (λ index. IsIndexOf index (volume_made self.now.contents)) }
    {
        self.index.copy(alloc)
    }

    /// Whether a disk has failed since the cartridge was opened. If so, nothing more is read or written.
    pub fn has_failed(&self) -> bool
        ensures { result ≡ self.now.failed }
    {
        self.journal.has_failed()
    }

    /// How many bytes may still be added to the side that counts. A side has at most 1,099,511,627,776 bytes, its end
    /// gate (the closed gate after the last frame) included. A frame takes 5 bytes more than its body has.
    pub fn room(&self) -> u64
        ensures { result ≡ self.now.room }
    {
        self.journal.room()
    }

    /// Which of the two sides counts.
    pub fn which(&self) -> Which
        ensures { result ≡ self.now.contents.which }
    {
        self.which
    }

    /// The disk of the side that counts, for reading.
    pub fn disk(&self) -> &D
        ensures { result.now ≡ disk_at self.now.contents.which self.now.disks }
    {
        self.journal.disk()
    }

    /// The disk that does not hold the side that counts, for reading.
    pub fn other_disk(&self) -> &D
        ensures { result.now ≡ disk_at (other self.now.contents.which) self.now.disks }
    {
        &self.spare
    }

    /// Closes the cartridge. Its contents stay known, and so does the frame that was in flight when a disk failed, if
    /// there was one. Honest disks then give the contents, or the contents with that frame.
    pub fn shelve(self) -> Shelved<D>
        ensures { result ≡ record {
          disks = self.disks;
          known = true;
          contents = self.contents;
          torn = self.torn;
        } }
    {
        let Cartridge {
            journal,
            spare,
            which,
            noted,
            ..
        } = self;
        let copied = journal.copied();
        Shelved::with(which, journal.close(), spare, copied, noted)
    }
}
