//! A closed cartridge.
ghost use Rattle.std.specs.Prelude.{◌≡◌, true, false};
ghost use Rattle.tape_disk.specs.TwoDisks.{AreHonest, EachOfTwo};
ghost use Rattle.gate_journal.specs.Heads.{epoch_of};
ghost use Rattle.cartridge.specs.Contents.{IsContents, ShowsContents};
ghost use Rattle.cartridge.specs.Disks.{disks_by};
ghost use Rattle.cartridge.specs.Notes.{noted_as};

use crate::noted::Noted;
use crate::sides::in_order;
use cartridge_sides::Which;
use gate_journal::Copied;
use std::marker::Model;
use tape_disk::Disk;

/// A closed cartridge: two disks, and what is known of their contents. Nothing is known of disks on which this library
/// has neither made nor opened a cartridge.
#[derive(Drop)]
pub struct Shelved<D: Disk> {
    pub(crate) first: D,
    pub(crate) second: D,
    pub(crate) known: bool,
    // The side that counts, and what it says of a copy, where they are known.
    pub(crate) which: Which,
    pub(crate) copied: Option<Copied>,
    pub(crate) noted: Noted,
}

impl<D: Disk> Model for Shelved<D> {
    ghost use Rattle.std.specs.Prelude.{◌≡◌, true};
    ghost use Rattle.tape_disk.specs.TwoDisks.{AreHonest, EachOfTwo};
    ghost use Rattle.cartridge.specs.Contents.{IsContents, ShowsContents};
    ghost use Rattle.cartridge.specs.Notes.{noted_as};
    ghost use Rattle.cartridge.specs.State.{ClosedCartridge, closed_code};

    ghost Value = { ClosedCartridge D };

    ghost coded = { closed_code D.code };

    ghost view = { λ a. record {
      disks = record { first = a.first; second = a.second };
      known = a.known;
      contents = noted_as a.which a.copied a.noted.notes;
      torn = a.noted.notes.torn;
    } };

    ghost invariant = { λ a. a.known ≡ true →
        IsContents (noted_as a.which a.copied a.noted.notes)
        × (AreHonest D.state (record { first = a.first; second = a.second }) →
        EachOfTwo D.state (record { first = a.first; second = a.second })
        (ShowsContents (noted_as a.which a.copied a.noted.notes) a.noted.notes.torn)) };
}

impl<D: Disk> Shelved<D> {
    /// Makes a closed cartridge of these two disks. Nothing is known of it until it is opened.
    pub fn of(first: D, second: D) -> Shelved<D>
        ensures disks { result.disks ≡ record { first = first; second = second } }
        ensures unknown { result.known ≡ false }
    {
        Shelved {
            first,
            second,
            known: false,
            which: Which::First,
            copied: None,
            noted: Noted::none(),
        }
    }

    // A closed cartridge of which this side counts. `counts` is the disk of that side, `spare` the other one.
    pub(crate) fn with(
        which: Which,
        counts: D,
        spare: D,
        copied: Option<Copied>,
        noted: Noted,
    ) -> Shelved<D>
        requires contents { IsContents (noted_as which copied noted.notes) }
        requires shows { AreHonest D.state (disks_by which counts spare) →
            EachOfTwo D.state (disks_by which counts spare)
            (ShowsContents (noted_as which copied noted.notes) noted.notes.torn) }
        ensures { result ≡ record {
          disks = disks_by which counts spare;
          known = true;
          contents = noted_as which copied noted.notes;
          torn = noted.notes.torn;
        } }
    {
        let (first, second) = in_order(which, counts, spare);
        Shelved {
            first,
            second,
            known: true,
            which,
            copied,
            noted,
        }
    }

    /// Does nothing; its contract is the invariant of every closed cartridge of which something is known. The contents
    /// are ones that a cartridge can hold. Where both disks are honest (keep the promises of a disk), each pair of
    /// images that a crash may leave gives the contents, or the contents with the frame that was in flight when a disk
    /// failed.
    pub fn known(&self)
        ensures contents { self.now.known ≡ true → IsContents self.now.contents }
        ensures shows { self.now.known ≡ true → AreHonest D.state self.now.disks →
            EachOfTwo D.state self.now.disks (ShowsContents self.now.contents self.now.torn) }
    {
        // Read for the proof: the facts are the type's invariant.
        let _ = &self.known;
    }

    /// How often the cartridge was reclaimed. Where nothing is known of the cartridge, the result means nothing.
    pub fn epoch(&self) -> u64
        ensures { self.now.known ≡ true → result ≡ epoch_of self.now.contents.head }
    {
        match self.copied {
            Some(copied) => copied.epoch,
            None => 0,
        }
    }

    /// The first disk, for reading.
    pub fn disk(&self) -> &D
        ensures { result.now ≡ self.now.disks.first }
    {
        &self.first
    }

    /// The second disk, for reading.
    pub fn second(&self) -> &D
        ensures { result.now ≡ self.now.disks.second }
    {
        &self.second
    }

    /// Returns the disks, the first one first.
    pub fn into_disks(self) -> (D, D)
        ensures { (record { first = result.0; second = result.1 }) ≡ self.disks }
    {
        (self.first, self.second)
    }
}
