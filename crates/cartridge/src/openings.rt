//! A cartridge that was just opened, and may be closed as it was.
ghost use Rattle.std.specs.Prelude.{◌≡◌};

use crate::cartridges::Cartridge;
use crate::noted::Noted;
use crate::shelved::Shelved;
use crate::sides::in_order;
use cartridge_sides::Which;
use gate_journal::Copied;
use std::marker::Model;
use tape_disk::Disk;

/// A cartridge that was just opened, and what was known of it before. The caller leaves it open (`keep`), or closes it
/// as it was (`into_shelved`), for instance where memory runs out for something else that the caller needs.
#[derive(Drop)]
pub struct Opening<D: Disk> {
    pub(crate) cartridge: Cartridge<D>,
    // Whether anything was known of it before.
    pub(crate) known: bool,
    pub(crate) which: Which,
    pub(crate) copied: Option<Copied>,
    pub(crate) noted: Noted,
}

impl<D: Disk> Model for Opening<D> {
    ghost use Rattle.std.specs.Prelude.{◌≡◌, true};
    ghost use Rattle.tape_disk.specs.TwoDisks.{AreHonest, EachOfTwo};
    ghost use Rattle.cartridge.specs.Contents.{IsContents, ShowsContents};
    ghost use Rattle.cartridge.specs.Notes.{noted_as};
    ghost use Rattle.cartridge.specs.State.{OpeningState};

    ghost Value = { OpeningState D };

    ghost view = { λ a. record {
      cartridge = a.cartridge;
      was = record {
        disks = a.cartridge.disks;
        known = a.known;
        contents = noted_as a.which a.copied a.noted.notes;
        torn = a.noted.notes.torn;
      };
    } };

    ghost invariant = { λ a. a.known ≡ true →
        IsContents (noted_as a.which a.copied a.noted.notes)
        × (AreHonest D.state a.cartridge.disks → EachOfTwo D.state a.cartridge.disks
        (ShowsContents (noted_as a.which a.copied a.noted.notes) a.noted.notes.torn)) };
}

impl<D: Disk> Opening<D> {
    /// The open cartridge, for reading.
    pub fn cartridge(&self) -> &Cartridge<D>
        ensures { result.now ≡ self.now.cartridge }
    {
        &self.cartridge
    }

    /// Returns the cartridge, and leaves it open.
    pub fn keep(self) -> Cartridge<D>
        ensures { result ≡ self.cartridge }
    {
        let Opening { cartridge, .. } = self;
        cartridge
    }

    /// Closes the cartridge, which is then as it was before it was opened.
    pub fn into_shelved(self) -> Shelved<D>
        ensures { result ≡ self.was }
    {
        let Opening {
            cartridge,
            known,
            which,
            copied,
            noted,
        } = self;
        let Cartridge {
            journal,
            spare,
            which: counts,
            ..
        } = cartridge;
        let (first, second) = in_order(counts, journal.close(), spare);
        Shelved {
            first,
            second,
            known,
            which,
            copied,
            noted,
        }
    }
}
