//! Notes of what a side holds, for proofs alone. They take no memory: the bytes of a cartridge's blocks stay on its
//! disk.
ghost use Rattle.std.specs.Prelude.{◌≡◌, [], unwrap_or};
ghost use Rattle.gate_journal.specs.Side.{heading_of};
ghost use Rattle.cartridge.specs.Notes.{Notes, with_frame, with_torn};
ghost use Rattle.cartridge.specs.Reclaiming.{notes_copied};
ghost use Rattle.change_records.specs.ChangesOn.{changes_on};

use gate_journal::{Header, NotedBytes};
use noted_values::{NotedValue, note};
use std::marker::Model;
use volume_core::Change;

/// The kind under which the notes of a side are noted. No value of this type is made.
pub(crate) struct SideNote {}

impl Model for SideNote {
    ghost use Rattle.std.specs.Prelude.{[]};
    ghost use Rattle.gate_journal.specs.declared.header.SideKind.TheVariants.{Cartridge};
    ghost use Rattle.cartridge.specs.Notes.{Notes};
    ghost use Rattle.cartridge.specs.Codes.{notes_code};

    ghost Value = { Notes };

    ghost coded = { notes_code };

    ghost view = { λ _. record {
      heading = record { kind = Cartridge; name = []; capacities = [] };
      frames = [];
      torn = [];
    } };
}

/// The notes of a side: its heading, the changes of each of its frames, and those of the frame in flight, if there is
/// one.
#[derive(Drop)]
pub(crate) struct Noted {
    pub notes: NotedValue<SideNote>,
}

impl Noted {
    /// The notes of a side of which nothing is known.
    pub(crate) fn none() -> Noted {
        Noted { notes: note(&0u8) }
    }

    /// The notes of a side with this header and no frames.
    pub(crate) fn new(header: &Header) -> Noted
        ensures { result.notes ≡ record { heading = heading_of header.now; frames = []; torn = [] } }
    {
        Noted {
            notes: note(header),
        }
    }

    /// The notes with one more frame, of these changes.
    pub(crate) fn with_frame(&self, changes: &[Change]) -> Noted
        ensures { result.notes ≡ with_frame self.now.notes changes.now }
    {
        Noted {
            notes: note(&(self, changes)),
        }
    }

    /// The notes with one more frame, of the changes that this body spells. Where it spells none, the frame is noted
    /// with no changes.
    pub(crate) fn with_body(&self, body: &NotedBytes) -> Noted
        ensures { result.notes
            ≡ with_frame self.now.notes (unwrap_or (changes_on body.now.bytes) []) }
    {
        Noted {
            notes: note(&(self, body)),
        }
    }

    /// The notes after a reclaim: the frames are those of the volume's copy, and none is in flight.
    pub(crate) fn copied(&self) -> Noted
        ensures { result.notes ≡ notes_copied self.now.notes }
    {
        Noted { notes: note(self) }
    }

    /// The notes, with these changes as those of the frame in flight.
    pub(crate) fn with_torn(&self, changes: &[Change]) -> Noted
        ensures { result.notes ≡ with_torn self.now.notes changes.now }
    {
        Noted {
            notes: note(&(self, changes)),
        }
    }
}
