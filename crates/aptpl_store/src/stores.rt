//! An open store of reservations.
ghost use Rattle.std.specs.Prelude.{◌≡◌, length, false, is_some, unwrap_or};
ghost use Rattle.tape_disk.specs.Disk.{Each};
ghost use Rattle.gate_journal.specs.declared.header.SideKind.TheVariants as Kinds;
ghost use Rattle.gate_journal.specs.State.{room_behind};
ghost use Rattle.gate_journal.specs.Side.{plain, spell};
ghost use Rattle.aptpl_store.specs.Contents.{GivesStates, OpensAs, OpensAsEither, ShowsStates, state_bodies, latest};
ghost use Rattle.pr_core.specs.States.{power_loss};

use crate::noted::Noted;
use gate_journal::{Frame, Journal};
use std::marker::Model;
use tape_disk::Disk;
use vtl_base::layout::NAME_BYTES;

/// The saved reservations of a drive, open on a disk. After a device fault the store has failed until it is opened
/// again.
#[derive(Drop)]
pub struct AptplStore<D: Disk> {
    pub(crate) journal: Journal<D>,
    // The next frame is spelled here; there is room for the longest.
    pub(crate) frame: Frame,
    pub(crate) noted: Noted,
}

impl<D: Disk> Model for AptplStore<D> {
    ghost use Rattle.gate_journal.specs.State.{room_behind};
    ghost use Rattle.aptpl_store.specs.Inner.Open.{IsOpen, StoresStates};
    ghost use Rattle.aptpl_store.specs.State.{OpenStore, store_code};

    ghost Value = { OpenStore D };

    ghost coded = { store_code D.code };

    ghost view = { λ a. record {
      disk = a.journal.disk;
      heading = a.journal.front.head.heading;
      states = a.noted.notes.states;
      torn = a.noted.notes.torn;
      failed = a.journal.failed;
      room = room_behind a.journal.end;
      reserved = a.journal.reserved_extents;
    } };

    ghost invariant = { λ a.
        IsOpen a.journal.front.head.heading a.journal.extents a.journal.failed a.frame.room a.noted.notes
        × ((D.state a.journal.disk).honest →
        StoresStates (D.state a.journal.disk) a.journal.front a.journal.bodies a.noted.notes) };
}

impl<D: Disk> AptplStore<D> {
    /// Does nothing; its contract is the invariant of every open store. The store is a drive's, and has failed exactly
    /// where the disk failed as a state was being saved. The rest holds where the disk is honest (keeps the promises of
    /// a disk). Each image that a crash may leave now gives the saved states; where the store has failed, it gives
    /// these, or these with the state that was being saved. Each such image opens as what a loss of power leaves of the
    /// state that was saved last or, where the store has failed, of that state or the one that was being saved. The
    /// room is the number of bytes that the spelling of the side leaves free.
    pub fn known(&self)
        ensures kind { self.now.heading.kind ≡ Kinds.Store }
        ensures at_rest { self.now.failed ≡ is_some self.now.torn }
        ensures shows { (D.state self.now.disk).honest →
            Each (D.state self.now.disk)
            (ShowsStates self.now.heading self.now.states self.now.torn) }
        ensures opens { (D.state self.now.disk).honest →
            Each (D.state self.now.disk) (OpensAsEither self.now.heading
            (latest self.now.states) (unwrap_or self.now.torn (latest self.now.states))) }
        ensures sure { (D.state self.now.disk).honest → self.now.failed ≡ false →
            Each (D.state self.now.disk) (GivesStates self.now.heading self.now.states) }
        ensures room { (D.state self.now.disk).honest → self.now.room
            ≡ room_behind (length (spell (plain self.now.heading) (state_bodies self.now.states))) }
    {
        // Read for the proof: the facts are the type's invariant.
        self.journal.known();
        let _ = &self.noted;
    }

    /// The name in the header: `DRIVE` and the drive's number, filled up with spaces to 16 bytes.
    pub fn name(&self) -> &[u8; NAME_BYTES]
        ensures { result.now ≡ self.now.heading.name }
    {
        &self.journal.header().name
    }

    /// How many states were saved: the side has one frame for each. After a device fault the side may have one frame
    /// more.
    pub fn frames(&self) -> usize
        ensures { result ≡ length self.now.states }
    {
        self.journal.frames()
    }

    /// How many bytes may still be added to the side. The side may have at most 1,099,511,627,776 bytes, its end gate
    /// (the closed gate after the last frame) included. A saved state takes up 9 bytes, and 9 more for each
    /// registration.
    pub fn room(&self) -> u64
        ensures { result ≡ self.now.room }
    {
        self.journal.room()
    }

    /// The disk, for reading.
    pub fn disk(&self) -> &D
        ensures { result.now ≡ self.now.disk }
    {
        self.journal.disk()
    }

    /// Closes the store, and returns the disk.
    pub fn close(self) -> D
        ensures { result ≡ self.disk }
    {
        let AptplStore { journal, .. } = self;
        journal.close()
    }
}
