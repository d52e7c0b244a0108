//! Adding a frame to an open side from the caller's own `Frame`.
ghost use Rattle.std.specs.Prelude.{◌≡◌, ◌+◌, ◌<◌, ◌≤◌, ◌++◌, [], ◌∷◌, length, true, false, OnOk, IfErr, if◌then◌else◌, is_ok};
ghost use Rattle.tape_disk.specs.Disk.{Each, Keeps};
ghost use Rattle.tape_disk.specs.Moments.{LeavesOnly};
ghost use Rattle.gate_journal.specs.Followed.{FrameHasRoom, KeepsRoom, followed};
ghost use Rattle.gate_journal.specs.Side.{IsBody, StandsFor};
ghost use Rattle.gate_journal.specs.Answers.{Appended, Broke, IsFault, MatchWrite, NoneFailed};
ghost use Rattle.gate_journal.specs.Crash.{WithOrWithout};
ghost use Rattle.gate_journal.specs.Cuts.{CutsFirst};
ghost use Rattle.gate_journal.specs.State.{room_behind};
ghost use Rattle.vtl_base.specs.declared.layout.TheConstants.{FRAME_HEAD};

use crate::{BodyParts, Frame, Journal, JournalError};
use tape_disk::Disk;
use vtl_base::layout::FRAME_HEAD;
use vtl_base::limits::MAX_SIDE;

impl<D: Disk> Journal<D> {
    /// Reserves memory for the extents of the next `frames` frames, 16 bytes each. The next `frames` calls of
    /// `append_frame` then allocate nothing. After an error nothing has changed.
    pub fn reserve_extents(&mut self, frames: usize) -> Result<(), JournalError>
        ensures ok { OnOk result ((frames ≤ self.new.reserved_extents)
            × (self.old.reserved_extents ≤ self.new.reserved_extents)
            × (self.old.reserved ≤ self.new.reserved)
            × (self.new ≡ record self.old {
              reserved = self.new.reserved;
              reserved_extents = self.new.reserved_extents;
            })) }
        ensures refused { IfErr result (λ error. (error ≡ JournalError.NoMemory)
            × (self.old.reserved_extents < frames) × (self.new ≡ self.old)) }
    {
        self.extents.reserve(frames)?;
        self.reserved_extents = self.reserved_extents.max(frames);
        Ok(())
    }

    /// Adds a frame, as `append` does. Its body is the body that `frame` holds, followed by `parts`; where there are
    /// parts, `frame` must have room for this whole body. Where a part has 16,384 bytes or more after its head, these
    /// are written from where they are in memory; all other bytes are copied into `frame`. At Ok and after `Device` the
    /// body is removed from `frame`, whose room is at least what it was, and the same where there are no parts. After
    /// every other error `frame` is unchanged. Memory can run out only where memory for no extent is reserved
    /// (`reserve_extents`).
    pub fn append_frame<P: BodyParts>(
        &mut self,
        frame: &mut Frame,
        parts: &P,
    ) -> Result<(), JournalError>
        requires { IsBody (followed frame.old.body (P.parts parts.now))
            × FrameHasRoom (P.parts parts.now) (length (followed frame.old.body (P.parts parts.now))) frame.old.room }
        ensures disk { Keeps (D.state self.old.disk) (D.state self.new.disk) }
        ensures front { self.new.front ≡ self.old.front }
        ensures frame { KeepsRoom (P.parts parts.now) frame.old.room frame.new.room × MatchWrite result
            (frame.new.body ≡ []) (frame.new ≡ frame.old) (frame.new ≡ frame.old)
            (λ _. frame.new.body ≡ []) (frame.new ≡ frame.old) }
        ensures answer { MatchWrite result
            (Appended self.old self.new (length (followed frame.old.body (P.parts parts.now)))
            × NoneFailed (D.state self.old.disk) (D.state self.new.disk))
            ((self.old.failed ≡ false)
            × (length (followed frame.old.body (P.parts parts.now)) + FRAME_HEAD ≤ room_behind self.old.end)
            × (self.old.reserved_extents ≡ 0) × (self.new ≡ self.old))
            ((self.old.failed ≡ false)
            × (room_behind self.old.end < length (followed frame.old.body (P.parts parts.now)) + FRAME_HEAD)
            × (self.new ≡ self.old))
            (λ fault. Broke self.old self.new (length (followed frame.old.body (P.parts parts.now)))
            × IsFault fault (D.state self.old.disk) (D.state self.new.disk))
            ((self.old.failed ≡ true) × (self.new ≡ self.old)) }
        ensures bodies { (D.state self.old.disk).honest → self.new.bodies
            ≡ (if is_ok result then self.old.bodies ++ followed frame.old.body (P.parts parts.now) ∷ []
            else self.old.bodies) }
        ensures sure { (D.state self.old.disk).honest → OnOk result
            (Each (D.state self.new.disk) (StandsFor self.new.front self.new.bodies)
            × (length (D.state self.new.disk).seen ≡ self.new.end + 1)) }
        ensures first { (D.state self.old.disk).honest →
            self.old.end + 1 < length (D.state self.old.disk).seen → MatchWrite result
            (CutsFirst D.effect (self.old.end + 1) self.old.disk) (Unit {0}) (Unit {0})
            (λ _. CutsFirst D.effect (self.old.end + 1) self.old.disk) (Unit {0}) }
        ensures any_moment { (D.state self.old.disk).honest → self.old.failed ≡ false →
            LeavesOnly (D.state self.old.disk) (D.state self.new.disk)
            (WithOrWithout self.old.front self.old.bodies (followed frame.old.body (P.parts parts.now))) }
    {
        if self.failed {
            return Err(JournalError::Failed);
        }
        let size = frame.size_with(parts);
        if u64::from(size) + FRAME_HEAD > MAX_SIDE.saturating_sub(self.end + 1) {
            return Err(JournalError::SideFull);
        }
        self.extents.reserve(1)?;
        match frame.write_behind(&mut self.disk, self.end, parts) {
            Ok(()) => {
                self.extents.push_reserved((self.end + FRAME_HEAD, size));
                self.end += FRAME_HEAD + u64::from(size);
                self.reserved_extents = self.reserved_extents.saturating_sub(1);
                Ok(())
            }
            Err(fault) => {
                self.failed = true;
                Err(JournalError::Device(fault))
            }
        }
    }
}
