//! Adding a body to an open side, as a frame; and the memory of later appends, an extent for each frame and one buffer
//! for the longest.
ghost use Rattle.std.specs.Prelude.{◌≡◌, ◌+◌, ◌<◌, ◌≤◌, ◌++◌, [], ◌∷◌, length, true, false, OnOk, OnErr, IfErr, if◌then◌else◌, is_ok, vec_len, vec_capacity};
ghost use Rattle.tape_disk.specs.Disk.{Each, Keeps};
ghost use Rattle.tape_disk.specs.Moments.{LeavesOnly};
ghost use Rattle.gate_journal.specs.Side.{IsBody, StandsFor};
ghost use Rattle.gate_journal.specs.Answers.{Appended, Broke, IsFault, MatchWrite, NoneFailed};
ghost use Rattle.gate_journal.specs.Crash.{WithOrWithout};
ghost use Rattle.gate_journal.specs.Cuts.{CutsFirst};
ghost use Rattle.gate_journal.specs.Inner.Spare.{free, spare};
ghost use Rattle.gate_journal.specs.State.{room_behind};
ghost use Rattle.vtl_base.specs.declared.layout.TheConstants.{FRAME_HEAD};
ghost use Rattle.vtl_base.specs.declared.limits.TheConstants.{MAX_BODY};

use crate::frame::Frame;
use crate::{Journal, JournalError, NoParts};
use std::alloc::AllocError;
use tape_disk::Disk;
use vtl_base::layout::FRAME_HEAD;
use vtl_base::limits::{MAX_BODY, MAX_SIDE};

impl<D: Disk> Journal<D> {
    /// Reserves memory for the next `frames` calls of `append`, which then allocate none: 16 bytes for the extent of
    /// each frame, and once 8,388,613 bytes for the longest frame. After an error memory is reserved for as many calls
    /// as before.
    pub fn reserve(&mut self, frames: usize) -> Result<(), JournalError>
        ensures ok { OnOk result ((frames ≤ self.new.reserved)
            × (self.old.reserved ≤ self.new.reserved)
            × (self.new ≡ record self.old { reserved = self.new.reserved })) }
        ensures refused { IfErr result (λ error. (error ≡ JournalError.NoMemory)
            × (self.old.reserved < frames) × (self.new ≡ self.old)) }
    {
        if frames == 0 {
            return Ok(());
        }
        make_room(&mut self.extents, &mut self.buffer, frames)?;
        Ok(())
    }

    /// Adds a frame with the body `body`, of 1 to 8,388,608 bytes. What stands behind the end gate is cut off first.
    /// At Ok each image that a crash may leave has the frame, the disk ends with the new end gate, and the room is less
    /// by the length of the body and 5 bytes. After `Device` the frame may be there or not, and the side has failed:
    /// nothing more is written. After every other error nothing has changed.
    pub fn append(&mut self, body: &[u8]) -> Result<(), JournalError>
        requires { IsBody body.now }
        ensures disk { Keeps (D.state self.old.disk) (D.state self.new.disk) }
        ensures front { self.new.front ≡ self.old.front }
        ensures answer { MatchWrite result
            (Appended self.old self.new (length body.now)
            × NoneFailed (D.state self.old.disk) (D.state self.new.disk))
            ((self.old.failed ≡ false) × (length body.now + FRAME_HEAD ≤ room_behind self.old.end)
            × (self.old.reserved ≡ 0) × (self.new ≡ self.old))
            ((self.old.failed ≡ false) × (room_behind self.old.end < length body.now + FRAME_HEAD)
            × (self.new ≡ self.old))
            (λ fault. Broke self.old self.new (length body.now)
            × IsFault fault (D.state self.old.disk) (D.state self.new.disk))
            ((self.old.failed ≡ true) × (self.new ≡ self.old)) }
        ensures bodies { (D.state self.old.disk).honest → self.new.bodies
            ≡ (if is_ok result then self.old.bodies ++ body.now ∷ [] else self.old.bodies) }
        ensures sure { (D.state self.old.disk).honest → OnOk result
            (Each (D.state self.new.disk) (StandsFor self.new.front self.new.bodies)
            × (length (D.state self.new.disk).seen ≡ self.new.end + 1)) }
        ensures first { (D.state self.old.disk).honest →
            self.old.end + 1 < length (D.state self.old.disk).seen → MatchWrite result
            (CutsFirst D.effect (self.old.end + 1) self.old.disk) (Unit {0}) (Unit {0})
            (λ _. CutsFirst D.effect (self.old.end + 1) self.old.disk) (Unit {0}) }
        ensures any_moment { (D.state self.old.disk).honest → self.old.failed ≡ false →
            LeavesOnly (D.state self.old.disk) (D.state self.new.disk)
            (WithOrWithout self.old.front self.old.bodies body.now) }
    {
        if self.failed {
            return Err(JournalError::Failed);
        }
        let size = body.len() as u32;
        if u64::from(size) + FRAME_HEAD > MAX_SIDE.saturating_sub(self.end + 1) {
            return Err(JournalError::SideFull);
        }
        make_room(&mut self.extents, &mut self.buffer, 1)?;
        self.buffer.extend_reserved(body);
        match self.buffer.write_behind(&mut self.disk, self.end, &NoParts) {
            Ok(()) => {
                self.extents.push_reserved((self.end + FRAME_HEAD, size));
                self.end += FRAME_HEAD + u64::from(size);
                self.reserved_extents = self.reserved_extents.saturating_sub(1);
                Ok(())
            }
            Err(fault) => {
                self.failed = true;
                Err(JournalError::Device(fault))
            }
        }
    }
}

// Reserves memory for `frames` more frames: the extent of each, and a buffer for the longest. Where memory runs out, as
// many frames as before are reserved.
fn make_room(
    extents: &mut Vec<(u64, u32)>,
    buffer: &mut Frame,
    frames: usize,
) -> Result<(), AllocError>
    requires { 0 < frames }
    ensures same { extents.new.items ≡ extents.old.items }
    ensures free { free extents.old ≤ free extents.new }
    ensures grows { spare extents.old buffer.old ≤ spare extents.new buffer.new }
    ensures ok { OnOk result ((frames ≤ spare extents.new buffer.new)
        × (vec_len extents.new + frames ≤ vec_capacity extents.new)
        × (MAX_BODY ≤ buffer.new.room) × (buffer.new.body ≡ [])) }
    ensures err { OnErr result ((spare extents.old buffer.old < frames)
        × (spare extents.new buffer.new ≡ spare extents.old buffer.old)) }
{
    extents.reserve(frames)?;
    buffer.reserve(MAX_BODY as usize)
}
