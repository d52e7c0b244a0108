//! Writing out all that is pending.
ghost use Rattle.std.specs.Prelude.{◌≡◌, ◌≢◌, ◌+◌, ◌<◌, ℕ, OnOk, OnErr, Some};
ghost use Rattle.vtl_base.specs.declared.limits.TheConstants.{DRIVES};
ghost use Rattle.bay_moves.specs.Elements.{bay_at};
ghost use Rattle.bay_moves.specs.Finish.{HasFailed, HasFailedAt, IsAllWritten, IsWrittenAt, TurnsAt, WritesOut};

use crate::bays::Bay;
use crate::held::Held;
use std::fmt::Debug;
use tape_disk::Disk;
use volume_core::Turn;
use vtl_base::limits::DRIVES;

/// Returned by `Bay::write_out` and `Held::finish` where the loaded medium of a drive has failed, so that some changes
/// may not be stored; and where a deferred error stands: a flusher's turn failed and no answer has reported that,
/// though the medium may have been moved out of the drive since.
#[derive(Clone, Copy, PartialEq, Eq, Debug)]
pub struct Unwritten;

impl<D: Disk> Bay<D> {
    /// Stores what is pending, by a flusher's turn. The call allocates no memory. After Ok, all changes that the loaded
    /// medium has accepted are stored, and no deferred error stands. After Err, that medium has failed, before this
    /// turn or in it, or a deferred error stands.
    pub fn write_out(&mut self) -> Result<(), Unwritten>
        ensures turns { TurnsAt D.state (Some self.old) (Some self.new) }
        ensures ok { OnOk result (IsAllWritten D.state self.new) }
        ensures err { OnErr result (HasFailed D.state self.new) }
    {
        let _ = self.turn();
        let drive = self.drive();
        if drive.has_failed() {
            return Err(Unwritten);
        }
        if drive.has_deferred_error() {
            return Err(Unwritten);
        }
        Ok(())
    }
}

impl<D: Disk + Drop> Held<D> {
    /// Writes every buffer out, by a flusher's turn of each drive. A drive that fails does not stop the turns of the
    /// others. The call allocates no memory. After Ok, all changes that the loaded media have accepted are stored, and
    /// no deferred error stands. After Err, the loaded medium of some drive has failed, or a deferred error of some
    /// drive stands.
    pub fn finish(&mut self) -> Result<(), Unwritten>
        ensures { WritesOut D.state self.old result self.new }
    {
        // Read, here and below, for the proof: there are places for all drives.
        let _ = &self.bays;
        let mut result = Ok(());
        for place in 0..DRIVES as usize {
            if self.write_out_at(place).is_err() {
                result = Err(Unwritten);
            }
        }
        let _ = &self.bays;
        result
    }

    // Stores what is pending in the drive at this place (its number less 1), if there is one.
    fn write_out_at(&mut self, place: usize) -> Result<(), Unwritten>
        requires { place < DRIVES }
        ensures turns { TurnsAt D.state (bay_at self.old.bays (place + 1)) (bay_at self.new.bays (place + 1)) }
        ensures others { (other : ℕ) → other ≢ place + 1 → bay_at self.new.bays other ≡ bay_at self.old.bays other }
        ensures slots { self.new.slots ≡ self.old.slots }
        ensures ok { OnOk result (IsWrittenAt D.state (bay_at self.new.bays (place + 1))) }
        ensures err { OnErr result (HasFailedAt D.state (bay_at self.new.bays (place + 1))) }
    {
        let Some(bay) = &mut self.bays[place] else {
            return Ok(());
        };
        bay.write_out()
    }
}
