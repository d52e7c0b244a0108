//! A command that is answered without the disk.
ghost use Rattle.std.specs.Prelude.{◌≡◌, IfSome};
ghost use Rattle.drive_commands.specs.State.{machine_of};
ghost use Rattle.drive_commands.specs.Synchronize.{IsSynchronizing, Acknowledges};
ghost use Rattle.drive_commands.specs.Execute.{asked};
ghost use Rattle.drive_commands.specs.Alone.{AnswersAlone, alone_in, needs_disk_as};

use super::Drive;
use crate::bays::Bay;
use crate::conditions::Denial;
use crate::spaces::is_over_nothing;
use pr_core::Keeper;
use scsi_opcodes::Command;
use scsi_sense::Reply;
use volume_core::Medium;
use vtl_base::{Bytes, Nexus};

impl<M: Medium, K: Keeper> Drive<M, K> {
    /// Answers a command as `execute_lent` does, if its work does not need the disk of the medium. That disk need not
    /// be at hand. Where the work needs the disk, the result is None, nothing has changed, and `sent` still holds the
    /// data. `execute_lent` can answer such a command once the disk is at hand.
    pub fn execute_alone(&mut self, nexus: Nexus, cdb: &[u8], sent: &mut Bytes) -> Option<Reply>
        ensures step { AnswersAlone M.state K.kept M.alone M.below K.below
            self.old (asked nexus cdb.now sent.old) result self.new sent.new }

        // A synchronizing command is never acknowledged so.
        ensures waits { IsSynchronizing (machine_of M.state K.kept self.old) cdb.now
            → IfSome result (λ reply. Acknowledges reply → ⊥) }
    {
        let judged = self.verdict(nexus, cdb, sent.as_slice());
        if self.needs_disk(judged) {
            return None;
        }
        Some(self.answer_lent(nexus, judged, sent))
    }

    // Whether a command needs the disk of the medium, by the result of its checks. A command that does not pass them
    // needs none.
    fn needs_disk(&self, judged: Result<Command, Denial>) -> bool
        ensures { result ≡ needs_disk_as (alone_in M.alone self.now.bay) self.now.buffered judged }
    {
        let Ok(command) = judged else {
            return false;
        };
        match command {
            Command::Rewind
            | Command::Locate { .. }
            | Command::ReadPosition
            | Command::Erase
            | Command::LoadUnload { .. } => true,
            Command::Space { code, count } => !is_over_nothing(code, count),
            Command::Read { length, .. } => length > 0,
            Command::Write { length } => {
                length > 0 && (!self.buffered || !self.takes_alone(length))
            }
            Command::WriteFilemarks { count, immediate } => {
                !immediate || (count > 0 && !self.takes_alone(0))
            }
            Command::TestUnitReady
            | Command::RequestSense { .. }
            | Command::ReadBlockLimits
            | Command::Inquiry { .. }
            | Command::PersistentReserveIn { .. }
            | Command::PersistentReserveOut { .. }
            | Command::ModeSelect { .. }
            | Command::ModeSense { .. } => false,
        }
    }

    // Whether a medium is loaded that takes a change without its disk. The change's block has `bytes` bytes, 0 for a
    // change without a block.
    fn takes_alone(&self, bytes: u32) -> bool
        ensures { result ≡ alone_in M.alone self.now.bay bytes }
    {
        match &self.bay {
            Bay::Loaded(medium) => medium.takes_alone(bytes),
            Bay::Empty | Bay::Unloaded(_) => false,
        }
    }
}
