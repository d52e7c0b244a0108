//! The work of a command that has passed all checks.
ghost use Rattle.std.specs.Prelude.{◌≡◌, true, false};
ghost use Rattle.scsi_opcodes.specs.Commands.{code_of};
ghost use Rattle.scsi_opcodes.specs.Opcodes.{needs_medium};
ghost use Rattle.drive_commands.specs.State.{IsAtHand, machine_of, medium_in};
ghost use Rattle.drive_commands.specs.OnMedium.{OnMedium};
ghost use Rattle.drive_commands.specs.Work.{MediumWork, DriveWork, Work};
ghost use Rattle.drive_commands.specs.RequestSense.{RequestSenseWork, once_reported, sense_due};
ghost use Rattle.drive_commands.specs.Alone.{alone_in, needs_disk};
ghost use Rattle.drive_commands.specs.Execute.{Takes, HonestIn};
ghost use Rattle.drive_commands.specs.Inner.Passing.{IsPassed};

use super::Drive;
use crate::bays::Bay;
use crate::conditions::Condition;
use crate::dispatch::carry_out;
use crate::faults::Fault;
use crate::giving::give;
use pr_core::Keeper;
use scsi_opcodes::{Command, block_limits, cut_to, inquiry_data};
use scsi_sense::{Reply, Sense};
use volume_core::Medium;
use vtl_base::Nexus;

impl<M: Medium, K: Keeper> Drive<M, K> {
    /// Carries out a command that has passed all checks.
    pub(super) fn perform(
        &mut self,
        nexus: Nexus,
        command: Command,
        sent: &[u8],
    ) -> Result<Reply, Fault>
        requires hand { needs_disk (alone_in M.alone self.old.bay) self.old.buffered command ≡ true
            → IsAtHand M.below.at_hand self.old.bay }
        requires passed { IsPassed (machine_of M.state K.kept self.old) command sent.now }
        ensures { Takes M.state M.below K.kept K.below
            (Work (HonestIn M.below (medium_in self.old.bay)) command nexus sent.now
            (machine_of M.state K.kept self.old))
            self.old result self.new }
    {
        if command.opcode().needs_medium() {
            self.on_medium(command, sent)
        } else {
            self.on_drive(nexus, command, sent)
        }
    }

    // The work of a command that needs a medium.
    fn on_medium(&mut self, command: Command, sent: &[u8]) -> Result<Reply, Fault>
        requires hand { needs_disk (alone_in M.alone self.old.bay) self.old.buffered command ≡ true
            → IsAtHand M.below.at_hand self.old.bay }
        requires passed { IsPassed (machine_of M.state K.kept self.old) command sent.now }
        requires needs { needs_medium (code_of command) ≡ true }
        ensures { Takes M.state M.below K.kept K.below
            (OnMedium (MediumWork (HonestIn M.below (medium_in self.old.bay)) command
            self.old.buffered sent.now) (machine_of M.state K.kept self.old))
            self.old result self.new }
    {
        let Bay::Loaded(medium) = &mut self.bay else {
            unreachable!()
        };
        carry_out(
            self.alloc,
            medium,
            &mut self.position,
            &mut self.accepted,
            self.buffered,
            command,
            sent,
        )
    }

    // The work of a command that does not need a medium.
    fn on_drive(&mut self, nexus: Nexus, command: Command, sent: &[u8]) -> Result<Reply, Fault>
        requires hand { needs_disk (alone_in M.alone self.old.bay) self.old.buffered command ≡ true
            → IsAtHand M.below.at_hand self.old.bay }
        requires needs { needs_medium (code_of command) ≡ false }
        ensures { Takes M.state M.below K.kept K.below
            (DriveWork (HonestIn M.below (medium_in self.old.bay)) command nexus sent.now
            (machine_of M.state K.kept self.old))
            self.old result self.new }
    {
        match command {
            Command::RequestSense { length } => self.request_sense(nexus, length),
            Command::ReadBlockLimits => give(self.alloc, &block_limits()),
            Command::ModeSelect { .. } => self.mode_select(nexus, sent),
            Command::ModeSense {
                disable_descriptors,
                length,
            } => self.mode_sense(disable_descriptors, length),
            Command::LoadUnload { load } => self.load_unload(nexus, load),
            Command::PersistentReserveIn { action, length } => self.reserve_in(action, length),
            Command::PersistentReserveOut { action, .. } => self.reserve_out(nexus, action, sent),
            Command::Inquiry { length } => give(
                self.alloc,
                cut_to(&inquiry_data(), length as usize),
            ),
            _ => unreachable!(),
        }
    }

    // Reports the condition that is due as data, and clears it (SPC-4, REQUEST SENSE).
    fn request_sense(&mut self, nexus: Nexus, room: u8) -> Result<Reply, Fault>
        ensures { Takes M.state M.below K.kept K.below
            (RequestSenseWork room nexus (machine_of M.state K.kept self.old))
            self.old result self.new }
    {
        let due = self.condition_due(nexus);
        let sense = sense_due(due);
        let reply = give(self.alloc, cut_to(&sense.bytes(), room as usize))?;
        self.clear_due(nexus, due);
        Ok(reply)
    }

    // Clears the condition that was reported to a nexus, if there was one.
    fn clear_due(&mut self, nexus: Nexus, due: Option<Condition>)
        ensures { self.new ≡ once_reported due nexus self.old }
    {
        if let Some(condition) = due {
            self.clear(nexus, condition);
        }
    }
}

// The sense data of a condition; where there is none, those that report nothing.
fn sense_due(due: Option<Condition>) -> Sense
    ensures { result ≡ sense_due due }
{
    match due {
        Some(condition) => condition.sense(),
        None => Sense::no_sense(),
    }
}
