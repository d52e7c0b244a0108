//! A command whose data are lent.
ghost use Rattle.std.specs.Prelude.{◌≡◌, ◌≤◌, ℕ, List, [], IfOk, None, false, true, length};
ghost use Rattle.vtl_base.specs.declared.limits.TheConstants.{MAX_BLOCK};
ghost use Rattle.drive_commands.specs.State.{IsAtHand, machine_of, medium_in};
ghost use Rattle.drive_commands.specs.OnMedium.{OnMedium};
ghost use Rattle.drive_commands.specs.Write.{WriteWork};
ghost use Rattle.drive_commands.specs.Work.{Work};
ghost use Rattle.drive_commands.specs.Checks.{medium_denial, verdict};
ghost use Rattle.drive_commands.specs.Synchronize.{IsSynchronizing, Acknowledges, NothingPending};
ghost use Rattle.drive_commands.specs.Execute.{Takes, HonestIn, asked};
ghost use Rattle.drive_commands.specs.Data.{AnswersLent, data_left};
ghost use Rattle.drive_commands.specs.Alone.{alone_in, needs_disk, needs_disk_as, request_needs_disk};
ghost use Rattle.drive_commands.specs.Inner.Passing.{IsPassed};

use super::Drive;
use crate::bays::Bay;
use crate::conditions::Denial;
use crate::faults::Fault;
use crate::writes::write;
use pr_core::Keeper;
use scsi_opcodes::Command;
use scsi_sense::Reply;
use volume_core::Medium;
use vtl_base::{Bytes, Nexus};

impl<M: Medium, K: Keeper> Drive<M, K> {
    /// Answers a command, as `execute` does. The data in `sent` are lent: a block that is written takes them without
    /// copying, and `sent` is then empty; else `sent` still holds them.
    pub fn execute_lent(&mut self, nexus: Nexus, cdb: &[u8], sent: &mut Bytes) -> Reply
        requires hand { request_needs_disk M.state K.kept M.alone self.old (asked nexus cdb.now sent.old) ≡ true
            → IsAtHand M.below.at_hand self.old.bay }
        ensures step { AnswersLent M.state M.below K.kept K.below
            self.old (asked nexus cdb.now sent.old) result self.new sent.new }

        // All is stored before a synchronizing command is acknowledged.
        ensures settled { IsSynchronizing (machine_of M.state K.kept self.old) cdb.now
            → Acknowledges result → NothingPending (HonestIn M.below (medium_in self.old.bay))
            (machine_of M.state K.kept self.new) }
    {
        let judged = self.verdict(nexus, cdb, sent.as_slice());
        self.answer_lent(nexus, judged, sent)
    }

    /// Answers a command whose checks had the result `judged`.
    pub(super) fn answer_lent(
        &mut self,
        nexus: Nexus,
        judged: Result<Command, Denial>,
        sent: &mut Bytes,
    ) -> Reply
        requires passed { IfOk judged (λ command.
            IsPassed (machine_of M.state K.kept self.old) command sent.old) }
        requires hand { needs_disk_as (alone_in M.alone self.old.bay) self.old.buffered judged ≡ true
            → IsAtHand M.below.at_hand self.old.bay }
        ensures { (cdb : List ℕ)
            → verdict (machine_of M.state K.kept self.old) (asked nexus cdb sent.old) ≡ judged
            → AnswersLent M.state M.below K.kept K.below
            self.old (asked nexus cdb sent.old) result self.new sent.new }
    {
        let alloc = self.alloc;
        match judged {
            Ok(command) => match self.perform_lent(nexus, command, sent) {
                Ok(reply) => reply,
                Err(fault) => fault.reply(alloc),
            },
            Err(denial) => self.deny(nexus, denial),
        }
    }

    // Carries out a command. Only a WRITE takes the data in `sent`.
    fn perform_lent(
        &mut self,
        nexus: Nexus,
        command: Command,
        sent: &mut Bytes,
    ) -> Result<Reply, Fault>
        requires hand { needs_disk (alone_in M.alone self.old.bay) self.old.buffered command ≡ true
            → IsAtHand M.below.at_hand self.old.bay }
        requires passed { IsPassed (machine_of M.state K.kept self.old) command sent.old }
        ensures { (takes : Takes M.state M.below K.kept K.below
            (Work (HonestIn M.below (medium_in self.old.bay)) command nexus sent.old
            (machine_of M.state K.kept self.old))
            self.old result self.new) × (sent.new ≡ data_left takes.made.changes sent.old) }
    {
        match command {
            Command::Write { .. } => self.write_lent(sent),
            _ => self.perform(nexus, command, sent.as_slice()),
        }
    }

    // The work of a WRITE.
    fn write_lent(&mut self, sent: &mut Bytes) -> Result<Reply, Fault>
        requires settled { (sent.old ≡ [] → ⊥) → self.old.buffered ≡ false
            → IsAtHand M.below.at_hand self.old.bay }
        requires room { (sent.old ≡ [] → ⊥) → alone_in M.alone self.old.bay (length sent.old) ≡ false
            → IsAtHand M.below.at_hand self.old.bay }
        requires medium { medium_denial (machine_of M.state K.kept self.old).bay ≡ None }
        requires short { length sent.old ≤ MAX_BLOCK }
        ensures { (takes : Takes M.state M.below K.kept K.below
            (OnMedium (WriteWork self.old.buffered sent.old) (machine_of M.state K.kept self.old))
            self.old result self.new) × (sent.new ≡ data_left takes.made.changes sent.old) }
    {
        let Bay::Loaded(medium) = &mut self.bay else {
            unreachable!()
        };
        write(
            self.alloc,
            medium,
            &mut self.position,
            &mut self.accepted,
            self.buffered,
            sent,
        )
    }
}
