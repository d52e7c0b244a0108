//! The checks of a command, in their order.
ghost use Rattle.std.specs.Prelude.{◌≡◌, ◌≤◌, None, IfOk, IfSome, length};
ghost use Rattle.vtl_base.specs.declared.limits.TheConstants.{MAX_BLOCK};
ghost use Rattle.scsi_opcodes.specs.Commands.{code_of, command_of, sent_length};
ghost use Rattle.drive_commands.specs.State.{machine_of};
ghost use Rattle.drive_commands.specs.Conditions.{condition_due};
ghost use Rattle.drive_commands.specs.Checks.{fields_verdict, medium_denial, need_denial, state_denial, suits, verdict};
ghost use Rattle.drive_commands.specs.Execute.{asked};
ghost use Rattle.drive_commands.specs.Inner.Passing.{IsPassed, HasFields};

use super::Drive;
use crate::bays::Bay;
use crate::conditions::{Condition, Denial};
use pr_core::Keeper;
use scsi_opcodes::{Command, Opcode};
use scsi_sense::Sense;
use volume_core::{Catalog, Medium};
use vtl_base::Nexus;

impl<M: Medium, K: Keeper> Drive<M, K> {
    /// Checks a request. Returns its command, or why it is not carried out: the first check that it does not pass.
    pub(super) fn verdict(&self, nexus: Nexus, cdb: &[u8], sent: &[u8]) -> Result<Command, Denial>
        ensures verdict { result ≡ verdict (machine_of M.state K.kept self.now)
            (asked nexus cdb.now sent.now) }
        ensures passed { IfOk result (λ command.
            IsPassed (machine_of M.state K.kept self.now) command sent.now) }
    {
        let Some(opcode) = Opcode::of(cdb) else {
            return Err(Denial::Refused(Sense::invalid_operation_code()));
        };
        if let Some(denial) = self.state_denial(nexus, opcode) {
            return Err(denial);
        }
        self.fields_verdict(opcode, cdb, sent)
    }

    /// The condition that is reported to a nexus next: the deferred error, else the first unit attention condition of
    /// the nexus. None where there is neither.
    pub(super) fn condition_due(&self, nexus: Nexus) -> Option<Condition>
        ensures { result ≡ condition_due (machine_of M.state K.kept self.now) nexus }
    {
        if self.deferred {
            return Some(Condition::DeferredError);
        }
        let attention = self.attentions.first(nexus)?;
        Some(Condition::UnitAttention(attention))
    }

    // Checks conditions, reservation and medium, in this order. Returns the first of them that keeps the command from
    // being carried out; None where none does, and for an exempt command.
    fn state_denial(&self, nexus: Nexus, opcode: Opcode) -> Option<Denial>
        ensures { result ≡ state_denial (machine_of M.state K.kept self.now) nexus opcode }
    {
        if opcode.is_exempt() {
            return None;
        }
        if let Some(condition) = self.condition_due(nexus) {
            return Some(Denial::Reported(condition));
        }
        if !self.reservations.allowed(nexus) && opcode.is_stopped_by_reservation() {
            return Some(Denial::Conflict);
        }
        self.need_denial(opcode)
    }

    // Checks that a command that needs a medium finds one that is loaded and has not failed. Returns None where the
    // command passes.
    fn need_denial(&self, opcode: Opcode) -> Option<Denial>
        ensures { result ≡ need_denial (machine_of M.state K.kept self.now) opcode }
    {
        if !opcode.needs_medium() {
            return None;
        }
        match &self.bay {
            Bay::Empty => Some(Denial::Refused(Sense::medium_not_present())),
            Bay::Unloaded(_) => Some(Denial::Refused(Sense::medium_not_present())),
            Bay::Loaded(medium) if medium.has_failed() => {
                Some(Denial::Refused(Sense::medium_failed()))
            }
            Bay::Loaded(_) => None,
        }
    }

    // Checks the length of the command block, its fields, and the count of bytes that were sent. Returns the command
    // where it passes.
    fn fields_verdict(&self, opcode: Opcode, cdb: &[u8], sent: &[u8]) -> Result<Command, Denial>
        ensures verdict { result ≡ fields_verdict (machine_of M.state K.kept self.now) sent.now
            (command_of opcode cdb.now) }
        ensures fields { IfOk result (λ command.
            HasFields (machine_of M.state K.kept self.now) opcode command sent.now) }
    {
        let Some(command) = Command::of(opcode, cdb) else {
            return Err(Denial::Refused(Sense::invalid_field()));
        };
        if !self.suits(command) || sent.len() != command.sent_length() as usize {
            return Err(Denial::Refused(Sense::invalid_field()));
        }
        Ok(command)
    }

    // Whether the drive can do what the fields ask: an immediate answer needs the buffered mode, and the partition of a
    // LOCATE must be one of the volume's.
    fn suits(&self, command: Command) -> bool
        ensures { result ≡ suits (machine_of M.state K.kept self.now) command }
    {
        match (command, &self.bay) {
            (
                Command::WriteFilemarks {
                    immediate: true,
                    ..
                },
                _,
            ) => self.buffered,
            (
                Command::Locate {
                    part: Some(part),
                    ..
                },
                Bay::Loaded(medium),
            ) => part < medium.parts(),
            (Command::Locate { part: Some(_), .. }, _) => false,
            _ => true,
        }
    }
}
