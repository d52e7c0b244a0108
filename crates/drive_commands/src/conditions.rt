//! Conditions that are reported to a host, and why a command is not carried out.
ghost use Rattle.std.specs.Prelude.{◌≡◌};
ghost use Rattle.drive_commands.specs.Conditions.{condition_sense, denial_reply};

use crate::opening::check;
use scsi_attention::Attention;
use scsi_sense::{Reply, Sense};
use std::alloc::Global;

/// A condition that is reported to a host once and is then cleared (SPC-4).
#[derive(Clone, Copy, PartialEq, Eq, Debug)]
pub enum Condition {
    /// The device failed in a flusher's turn.
    DeferredError,
    UnitAttention(Attention),
}

/// Why a command is not carried out: the first check that it does not pass.
#[derive(Clone, Copy, PartialEq, Eq, Debug)]
pub enum Denial {
    /// The command is refused with this sense data.
    Refused(Sense),
    /// This condition is reported instead of carrying out the command.
    Reported(Condition),
    /// A reservation does not let the host use this command: the status is RESERVATION CONFLICT.
    Conflict,
}

impl Condition {
    /// The sense data that report the condition.
    pub fn sense(self) -> Sense
        ensures { result ≡ condition_sense self }
    {
        match self {
            Condition::DeferredError => Sense::deferred_write_error(),
            Condition::UnitAttention(attention) => Sense::attention(attention),
        }
    }
}

impl Denial {
    /// The reply to the host. The call allocates no memory.
    pub fn reply(self, alloc: Global) -> Reply
        ensures { result ≡ denial_reply self }
    {
        match self {
            Denial::Refused(sense) => check(alloc, sense),
            Denial::Reported(condition) => check(alloc, condition.sense()),
            Denial::Conflict => Reply::conflict(alloc),
        }
    }
}
