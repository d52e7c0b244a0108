//! Opening a medium that is in a drive at power on, or is to be loaded.
ghost use Rattle.std.specs.Prelude.{◌≡◌, [], true, IfOk};
ghost use Rattle.scsi_sense.specs.Replies.{check_with};
ghost use Rattle.drive_commands.specs.declared.bays.Bay.TheVariants as Bays;
ghost use Rattle.drive_commands.specs.State.{start, IsPositioned, IsBayPositioned};
ghost use Rattle.drive_commands.specs.Faults.{reply_of};
ghost use Rattle.drive_commands.specs.Load.{wake_answer};
ghost use Rattle.drive_commands.specs.Inner.Opening.{OpensInto};

use crate::bays::Bay;
use crate::faults::Fault;
use positioning::Pos;
use scsi_sense::{Reply, Sense};
use std::alloc::Global;
use volume_core::{Catalog, Medium, MediumError};
use vtl_base::Bytes;

// The beginning of the medium (SSC-4).
pub const START: Pos = Pos { part: 0, obj: 0 };

/// Opens a medium as the power comes on. The medium is then loaded, even if it has failed; it stays unloaded where its
/// side holds no readable volume or the device fails. Where memory runs out, the error returns the medium.
pub fn open<M: Medium>(medium: M) -> Result<Bay<M>, M>
    requires hand { M.below.at_hand medium }
    ensures opens { OpensInto M.state M.below medium result }
    ensures on { IfOk result (λ bay. IsBayPositioned M.state bay start) }
{
    let mut medium = medium;
    match medium.wake() {
        Ok(()) => Ok(loaded(medium)),
        Err(MediumError::Failed) => Ok(loaded(medium)),
        Err(MediumError::Unreadable) => Ok(Bay::Unloaded(medium)),
        Err(MediumError::Device) => Ok(Bay::Unloaded(medium)),
        Err(MediumError::NoMemory) => Err(medium),
        Err(MediumError::SideFull) => unreachable!(),
        Err(MediumError::Refused(_)) => unreachable!(),
    }
}

// A medium that is awake, at its start.
fn loaded<M: Medium>(medium: M) -> Bay<M>
    requires { (M.state medium).awake ≡ true }
    ensures bay { result ≡ Bays.Loaded medium }
    ensures on { IsPositioned (M.state medium) start }
{
    let _ = start_of(&medium);
    Bay::Loaded(medium)
}

/// The position on a medium that was just loaded: its start. The medium has at least one partition, so the start is on
/// it.
pub fn start_of<M: Catalog>(medium: &M) -> Pos
    requires { (M.state medium.now).awake ≡ true }
    ensures start { result ≡ start }
    ensures on { IsPositioned (M.state medium.now) result }
{
    // Called for the proof: the medium has at least one partition.
    let _ = medium.parts();
    START
}

/// The answer to a command whose medium could not be opened because of `error`. The call allocates no memory.
pub fn wake_answer(alloc: Global, error: MediumError) -> Result<Reply, Fault>
    ensures { result ≡ wake_answer error }
{
    match error {
        MediumError::NoMemory => Err(Fault::NoMemory),
        MediumError::Device => Err(Fault::Reading),
        MediumError::Unreadable => Ok(check(alloc, Sense::read_error())),
        MediumError::Failed => Ok(check(alloc, Sense::medium_failed())),
        MediumError::SideFull => Ok(check(alloc, Sense::medium_failed())),
        MediumError::Refused(_) => Ok(check(alloc, Sense::medium_failed())),
    }
}

/// The reply that reports that a medium could not be opened because of `error`. The call allocates no memory.
pub fn wake_reply(alloc: Global, error: MediumError) -> Reply
    ensures { result ≡ reply_of (wake_answer error) }
{
    match wake_answer(alloc, error) {
        Ok(reply) => reply,
        Err(fault) => fault.reply(alloc),
    }
}

/// The reply CHECK CONDITION with this sense data and no other data.
pub fn check(alloc: Global, sense: Sense) -> Reply
    ensures { result ≡ check_with sense [] }
{
    Reply::check(sense, Bytes::new(alloc))
}
