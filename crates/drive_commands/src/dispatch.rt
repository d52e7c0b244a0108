//! The work of each command that needs a medium.
ghost use Rattle.std.specs.Prelude.{◌≡◌, ◌<◌, ◌≤◌, true, length, nat_lt, IfSome};
ghost use Rattle.vtl_base.specs.declared.limits.TheConstants.{MAX_BLOCK};
ghost use Rattle.scsi_opcodes.specs.Commands.{code_of, sent_length, written_length};
ghost use Rattle.scsi_opcodes.specs.Opcodes.{needs_medium};
ghost use Rattle.drive_commands.specs.State.{IsPositioned, mounted};
ghost use Rattle.drive_commands.specs.Inner.Carries.{IsOnWorkingMedium, Tallies};
ghost use Rattle.drive_commands.specs.Inner.Passing.{HasPart};
ghost use Rattle.drive_commands.specs.Alone.{needs_disk};
ghost use Rattle.drive_commands.specs.Work.{MediumWork};

use crate::erases::erase;
use crate::faults::Fault;
use crate::giving::read_position;
use crate::locates::locate;
use crate::marks::write_marks;
use crate::reads::read;
use crate::rewinds::rewind;
use crate::spaces::space;
use crate::writes::write_copy;
use positioning::Pos;
use scsi_opcodes::Command;
use scsi_sense::Reply;
use std::alloc::Global;
use volume_core::Medium;
use vtl_base::Bytes;

/// Carries out `command`, which must be one that needs a medium, on a loaded medium that has not failed, and counts in
/// `accepted` the changes that the medium accepts. `buffered` says whether the drive is in buffered mode; `sent` is the
/// data sent with the command.
pub fn carry_out<M: Medium>(
    alloc: Global,
    medium: &mut M,
    position: &mut Pos,
    accepted: &mut u64,
    buffered: bool,
    command: Command,
    sent: &[u8],
) -> Result<Reply, Fault>
    requires hand { needs_disk (M.alone medium.old) buffered command ≡ true → M.below.at_hand medium.old }
    requires ready { IsOnWorkingMedium (mounted (M.state medium.old) position.old) }
    requires needs { needs_medium (code_of command) ≡ true }
    requires part { HasPart (M.state medium.old) command }
    requires sent { length sent.now ≡ sent_length command }
    requires short { written_length command ≤ MAX_BLOCK }
    ensures carries { Tallies M.state M.below
        (MediumWork (M.below.honest medium.old) command buffered sent.now)
        medium.old position.old accepted.old result medium.new position.new accepted.new }
    ensures on { IsPositioned (M.state medium.new) position.new }
{
    match command {
        Command::TestUnitReady => Ok(Reply::good(Bytes::new(alloc))),
        Command::Rewind => rewind(alloc, medium, position),
        Command::Read {
            length,
            suppress_length,
        } => read(alloc, medium, position, length, suppress_length),
        Command::Write { .. } => write_copy(alloc, medium, position, accepted, buffered, sent),
        Command::WriteFilemarks { count, immediate } => {
            write_marks(alloc, medium, position, accepted, count, immediate)
        }
        Command::Space { code, count } => space(alloc, medium, position, code, count),
        Command::Erase => erase(alloc, medium, position, accepted, buffered),
        Command::Locate { object, part } => locate(alloc, medium, position, object, part),
        Command::ReadPosition => read_position(alloc, medium, position),
        Command::RequestSense { .. }
        | Command::ReadBlockLimits
        | Command::Inquiry { .. }
        | Command::PersistentReserveIn { .. }
        | Command::PersistentReserveOut { .. }
        | Command::ModeSelect { .. }
        | Command::ModeSense { .. }
        | Command::LoadUnload { .. } => unreachable!(),
    }
}
