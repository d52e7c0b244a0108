//! A drive over a cartridge and a store answers a command, or takes a flusher's turn.
ghost use Rattle.drive_commands.specs.Data.{AnswersLent};
ghost use Rattle.drive_commands.specs.Events.{FlushTurn};
ghost use Rattle.drive_commands.specs.Execute.{HonestIn, asked};
ghost use Rattle.drive_commands.specs.Media.{TakesTurn};
ghost use Rattle.drive_commands.specs.Relations.{made_nothing};
ghost use Rattle.drive_commands.specs.State.{machine_of, medium_in};
ghost use Rattle.drive_commands.specs.Synchronize.{Acknowledges, IsSynchronizing, NothingPending};
ghost use Rattle.tape_buffer.specs.Moves.{buffer_below};
ghost use Rattle.tape_buffer.specs.State.{state_of};
ghost use Rattle.aptpl_store.specs.Kept.{store_below, store_kept};
ghost use Rattle.bay_moves.specs.Bays.{AnswersLentInEvent, EveryMoment, IsSafeIn, KeepsBoth};

use crate::bays::known;
use crate::laws::reservations::reservations_outlive_each_stop;
use aptpl_store::AptplStore;
use drive_commands::Drive;
use scsi_sense::Reply;
use tape_buffer::Buffered;
use tape_disk::Disk;
use volume_core::Turn;
use vtl_base::{Bytes, Nexus};

/// Answers a command of the host `nexus`, as `Drive::execute_lent` does. The disks of what is in the drive must be at
/// hand. `sent` lends the command's data: where a block is written, they are taken out of `sent` without copying;
/// otherwise they stay there.
pub fn answer<D: Disk>(
    drive: &mut Drive<Buffered<D>, AptplStore<D>>,
    nexus: Nexus,
    cdb: &[u8],
    sent: &mut Bytes,
) -> Reply
    requires { KeepsBoth D.state drive.old }
    ensures keeps { KeepsBoth D.state drive.new }
    ensures step { AnswersLent (state_of D.state) (buffer_below D.state) store_kept (store_below D.state)
        drive.old (asked nexus cdb.now sent.old) result drive.new sent.new }

    // All is stored before a synchronizing command is acknowledged.
    ensures settled { IsSynchronizing (machine_of (state_of D.state) store_kept drive.old) cdb.now
        → Acknowledges result → NothingPending (HonestIn (buffer_below D.state) (medium_in drive.old.bay))
        (machine_of (state_of D.state) store_kept drive.new) }

    // At every moment inside the call a crash leaves what the call's event says.
    ensures moments { AnswersLentInEvent D.state drive.old (asked nexus cdb.now sent.old) result drive.new sent.new }

    // A synchronizing command that is acknowledged leaves all that was accepted safe.
    ensures safe { IsSynchronizing (machine_of (state_of D.state) store_kept drive.old) cdb.now
        → Acknowledges result → HonestIn (buffer_below D.state) (medium_in drive.old.bay)
        → IsSafeIn D.state (medium_in drive.new.bay) }
{
    // The law, and the facts of what is in the drive, for the proof alone.
    reservations_outlive_each_stop::<Buffered<D>, D>();
    let reply = drive.execute_lent(nexus, cdb, sent);
    known(drive);
    let _ = drive.medium();
    reply
}

/// Takes a flusher's turn, as `Drive::turn` does. The disks of what is in the drive must be at hand. The call allocates
/// no memory.
pub fn take_turn<D: Disk>(drive: &mut Drive<Buffered<D>, AptplStore<D>>) -> Turn
    requires { KeepsBoth D.state drive.old }
    ensures keeps { KeepsBoth D.state drive.new }
    ensures turned { TakesTurn (state_of D.state) (buffer_below D.state) store_kept drive.old result drive.new }
    ensures moments { EveryMoment D.state drive.old FlushTurn made_nothing (medium_in drive.old.bay)
        (medium_in drive.new.bay) drive.new }
{
    // As in `answer`.
    reservations_outlive_each_stop::<Buffered<D>, D>();
    let turn = drive.turn();
    known(drive);
    turn
}
