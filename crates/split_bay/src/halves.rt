//! Both halves of a bay, while both locks are held.
ghost use Rattle.std.specs.Prelude.{◌≡◌, None};
ghost use Rattle.drive_commands.specs.Execute.{asked};
ghost use Rattle.drive_commands.specs.State.{IsBayPositioned};
ghost use Rattle.tape_buffer.specs.State.{state_of};
ghost use Rattle.bay_moves.specs.Bays.{KeepsBoth};
ghost use Rattle.bay_moves.specs.Elements.{BayState};
ghost use Rattle.split_bay.specs.Backs.{FollowsIn, disks_half};
ghost use Rattle.split_bay.specs.Fronts.{IsFrontOf, KeepsOrders, hosts_half};
ghost use Rattle.split_bay.specs.Halves.{ExecutesBoth, HoldsHalves, Joins, MakesRoom, Parts, ReportsBoth, SettlesBoth, is_unreported, no_room_of};
ghost use Rattle.split_bay.specs.Looks.{deferred_after};
ghost use Rattle.split_bay.specs.Rings.{AreEnds};
ghost use Rattle.split_bay.specs.Spans.{span_of};

use crate::backs::Back;
use crate::both::{attach_bay, detach_bay};
use crate::ends::{Receiving, Rings, Sending};
use crate::fronts::Front;
use aptpl_store::AptplStore;
use bay_moves::bays::known;
use bay_moves::{answer, take_turn};
use drive_commands::Drive;
use scsi_sense::Reply;
use std::mem;
use tape_buffer::{Buffered, Disks};
use tape_disk::Disk;
use volume_core::{MediumError, Turn};
use vtl_base::{Bytes, Nexus};

/// Answers a command of the host `nexus` with both halves, which must fit (`Front::fits`). The disks are brought back
/// to the drive for the command, and then go away again. `cdb` is the command block, and `sent` holds the data that are
/// lent with it.
pub fn execute_both<D: Disk, R: Rings>(
    front: &mut Front<D, R>,
    back: &mut Back<D, R>,
    nexus: Nexus,
    cdb: &[u8],
    sent: &mut Bytes,
) -> Reply
    requires { AreEnds front.old.sending back.old.number back.old.received }
    ensures { ExecutesBoth D.state front.old back.old (asked nexus cdb.now sent.old) result sent.new front.new
        back.new }
{
    // What the types keep, for the proof alone.
    front.known();
    back.known();
    attach(
        &mut front.drive,
        &mut front.sending,
        &mut back.receiving,
        &mut back.disks,
    );
    let reply = answer(&mut front.drive, nexus, cdb, sent);
    detach(
        &mut front.drive,
        &mut front.sending,
        &mut back.receiving,
        &mut back.disks,
    );
    reply
}

/// Stores all that is pending, in a flusher's turn of the whole drive. The halves must fit (`Front::fits`).
pub fn settle_both<D: Disk, R: Rings>(front: &mut Front<D, R>, back: &mut Back<D, R>) -> Turn
    requires { AreEnds front.old.sending back.old.number back.old.received }
    ensures { SettlesBoth D.state front.old back.old result front.new back.new }
{
    front.known();
    back.known();
    attach(
        &mut front.drive,
        &mut front.sending,
        &mut back.receiving,
        &mut back.disks,
    );
    let turn = take_turn(&mut front.drive);
    detach(
        &mut front.drive,
        &mut front.sending,
        &mut back.receiving,
        &mut back.disks,
    );
    turn
}

/// Makes room: the disks are brought back, and go away again. After that the hosts' half may again send as many changes
/// as may be pending. If memory runs out, it may send none, and all that it sent is stored, in a flusher's turn of the
/// whole drive: the result is then `NoMemory`, or `Device` where the device failed in that turn. The halves must fit
/// (`Front::fits`).
pub fn make_room<D: Disk, R: Rings>(
    front: &mut Front<D, R>,
    back: &mut Back<D, R>,
) -> Result<(), MediumError>
    requires { AreEnds front.old.sending back.old.number back.old.received }
    ensures { MakesRoom D.state front.old back.old result front.new back.new }
{
    renew(front, back);
    if !front.lacks_room() {
        return Ok(());
    }
    let turn = settle_both(front, back);
    let error = no_room(turn);
    Err(error)
}

// Why there is no room, where all that was pending was to be stored in this turn.
fn no_room(turn: Turn) -> MediumError
    ensures { result ≡ no_room_of turn }
{
    match turn {
        Turn::Device => MediumError::Device,
        Turn::Idle | Turn::Stored(_) => MediumError::NoMemory,
    }
}

// Brings the disks back, and sends them away again.
fn renew<D: Disk, R: Rings>(front: &mut Front<D, R>, back: &mut Back<D, R>)
    requires { AreEnds front.old.sending back.old.number back.old.received }
    ensures { (joined : BayState D) × HoldsHalves D.state front.old back.old joined joined front.new back.new }
{
    front.known();
    back.known();
    attach(
        &mut front.drive,
        &mut front.sending,
        &mut back.receiving,
        &mut back.disks,
    );
    detach(
        &mut front.drive,
        &mut front.sending,
        &mut back.receiving,
        &mut back.disks,
    );
}

/// Reports a fault of the disk's half `back` to hosts: a deferred error is established, and hosts see that the loaded
/// medium has failed, so it accepts no more changes. Where there is no fault, or it was reported already, nothing
/// changes. The halves must fit (`Front::fits`).
pub fn tell<D: Disk, R: Rings>(front: &mut Front<D, R>, back: &mut Back<D, R>)
    requires { AreEnds front.old.sending back.old.number back.old.received }
    ensures { ReportsBoth D.state (is_unreported D.state front.old back.old) front.old back.old front.new back.new }
{
    if !back.is_stuck() || front.has_failed() {
        return;
    }
    renew(front, back);
}

// Brings the disks of what is in a drive back. A fault that was not reported establishes a deferred error. The call
// allocates no memory, and calls no device.
pub(crate) fn attach<D: Disk, R: Rings>(
    drive: &mut Drive<Buffered<D>, AptplStore<D>>,
    sending: &mut Sending<R>,
    receiving: &mut Receiving<R>,
    disks: &mut Option<Disks<D>>,
)
    requires front { IsFrontOf drive.old.bay (span_of sending.old.sent) }
    requires ends { AreEnds sending.old receiving.old.number receiving.old.received }
    requires follows { FollowsIn D.state disks.old (span_of receiving.old.received) }
    requires orders { KeepsOrders D.state drive.old }
    ensures joins { Joins D.state (hosts_half drive.old sending.old) (disks_half receiving.old disks.old) drive.new
        sending.new }
    ensures number { sending.new.number ≡ receiving.new.number }
    ensures level { receiving.new.received ≡ sending.new.sent }
    ensures none { disks.new ≡ None }
    ensures keeps { KeepsBoth D.state drive.new }
{
    let mut bay = drive.lift();
    let fails = attach_bay(&mut bay, sending, receiving, disks);
    drive.lower(bay);
    defer_where(drive, fails);
    // What the cartridge's type keeps, for the proof alone.
    known(drive);
}

// Establishes a deferred error, where there is a fault to report.
fn defer_where<D: Disk>(drive: &mut Drive<Buffered<D>, AptplStore<D>>, fails: bool)
    ensures { drive.new ≡ record drive.old { deferred = deferred_after fails drive.old.deferred } }
{
    if fails {
        drive.defer();
    }
}

// Sends the disks of what is in a drive away. The call allocates memory for as many changes as may be pending; where
// memory runs out, none may be sent until the disks are back.
pub(crate) fn detach<D: Disk, R: Rings>(
    drive: &mut Drive<Buffered<D>, AptplStore<D>>,
    sending: &mut Sending<R>,
    receiving: &mut Receiving<R>,
    disks: &mut Option<Disks<D>>,
)
    requires keeps { KeepsBoth D.state drive.old }
    requires number { sending.old.number ≡ receiving.old.number }
    requires level { receiving.old.received ≡ sending.old.sent }
    requires none { disks.old ≡ None }
    ensures parts { Parts D.state drive.old sending.old (hosts_half drive.new sending.new)
        (disks_half receiving.new disks.new) }
    ensures orders { KeepsOrders D.state drive.new }
    ensures positioned { IsBayPositioned (state_of D.state) drive.old.bay drive.old.position }
{
    let mut bay = drive.lift();
    let lent = detach_bay(&mut bay, sending, receiving);
    drive.lower(bay);
    match mem::replace(disks, lent) {
        None => {}
        Some(_other) => unreachable!(),
    }
}
