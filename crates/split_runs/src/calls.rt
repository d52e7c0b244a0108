//! The calls of the two halves of a drive. Each is a step of a list of calls, of which the laws speak.
ghost use Rattle.std.specs.Prelude.{[]};
ghost use Rattle.drive_commands.specs.Execute.{asked};
ghost use Rattle.split_bay.specs.Halves.{MakesRoom, Parts};
ghost use Rattle.split_bay.specs.Rings.{AreEnds};
ghost use Rattle.split_runs.specs.Calls.{KeepsHalves};
ghost use Rattle.split_runs.specs.Steps.{IsAloneStep, IsBothStep, IsRoomStep, IsSettledStep, IsToldStep, IsTurnStep, halves_of};

use bay_moves::Bay;
use scsi_sense::Reply;
use split_bay::{Back, Ends, Front, Rings, execute_both, make_room, part, settle_both, tell};
use tape_disk::Disk;
use volume_core::{MediumError, Turn};
use vtl_base::{Bytes, Nexus};

/// Parts a drive into the halves with which a list of calls begins (`part`).
pub fn begin_halves<D: Disk, R: Rings>(bay: Bay<D>, ends: Ends<R>) -> (Front<D, R>, Back<D, R>)
    ensures parts { Parts D.state bay ends result.0 result.1 }
    ensures keeps { KeepsHalves D.state (halves_of result.0 result.1 []) }
{
    let (hosts, disks) = part(bay, ends);
    // What the types keep, for the proof alone; so in each call below.
    hosts.known();
    disks.known();
    (hosts, disks)
}

/// Asks the hosts' half alone (`Front::execute`).
pub fn ask_alone<D: Disk, R: Rings>(
    front: &mut Front<D, R>,
    nexus: Nexus,
    cdb: &[u8],
    sent: &mut Bytes,
) -> Option<Reply>
    ensures { IsAloneStep D.state front.old (asked nexus cdb.now sent.old) result sent.new front.new }
{
    let answer = front.execute(nexus, cdb, sent);
    front.known();
    answer
}

/// Has the disk's half take a turn (`Back::turn`).
pub fn turn_alone<D: Disk, R: Rings>(back: &mut Back<D, R>) -> Turn
    ensures { IsTurnStep D.state back.old result back.new }
{
    let turn = back.turn();
    back.known();
    turn
}

/// Asks both halves, which must fit (`execute_both`).
pub fn ask_both<D: Disk, R: Rings>(
    front: &mut Front<D, R>,
    back: &mut Back<D, R>,
    nexus: Nexus,
    cdb: &[u8],
    sent: &mut Bytes,
) -> Reply
    requires { AreEnds front.old.sending back.old.number back.old.received }
    ensures { IsBothStep D.state front.old back.old (asked nexus cdb.now sent.old) result sent.new front.new back.new }
{
    let reply = execute_both(front, back, nexus, cdb, sent);
    front.known();
    back.known();
    reply
}

/// Has both halves, which must fit, take a turn (`settle_both`).
pub fn turn_both<D: Disk, R: Rings>(front: &mut Front<D, R>, back: &mut Back<D, R>) -> Turn
    requires { AreEnds front.old.sending back.old.number back.old.received }
    ensures { IsSettledStep D.state front.old back.old result front.new back.new }
{
    let turn = settle_both(front, back);
    front.known();
    back.known();
    turn
}

/// Has both halves, which must fit, make room (`make_room`). Where they lack it, they take a turn too, which is a step
/// of its own.
pub fn make_more_room<D: Disk, R: Rings>(
    front: &mut Front<D, R>,
    back: &mut Back<D, R>,
) -> Result<(), MediumError>
    requires { AreEnds front.old.sending back.old.number back.old.received }
    ensures step { IsRoomStep D.state front.old back.old front.new back.new }
    ensures made { MakesRoom D.state front.old back.old result front.new back.new }
{
    let made = make_room(front, back);
    front.known();
    back.known();
    made
}

/// Reports a fault of the disk's half, if there is one that was not reported (`tell`). The halves must fit.
pub fn tell_fault<D: Disk, R: Rings>(front: &mut Front<D, R>, back: &mut Back<D, R>)
    requires { AreEnds front.old.sending back.old.number back.old.received }
    ensures { IsToldStep D.state front.old back.old front.new back.new }
{
    tell(front, back);
    front.known();
    back.known();
}
