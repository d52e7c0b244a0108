//! What a move does with a drive that stands in two halves. Each is a step of the way of a cartridge, of which the laws
//! speak.
ghost use Rattle.std.specs.Prelude.{◌≡◌};
ghost use Rattle.drive_commands.specs.declared.bays.Bay.TheVariants as Bays;
ghost use Rattle.split_bay.specs.Rings.{AreEnds};
ghost use Rattle.split_runs.specs.Moves.{IsInStep, IsOutStep, IsPutStep};

use bay_moves::Parked;
use scsi_sense::Reply;
use split_bay::{Back, Front, Rings, join, part};
use tape_disk::Disk;

/// Takes the cartridge out of a drive, whose halves must fit (`join`, `Bay::unload`, `part`).
pub fn take_out<D: Disk, R: Rings>(
    front: Front<D, R>,
    back: Back<D, R>,
) -> (Result<Parked<D>, Reply>, Front<D, R>, Back<D, R>)
    requires { AreEnds front.sending back.number back.received }
    ensures { IsOutStep D.state front back result.0 result.1 result.2 }
{
    let (mut bay, ends) = join(front, back);
    let out = bay.unload();
    let (hosts, disks) = part(bay, ends);
    // What the types keep, for the proof alone; so in each move below.
    hosts.known();
    disks.known();
    (out, hosts, disks)
}

/// Opens a cartridge, and loads it into a drive that is empty, whose halves must fit (`join`, `Bay::load`, `part`).
pub fn take_in<D: Disk, R: Rings>(
    front: Front<D, R>,
    back: Back<D, R>,
    cartridge: Parked<D>,
) -> (Result<(), (Parked<D>, Reply)>, Front<D, R>, Back<D, R>)
    requires ends { AreEnds front.sending back.number back.received }
    requires empty { front.drive.bay ≡ Bays.Empty }
    ensures { IsInStep D.state front back cartridge result.0 result.1 result.2 }
{
    let (mut bay, ends) = join(front, back);
    let loaded = bay.load(cartridge);
    let (hosts, disks) = part(bay, ends);
    hosts.known();
    disks.known();
    (loaded, hosts, disks)
}

/// Puts a cartridge into a drive that is empty, whose halves must fit, without loading it (`join`, `Bay::insert`,
/// `part`).
pub fn put_in<D: Disk, R: Rings>(
    front: Front<D, R>,
    back: Back<D, R>,
    cartridge: Parked<D>,
) -> (Front<D, R>, Back<D, R>)
    requires ends { AreEnds front.sending back.number back.received }
    requires empty { front.drive.bay ≡ Bays.Empty }
    ensures { IsPutStep D.state front back cartridge result.0 result.1 }
{
    let (mut bay, ends) = join(front, back);
    bay.insert(cartridge);
    let (hosts, disks) = part(bay, ends);
    hosts.known();
    disks.known();
    (hosts, disks)
}
