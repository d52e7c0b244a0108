//! Laws of lists of calls of the two halves of a drive. Each is a function that does nothing, and its contract is the
//! law.
ghost use Rattle.split_runs.specs.Begun.{PartedHalvesKeep, ToldIsSeen};
ghost use Rattle.split_runs.specs.Cores.{RunsOfHalvesMove, StopsOfHalvesKeep};
ghost use Rattle.split_runs.specs.Faults.{StuckHalvesRest, ToldHostsAcceptNothing, ToldOnceByHalves};
ghost use Rattle.split_runs.specs.Found.{FoundAsItWas, FoundIsTurned};
ghost use Rattle.split_runs.specs.Places.{FollowedMoves, FollowedStopsKeep};
ghost use Rattle.split_runs.specs.Replies.{RepliesOfHalves};

use accepted_changes::laws::{a_crash_leaves_what_was_acknowledged, events_keep_their_base};
use drive_theorems::honest_steps;
use tape_buffer::Buffered;
use tape_disk::Disk;

/// The halves into which any drive parts keep what the laws ask of halves. That a fault was reported to hosts is that
/// they see the medium in the drive as one that has failed.
pub fn parted_halves_keep<D: Disk>()
    ensures keep { PartedHalvesKeep D.state }
    ensures told { ToldIsSeen D.state }
{}

/// Over any list of calls of the two halves of a drive, each given what the one before it left: the core of the
/// cartridge moves by steps that compose from the first call to the last, at every moment within.
pub fn a_run_of_halves_moves<D: Disk>()
    ensures { RunsOfHalvesMove D.state }
{}

/// Over any list of calls of the two halves of a drive: a stop at any moment after an acknowledged synchronizing
/// command, inside a call too, leaves the cartridge with the first changes that it accepted, among them all that were
/// accepted up to the acknowledgement.
pub fn a_stop_keeps_what_halves_acknowledged<D: Disk>()
    ensures { StopsOfHalvesKeep D.state }
{
    a_crash_leaves_what_was_acknowledged::<Buffered<D>>();
    events_keep_their_base::<Buffered<D>>();
}

/// The same two laws for a cartridge that is followed through moves: it is taken out of its drive, loaded into another
/// or put into it, and a drive is made of both halves for other work. A stop at any moment after an acknowledged
/// synchronizing command, wherever the cartridge is then, leaves it with the first changes that it accepted, among them
/// all that were accepted up to the acknowledgement.
pub fn a_followed_cartridge_keeps_what_was_acknowledged<D: Disk>()
    ensures moves { FollowedMoves D.state }
    ensures stops { FollowedStopsKeep D.state }
{
    a_crash_leaves_what_was_acknowledged::<Buffered<D>>();
    events_keep_their_base::<Buffered<D>>();
}

/// Once both halves are held, a drive with a loaded and awake medium is found as if it had taken one flusher's turn, as
/// a whole drive, before its last changes were accepted. A drive that is empty, or that has an unloaded medium which is
/// not awake, is found as it was.
pub fn what_is_found_is_turned()
    ensures loaded { FoundIsTurned }
    ensures other { FoundAsItWas }
{}

/// The replies of any list of calls of the two halves, over honest disks, are those of a run of the drive machine that
/// is looked at between steps: where both halves are held, and where a fault is reported. What is found so is what a
/// flusher's turn left (`what_is_found_is_turned`).
pub fn halves_answer_as_the_machine<D: Disk>()
    ensures { RepliesOfHalves D.state }
{
    honest_steps::<Buffered<D>>();
}

/// After a fault of the disk's half that half stores and receives nothing, whatever hosts are answered meanwhile, until
/// both halves are held. Once hosts see the fault, their half accepts nothing alone. To report a fault a second
/// time changes nothing.
pub fn faults_stop_halves<D: Disk>()
    ensures rest { StuckHalvesRest D.state }
    ensures told { ToldHostsAcceptNothing D.state }
    ensures once { ToldOnceByHalves D.state }
{}
