//! What a stop leaves of a cartridge.
ghost use Rattle.bay_moves.specs.Cartridges.{StopsKeepChanges};
ghost use Rattle.bay_moves.specs.Journeys.{KeepsWhatIsSafe, StopsKeepWhatIsMoved};

use accepted_changes::laws::{a_crash_leaves_what_was_acknowledged, steps_keep_cores};
use pr_core::Keeper;
use tape_buffer::Buffered;
use tape_disk::Disk;

/// A drive with a cartridge over two honest disks acknowledges a synchronizing command; then any commands and flusher's
/// turns follow. A stop at any moment of these, even inside a call, leaves the cartridge with the first changes that it
/// accepted, among them all that were accepted up to the acknowledgement.
pub fn a_stop_keeps_acknowledged_changes<D: Disk, K: Keeper>()
    ensures { StopsKeepChanges D.state K.kept K.below }
{
    a_crash_leaves_what_was_acknowledged::<Buffered<D>>();
    steps_keep_cores::<Buffered<D>>();
}

/// The law `a_stop_keeps_acknowledged_changes` for a cartridge that is moved. After an acknowledged synchronizing
/// command any commands, turns, moves and write-outs follow, of this drive and of others. A stop at any moment of these
/// leaves the cartridge, wherever it then is, with the first changes that it accepted, among them all that were
/// accepted up to the acknowledgement. The same holds from any moment at which all changes that a cartridge over two
/// honest disks had accepted are safe.
pub fn a_stop_keeps_acknowledged_changes_of_what_is_moved<D: Disk>()
    ensures acknowledged { StopsKeepWhatIsMoved D.state }
    ensures safe { KeepsWhatIsSafe D.state }
{
    a_crash_leaves_what_was_acknowledged::<Buffered<D>>();
    steps_keep_cores::<Buffered<D>>();
}
