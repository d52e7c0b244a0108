//! Laws of what a stop leaves of a drive. Each is a function whose contract is the law.
ghost use Rattle.tape_buffer.specs.Rules.{medium_rules};
ghost use Rattle.bay_moves.specs.Accepted.{StopsKeepAccepted, StopsKeepThrough, order_rules};

pub mod cartridges;
pub mod reservations;

use crate::bays::Bay;
use accepted_changes::laws::{
    what_is_kept_begins, what_was_acknowledged_begins, what_was_acknowledged_is_kept,
};
use tape_buffer::Buffered;
use tape_disk::Disk;

/// Two laws, for every list of events, whatever stops come between. The first is about the changes of a cartridge, the
/// second about the orders of a drive's reservations. What was accepted when an acknowledgement was made is the first
/// part of all that is accepted later. The base of a cartridge, on which its changes build, may change between two
/// events. Then what was accepted is the first part of what goes into the new base.
pub fn stop_keeps<D: Disk>()
    ensures changes { StopsKeepThrough medium_rules }
    ensures orders { StopsKeepAccepted order_rules }
{
    what_was_acknowledged_is_kept::<Buffered<D>>();
    what_was_acknowledged_begins::<Buffered<D>>();
    what_was_acknowledged_is_kept::<Bay<D>>();
    what_is_kept_begins::<Bay<D>>();
}
