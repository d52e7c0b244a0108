//! Moves of cartridges between slots and drives that threads share.
ghost use Rattle.std.specs.Prelude.{◌≡◌, ◌≢◌, IfSome, is_some};
ghost use Rattle.bay_moves.specs.Lent.{IsDriveAddress};
ghost use Rattle.library.specs.Counts.{has_drive};
ghost use Rattle.library.specs.MovesAt.{IsMovedAmong};

use crate::libraries::Library;
use crate::places::{LockedBay, Mover, move_locked};
use crate::shared::SharedBay;
use ledgers::Parties;
use scsi_sense::Reply;
use split_bay::Rings;
use std::sync::Wait;
use tape_disk::Disk;

// Takes both locks of a drive, if there is one, that of the hosts' half first.
fn lock_both<'a, D: Disk + Drop, B: Parties + Rings, R: Wait>(
    place: Option<&'a SharedBay<D, B>>,
    rt: &R,
) -> Option<LockedBay<'a, D, B>>
    ensures { is_some result ≡ is_some place.entry }
{
    let bay = place?;
    let front = bay.front.lock(rt);
    let back = bay.back.lock(rt);
    Some(LockedBay { front, back })
}

impl<D: Disk + Drop, B: Parties + Rings, H: Parties> Library<D, B, H> {
    /// Moves a cartridge from the element address `from` to the element address `to`, as `move_lent` of the crate
    /// `bay_moves` does, and returns the reply to the move. `mover` shows who moves: the operator, or a host by its
    /// seat. It counts the move, whatever the reply is. The slots' lock is held meanwhile. While it is held, both locks
    /// of each drive at the two addresses are taken, those of the drive with the lower number first. The call waits
    /// forever if 2^64 - 1 moves were made already.
    pub fn move_medium<R: Wait, M: Mover<H>>(
        &self,
        rt: &R,
        mover: &mut M,
        from: u32,
        to: u32,
    ) -> Reply
        ensures moved { IsMovedAmong D.state self.now from to result }
        ensures counted { mover.new ≡ M.moved_once mover.old }
    {
        let source = self.drive_at(from);
        let destination = self.other_drive_at(from, to);
        let mut slots = self.slots.lock(rt);
        if from < to {
            let source = lock_both(source, rt);
            let destination = lock_both(destination, rt);
            move_locked(
                source,
                destination,
                rt,
                self.alloc,
                &mut slots,
                mover,
                from,
                to,
            )
        } else {
            let destination = lock_both(destination, rt);
            let source = lock_both(source, rt);
            move_locked(
                source,
                destination,
                rt,
                self.alloc,
                &mut slots,
                mover,
                from,
                to,
            )
        }
    }

    // The drive at the destination, unless it is the one at the source.
    fn other_drive_at(&self, from: u32, to: u32) -> Option<&SharedBay<D, B>>
        ensures there { from ≢ to → is_some result ≡ has_drive self.now to }
        ensures apart { IfSome result (λ bay. IsDriveAddress to × (from ≢ to)) }
    {
        if from == to { None } else { self.drive_at(to) }
    }
}
