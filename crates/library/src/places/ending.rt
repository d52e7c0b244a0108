//! The end of a drive: its halves are joined, and it takes a last turn.
ghost use Rattle.std.specs.Prelude.{◌≡◌, Some, OnErr, OnOk};
ghost use Rattle.bay_moves.specs.Finish.{HasFailedAt, IsWrittenAt};
ghost use Rattle.library.specs.Halves.{EndsHeld};

use super::held::{join_held, known_drive};
use super::{BackPlace, FrontPlace};
use bay_moves::{Bay, Unwritten};
use ledgers::{Parties, PartyShare};
use split_bay::Rings;
use std::sync::Wait;
use tape_disk::Disk;

/// A drive and its share at the end of a library, without the locks.
#[derive(Drop)]
pub struct EndedPlace<D: Disk, B: Parties + Rings> {
    /// The drive.
    pub bay: Bay<D>,
    /// Its share of the ledger of drives.
    pub share: PartyShare<B>,
    /// Ok where the loaded medium, if there is one, has stored all that it accepted, and no deferred error stands; an
    /// error where it has failed, or one stands.
    pub written: Result<(), Unwritten>,
}

impl<D: Disk + Drop, B: Parties + Rings> FrontPlace<D, B> {
    /// Joins the two halves of a drive, and takes a turn, which stores what is pending. Returns the drive with its
    /// share, and whether all is stored and no deferred error stands. `back` has to be the disk's half of this drive;
    /// otherwise the call waits forever. The call allocates no memory.
    pub fn end<R: Wait>(self, back: BackPlace<D, B>, rt: &R) -> EndedPlace<D, B>
        ensures left { EndsHeld D.state self back result.bay }
        ensures share { result.share ≡ result.bay.accepted }
        ensures ok { OnOk result.written (IsWrittenAt D.state (Some result.bay)) }
        ensures err { OnErr result.written (HasFailedAt D.state (Some result.bay)) }
    {
        let FrontPlace { mut half, share } = self;
        let BackPlace { half: mut other } = back;
        let (mut bay, _ends) = join_held(rt, &mut half, &mut other);
        // The facts of the drive before its turn and after, for the proof alone.
        known_drive(&bay);
        let written = bay.write_out();
        known_drive(&bay);
        drop(half);
        drop(other);
        EndedPlace {
            bay,
            share,
            written,
        }
    }
}
