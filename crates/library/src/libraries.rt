//! A library whose drives threads share.
ghost use Rattle.std.specs.Prelude.{◌≡◌, true, is_some, IfSome};
ghost use Rattle.drive_commands.specs.Data.{data_left};
ghost use Rattle.drive_commands.specs.Execute.{asked};
ghost use Rattle.bay_moves.specs.Lent.{IsDriveAddress};
ghost use Rattle.library.specs.Counts.{has_drive};
ghost use Rattle.library.specs.Served.{IsServed};

use crate::places::{Seat, SlotsPlace};
use crate::rows::Row;
use crate::shared::SharedBay;
use bay_moves::drive_of;
use ledgers::{Parties, Tally};
use scsi_sense::Reply;
use split_bay::Rings;
use std::alloc::Global;
use std::marker::Model;
use std::sync::atomic::{AtomicBool, Ordering};
use std::sync::{Mutex, Wait};
use tape_disk::Disk;
use vtl_base::{Bytes, DriveNo};

/// Slots and drives, and two ledgers of the changes that the drives accepted: one by drive, one by host. Each half of a
/// drive is behind a lock of its own, the slots are behind one lock, and the two ledgers are behind another. The lock
/// of the ledgers is taken for one change at a time, while the lock of a drive's hosts' half is held. `B::all` is the
/// number of drives, and `H::all` that of hosts. A contract sees, for each drive number, whether there is a drive.
#[derive(Drop)]
pub struct Library<D: Disk, B: Parties + Rings, H: Parties> {
    pub(crate) alloc: Global,
    pub(crate) bays: Vec<Option<SharedBay<D, B>>>,
    pub(crate) slots: Mutex<SlotsPlace<D, H>>,
    pub(crate) tally: Mutex<Tally<B, H>>,
    // Where the drives go at the end. It has a lock so that threads may share it; no thread takes the lock.
    pub(crate) row: Mutex<Row<D>>,
    pub(crate) closed: AtomicBool,
}

impl<D: Disk, B: Parties + Rings, H: Parties> Model for Library<D, B, H> {
    ghost use Rattle.std.specs.Prelude.{◌≡◌, Bool, List, length};
    ghost use Rattle.vtl_base.specs.declared.limits.TheConstants.{DRIVES};
    ghost use Rattle.library.specs.Counts.{places_filled, which_are_there};

    ghost Value = { List Bool };

    ghost view = { λ l. which_are_there l.bays.items };

    ghost invariant = { λ l. (length l.bays.items ≡ DRIVES) × (places_filled l.bays.items ≡ B.all) };
}

impl<D: Disk + Drop, B: Parties + Rings, H: Parties> Library<D, B, H> {
    /// Whether there is a drive with the number `drive`.
    pub fn configured(&self, drive: DriveNo) -> bool
        ensures { result ≡ has_drive self.now drive }
    {
        self.bays[drive.place()].is_some()
    }

    /// Carries out a command of the host that has `seat`, on the configured drive `drive`, and returns the reply. `cdb`
    /// is the command block, and `sent` are the data that came with it. If the command makes a change, the change takes
    /// over these data without a copy, and `sent` is empty afterwards; otherwise `sent` is as before. The change is
    /// entered in the ledgers, for the drive and for the seat.
    pub fn command<R: Wait>(
        &self,
        rt: &R,
        seat: &mut Seat<H>,
        drive: DriveNo,
        cdb: &[u8],
        sent: &mut Bytes,
    ) -> Reply
        requires { has_drive self.now drive ≡ true }
        ensures { (served : IsServed D.state (asked seat.old.nexus cdb.now sent.old) seat.old result seat.new)
            × (sent.new ≡ data_left served.made sent.old) }
    {
        match &self.bays[drive.place()] {
            Some(bay) => bay.serve(rt, &self.tally, seat, cdb, sent),
            None => unreachable!(),
        }
    }

    /// Closes the library: from now on each flusher ends before its next round. A flusher that waits is woken.
    pub fn close<R: Wait>(&self, rt: &R) {
        self.closed.store(true, Ordering::SeqCst);
        for place in &self.bays {
            if let Some(bay) = place {
                bay.ring(rt);
            }
        }
    }

    // The drive at this element address; None where the address is not that of a configured drive.
    pub(crate) fn drive_at(&self, address: u32) -> Option<&SharedBay<D, B>>
        ensures there { is_some result ≡ has_drive self.now address }
        ensures address { IfSome result (λ bay. IsDriveAddress address) }
    {
        // Read for the proof: there are places for all drives.
        let _ = &self.bays;
        match drive_of(address) {
            Some(drive) => self.bays[drive.place()].as_ref(),
            None => None,
        }
    }
}
