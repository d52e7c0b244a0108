//! Faults that a command may meet, besides what the standards name.
ghost use Rattle.std.specs.Prelude.{◌≡◌};
ghost use Rattle.drive_commands.specs.Faults.{fault_sense, fault_reply};

use pr_core::KeeperError;
use scsi_sense::{Reply, Sense};
use std::alloc::Global;
use vtl_base::{Bytes, NoMemory};

/// A fault that a command met.
#[derive(Clone, Copy, PartialEq, Eq, Debug)]
pub enum Fault {
    /// Memory ran out. Nothing changed, except that what was pending may have been stored.
    NoMemory,
    /// The device failed while pending changes were stored. The medium has failed.
    Writing,
    /// The device failed while a block was read, and the medium has failed. Or the device failed while a parked medium
    /// was opened; that medium stays parked and has not failed.
    Reading,
    /// The side (the bytes of the medium's file) is full, and nothing changed. `residue` is how much was not written:
    /// the bytes of a block, or the number of filemarks. It is None for an erasure, which writes neither.
    SideFull { residue: Option<u32> },
    /// The device failed while reservations were saved, in this command or in an earlier one. The drive's old
    /// reservations stay in effect, and the keeper has failed.
    Saving,
    /// The store of the reservations has no room for those to be saved, and nothing changed.
    StoreFull,
}

impl From<NoMemory> for Fault {
    ghost use Rattle.std.specs.Prelude.{◌≡◌};
    ghost use Rattle.drive_commands.specs.declared.faults.Fault.TheVariants as Faults;

    ghost from_gives = { λ _ fault. fault ≡ Faults.NoMemory };

    fn from(_: NoMemory) -> Self {
        Fault::NoMemory
    }
}

impl From<KeeperError> for Fault {
    ghost use Rattle.std.specs.Prelude.{◌≡◌};
    ghost use Rattle.drive_commands.specs.ReserveOut.{fault_of_save};

    ghost from_gives = { λ error fault. fault ≡ fault_of_save error };

    fn from(error: KeeperError) -> Self {
        match error {
            KeeperError::NoMemory => Fault::NoMemory,
            KeeperError::SideFull => Fault::StoreFull,
            KeeperError::Device | KeeperError::Failed => Fault::Saving,
        }
    }
}

impl Fault {
    /// The reply to the command that met the fault (own). The call allocates no memory.
    pub fn reply(self, alloc: Global) -> Reply
        ensures { result ≡ fault_reply self }
    {
        Reply::check(self.sense(), Bytes::new(alloc))
    }

    fn sense(self) -> Sense
        ensures { result ≡ fault_sense self }
    {
        match self {
            Fault::NoMemory => Sense::insufficient_resources(),
            Fault::Writing => Sense::write_error(),
            Fault::Reading => Sense::read_error(),
            Fault::SideFull { residue } => Sense::volume_overflow(residue),
            Fault::Saving => Sense::keeper_failed(),
            Fault::StoreFull => Sense::store_full(),
        }
    }
}
