//! Why a call on a cartridge is refused or fails.
ghost use Rattle.std.specs.Prelude.{◌≡◌};
ghost use Rattle.cartridge.specs.declared.error.CartridgeError.TheVariants as Errors;

use crate::shelved::Shelved;
use gate_journal::OpenError;
use std::alloc::AllocError;
use tape_disk::Disk;
use thiserror::Error;
use vtl_base::{DevFault, NoMemory};

/// Why a call on a cartridge is refused or fails (own).
#[derive(Clone, Copy, PartialEq, Eq, Debug, Error)]
pub enum CartridgeError {
    /// The disks could not be opened: neither of them has a side that counts as that of a cartridge.
    #[error("not a cartridge")]
    NotOurs,
    /// The disks could not be opened: the side that counts is damaged. The first frame that is not whole, or that is
    /// missing, has its gate at byte `at` of that side.
    #[error("damaged at {at}")]
    Damaged {
        /// The place of the gate, in bytes from the start of the side.
        at: u64,
    },
    /// The disks could not be opened: the side that counts has a bad frame. The body of such a frame spells no changes,
    /// or a change that does not apply to the volume before it. The first bad frame has its gate at byte `at` of that
    /// side.
    #[error("bad record at {at}")]
    BadRecord {
        /// The place of the gate, in bytes from the start of the side.
        at: u64,
    },
    /// A store's frame would make the side that counts, or a reclaim would make the side of the copy, longer than
    /// 1,099,511,627,776 bytes. Nothing was written.
    #[error("side full")]
    SideFull,
    /// A disk failed in this call.
    #[error("device fault")]
    Device(DevFault),
    /// A disk failed in an earlier call. The cartridge has to be closed and opened again.
    #[error("failed before")]
    Failed,
    /// Memory ran out. Nothing was written, and no call of a disk failed.
    #[error("out of memory")]
    NoMemory,
}

impl From<AllocError> for CartridgeError {
    ghost from_gives = { λ _ e. e ≡ Errors.NoMemory };

    fn from(_: AllocError) -> Self {
        CartridgeError::NoMemory
    }
}

impl From<OpenError> for CartridgeError {
    ghost use Rattle.cartridge.specs.Inner.Causes.{cartridge_error};

    ghost from_gives = { λ cause e. e ≡ cartridge_error cause };

    fn from(cause: OpenError) -> Self {
        match cause {
            OpenError::NotOurs => CartridgeError::NotOurs,
            OpenError::Damaged { at } => CartridgeError::Damaged { at },
            OpenError::BadRecord { at } => CartridgeError::BadRecord { at },
            OpenError::Device(fault) => CartridgeError::Device(fault),
            OpenError::NoMemory => CartridgeError::NoMemory,
        }
    }
}

impl From<NoMemory> for CartridgeError {
    ghost from_gives = { λ _ e. e ≡ Errors.NoMemory };

    fn from(_: NoMemory) -> Self {
        CartridgeError::NoMemory
    }
}

/// A cartridge that could not be made, and why, with the two disks that were passed to the call.
#[derive(Drop, Debug)]
pub struct NotCreated<D> {
    /// Why it could not be made.
    pub error: CartridgeError,
    /// The first disk that was passed to the call.
    pub first: D,
    /// The second disk that was passed to the call.
    pub second: D,
}

/// A cartridge that could not be opened, and why.
#[derive(Drop)]
pub struct NotOpened<D: Disk> {
    /// Why it could not be opened.
    pub error: CartridgeError,
    /// The cartridge that was passed to the call, closed as it was.
    pub shelved: Shelved<D>,
}
