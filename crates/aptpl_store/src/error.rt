//! Why a store is not made or opened.
ghost use Rattle.std.specs.Prelude.{◌≡◌};
ghost use Rattle.aptpl_store.specs.declared.error.StoreError.TheVariants as Errors;

use gate_journal::OpenError;
use std::alloc::AllocError;
use thiserror::Error;
use vtl_base::{DevFault, NoMemory};

/// Why a store is not made or opened (own).
#[derive(Clone, Copy, PartialEq, Eq, Debug, Error)]
pub enum StoreError {
    /// The store could not be opened: the bytes on the disk do not begin with the header of a store.
    #[error("not a store")]
    NotOurs,
    /// The store could not be opened: its side, the bytes of one file, is damaged. The first frame that is not whole
    /// has its gate at byte `at`.
    #[error("damaged at {at}")]
    Damaged {
        /// The place of the gate, in bytes from the start of the side.
        at: u64,
    },
    /// The store could not be opened: the body of some frame spells no state. The first such frame has its gate at byte
    /// `at`.
    #[error("bad record at {at}")]
    BadRecord {
        /// The place of the gate, in bytes from the start of the side.
        at: u64,
    },
    /// The disk failed in this call.
    #[error("device fault")]
    Device(DevFault),
    /// Memory ran out. No call of the disk failed.
    #[error("out of memory")]
    NoMemory,
}

impl From<AllocError> for StoreError {
    ghost from_gives = { λ _ e. e ≡ Errors.NoMemory };

    fn from(_: AllocError) -> Self {
        StoreError::NoMemory
    }
}

impl From<OpenError> for StoreError {
    ghost use Rattle.aptpl_store.specs.Inner.Causes.{store_error};

    ghost from_gives = { λ cause e. e ≡ store_error cause };

    fn from(cause: OpenError) -> Self {
        match cause {
            OpenError::NotOurs => StoreError::NotOurs,
            OpenError::Damaged { at } => StoreError::Damaged { at },
            OpenError::BadRecord { at } => StoreError::BadRecord { at },
            OpenError::Device(fault) => StoreError::Device(fault),
            OpenError::NoMemory => StoreError::NoMemory,
        }
    }
}

impl From<NoMemory> for StoreError {
    ghost from_gives = { λ _ e. e ≡ Errors.NoMemory };

    fn from(_: NoMemory) -> Self {
        StoreError::NoMemory
    }
}

/// A store that could not be made or opened, and why, with its disk.
#[derive(Drop, Debug)]
pub struct StoreRefused<D> {
    /// Why it could not be made or opened.
    pub error: StoreError,
    /// The disk that was passed to the call.
    pub disk: D,
}
