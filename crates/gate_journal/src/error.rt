//! Why a call on a side is refused.
ghost use Rattle.std.specs.Prelude.{◌≡◌};
ghost use Rattle.gate_journal.specs.declared.error.JournalError.TheVariants.{NoMemory, Device};
ghost use Rattle.gate_journal.specs.declared.error.OpenError.TheVariants as Openings;

use std::alloc::AllocError;
use thiserror::Error;
use vtl_base::{DevFault, NoMemory};

/// Why a call on a side was refused or failed (own).
#[derive(Clone, Copy, PartialEq, Eq, Debug, Error)]
pub enum JournalError {
    /// The disk's bytes do not begin with the header of a side. `open_as` also returns this error where they begin with
    /// the header of a side of the other kind.
    #[error("not a side")]
    NotOurs,
    /// The side is damaged. Either the first frame that is not whole has its gate at place `at`, or the side is a copy
    /// that has a closed gate at `at` after fewer frames than its base. Where the side ends before the gate of its
    /// first frame, `at` is the place of that missing gate.
    #[error("damaged at {at}")]
    Damaged {
        /// The place of the gate, in bytes from the start of the side.
        at: u64,
    },
    /// The frame would make the side longer than 1,099,511,627,776 bytes, its end gate included. Nothing was written.
    #[error("side full")]
    SideFull,
    /// The disk failed in this call. After `append` and `append_frame` the disk then holds the side with the frame or
    /// without it. After an opening the disk holds what a crash might have left before the call. After `read_body` it
    /// holds what it held before, and after `create` it may hold anything.
    #[error("device fault")]
    Device(DevFault),
    /// The disk failed in an earlier call on this side, and nothing was done. The side must be opened again.
    #[error("failed before")]
    Failed,
    /// Memory ran out. Nothing was written, and no call of the disk failed.
    #[error("out of memory")]
    NoMemory,
}

impl From<AllocError> for JournalError {
    ghost from_gives = { λ _ e. e ≡ NoMemory };

    fn from(_: AllocError) -> Self {
        JournalError::NoMemory
    }
}

impl From<DevFault> for JournalError {
    ghost from_gives = { λ fault e. e ≡ Device fault };

    fn from(fault: DevFault) -> Self {
        JournalError::Device(fault)
    }
}

/// The error of a side that could not be made or opened, with the disk that it was to be on.
#[derive(Drop, Debug)]
pub struct Refused<D> {
    /// Why it could not be made or opened.
    pub error: JournalError,
    /// The disk that was passed to the call.
    pub disk: D,
}

/// Why `open_decoded` did not open a side, or did not decode its bodies (own). Nothing was written.
#[derive(Clone, Copy, PartialEq, Eq, Debug, Error)]
pub enum OpenError {
    /// The disk's bytes do not begin with the header of a side of the decoder's kind.
    #[error("not a side of the kind")]
    NotOurs,
    /// The side is damaged. Either the first frame that is not whole has its gate at place `at`, or the side is a copy
    /// that has a closed gate at `at` after fewer frames than its base. Where the side ends before the gate of its
    /// first frame, `at` is the place of that missing gate.
    #[error("damaged at {at}")]
    Damaged {
        /// The place of the gate, in bytes from the start of the side.
        at: u64,
    },
    /// The decoder refuses a body. The first frame with such a body has its gate at place `at`.
    #[error("bad record at {at}")]
    BadRecord {
        /// The place of the gate, in bytes from the start of the side.
        at: u64,
    },
    /// The disk failed in this call.
    #[error("device fault")]
    Device(DevFault),
    /// Memory ran out. No call of the disk failed.
    #[error("out of memory")]
    NoMemory,
}

impl From<AllocError> for OpenError {
    ghost from_gives = { λ _ e. e ≡ Openings.NoMemory };

    fn from(_: AllocError) -> Self {
        OpenError::NoMemory
    }
}

impl From<NoMemory> for OpenError {
    ghost from_gives = { λ _ e. e ≡ Openings.NoMemory };

    fn from(_: NoMemory) -> Self {
        OpenError::NoMemory
    }
}

/// The error of a side that could not be opened and decoded, with its disk.
#[derive(Drop, Debug)]
pub struct NotDecoded<D> {
    /// Why it could not be opened and decoded.
    pub error: OpenError,
    /// The disk that was passed to the call.
    pub disk: D,
}
