//! The two errors that may come from any layer below: memory runs out, or a device fails.
use std::alloc::AllocError;
use thiserror::Error;

/// Memory ran out: an allocation was refused.
#[derive(Clone, Copy, PartialEq, Eq, Debug, Error)]
#[error("out of memory")]
pub struct NoMemory;

impl From<AllocError> for NoMemory {
    fn from(_: AllocError) -> Self {
        NoMemory
    }
}

/// A call of a device failed.
#[derive(Clone, Copy, PartialEq, Eq, Debug, Error)]
#[error("device fault {failures}")]
pub struct DevFault {
    /// How often the device has failed so far, including this failure. The number stops at 2^64 - 1.
    pub failures: u64,
}
