//! Why a call on the slots is refused.
use thiserror::Error;

/// Why a call on the slots is refused (SMC-3, MOVE MEDIUM). The first cause that holds is reported, and nothing
/// changes.
#[derive(Clone, Copy, PartialEq, Eq, Debug, Error)]
pub enum SlotError {
    /// No slot has this element address.
    #[error("no such slot")]
    BadAddress,
    /// The slot is full, so no value can be placed in it.
    #[error("slot full")]
    Full,
    /// The slot is empty, so no value can be taken out of it.
    #[error("slot empty")]
    Empty,
}

/// A value that could not be placed in a slot, and why.
#[derive(Drop, Debug)]
pub struct NotPlaced<C> {
    /// Why the value was not placed.
    pub error: SlotError,
    /// The value that was passed to the call.
    pub value: C,
}
