//! The slots of a library: each has an element address, and holds one value or nothing.
#![tactic(auto)]

pub mod error;
pub mod slots;

pub use error::{NotPlaced, SlotError};
pub use slots::Slots;
