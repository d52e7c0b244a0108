//! The saved reservations of a drive, on a disk. Each state that is saved is one frame, which is there whole or not at
//! all.
#![tactic(auto)]

mod creating;
mod decoding;
pub mod error;
pub mod laws;
mod noted;
mod opening;
mod recovering;
mod saving;
mod spelling;
mod state_body;
pub mod stores;

pub use error::{StoreError, StoreRefused};
pub use stores::AptplStore;
