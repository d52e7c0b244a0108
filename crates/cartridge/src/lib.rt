//! A cartridge on two disks. On each lies a side, the bytes of one file, or something else; at most one side counts,
//! and gives the cartridge's volume. Changes are stored a frame at a time, each frame whole or not at all.
#![tactic(auto)]

mod bodies;
pub mod cartridges;
mod creating;
pub mod error;
mod fetching;
pub mod laws;
mod noted;
mod opening;
pub mod openings;
mod placing;
pub mod reclaiming;
mod recovering;
pub mod reserving;
pub mod shelved;
pub mod shown;
mod sides;
mod storing;
mod walking;

pub use cartridges::Cartridge;
pub use error::{CartridgeError, NotCreated, NotOpened};
pub use openings::Opening;
pub use reclaiming::{NotReclaimed, ReclaimError};
pub use shelved::Shelved;
