//! Copying the volume of a cartridge from the side that counts to the other one, which counts from then on.
#![tactic(auto)]

mod blocks;
pub mod reclaiming;
mod source;

pub use reclaiming::{Ended, reclaim_volume};
