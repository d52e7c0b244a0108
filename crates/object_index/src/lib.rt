//! An index of where each object of a cartridge lies.
#![tactic(auto)]

mod halving;
pub mod index;
pub mod laws;
mod partitions;
pub mod places;
pub mod runs;
mod tables;

pub use index::Index;
pub use places::{Placed, Run};
pub use runs::{MarkRun, Runs};
