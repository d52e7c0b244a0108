//! A medium and a keeper for tests, which fail in the calls that were chosen.
#![tactic(auto)]

mod fuses;
pub mod keepers;
pub mod media;

pub use keepers::{SaveFault, SavePlan, StagedKeeper};
pub use media::{FaultPlan, StagedMedium};
