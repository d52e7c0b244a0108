//! The lines that `vtl check` prints of two files.
#![tactic(auto)]

pub mod checking;
pub mod laws;
pub mod reading;
