//! A cartridge, with the volume that it holds beside it in memory, for programs and tests that store changes.
#![tactic(auto)]

mod beside;

pub use beside::Known;
