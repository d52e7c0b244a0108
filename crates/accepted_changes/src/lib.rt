//! What was accepted, how much of it is safe, and what a crash leaves, as laws of every type that accepts items:
//! changes of a cartridge, for example, or saved reservations.
#![tactic(auto)]

pub mod accepting;
pub mod laws;

pub use accepting::Accepting;
