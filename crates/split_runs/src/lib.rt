//! Lists of calls of the two halves of a drive: how its cartridge moves, what a stop leaves of it, what hosts see.
#![tactic(auto)]

pub mod calls;
pub mod laws;
pub mod moves;
