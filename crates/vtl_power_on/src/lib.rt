//! Switches on a library, over files or in memory, with each cartridge at its home, and runs a script or serves frames
//! over it.
#![tactic(auto)]

pub mod labels;
pub mod library_orders;
pub mod pace;
pub mod sides;
pub mod starting;
pub mod using;
pub mod works;
