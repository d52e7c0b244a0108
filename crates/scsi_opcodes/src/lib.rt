//! Command descriptor blocks and operation codes: what a host sends to a drive.
#![tactic(auto)]

pub mod answers;
pub mod commands;
mod fields;
pub mod laws;
pub mod opcodes;

pub use answers::{block_limits, cut_to, inquiry_data};
pub use commands::{Cdb, Command, PrRead};
pub use opcodes::{Opcode, length_of};
