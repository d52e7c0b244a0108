//! The faults of the program, their exit status, and the line that reports each.
#![tactic(auto)]

pub mod endings;
pub mod faults;
pub mod lines;
