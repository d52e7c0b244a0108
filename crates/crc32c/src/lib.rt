//! CRC-32C, a sum of 32 bits over bytes that come in pieces, wherever they are cut.
#![tactic(auto)]

mod eight;
mod far;
mod far_tables;
pub mod laws;
mod pairs;
mod sum;
mod tables;

pub use sum::{Sum, sum_of};
