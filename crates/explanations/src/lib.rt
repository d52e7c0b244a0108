//! The lines of an explanation, each of at most 120 columns.
#![tactic(auto)]

pub mod explanation;

pub use explanation::Explanation;
