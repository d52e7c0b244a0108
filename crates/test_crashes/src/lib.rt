//! A run over a disk that is stopped at each of its calls, for the crates of tests.
#![tactic(auto)]

pub mod stops;

pub use stops::{Run, Stop, stop_at_each_call};
