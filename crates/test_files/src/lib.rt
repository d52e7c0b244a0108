//! Open files for tests, in memory: what a system may do in a call, and what it may forget.
#![tactic(auto)]

pub mod forgetful;
pub mod staged;

pub use forgetful::ForgetfulFile;
pub use staged::{StagedFile, Turn};
