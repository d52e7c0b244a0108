//! Why a line of a script is refused, in words.
#![tactic(auto)]

mod drives;
mod fields;
pub mod reasons;
mod texts;
mod wrong_fields;

pub use drives::Drives;
pub use reasons::{Fault, LineReason};
