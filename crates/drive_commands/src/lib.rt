//! The drive: what it answers to each command, over any medium.
#![tactic(auto)]

mod appends;
pub mod bays;
pub mod conditions;
mod dispatch;
pub mod drives;
mod erases;
pub mod faults;
mod giving;
mod loads;
mod locates;
mod marks;
mod opening;
mod reads;
mod rewinds;
mod spaces;
mod storing;
mod writes;

pub use bays::Bay;
pub use conditions::{Condition, Denial};
pub use drives::Drive;
pub use faults::Fault;
