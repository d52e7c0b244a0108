//! Why a text is not a configuration, in words.
#![tactic(auto)]

mod doubles;
mod entries;
mod lines;
mod other_keys;
mod reading;
pub mod reasons;
pub mod seen;
pub mod spots;
mod texts;

pub use reading::reason_of;
pub use reasons::{ConfigReason, Entry, Found};
pub use seen::{Outside, Seen};
pub use spots::Spot;
