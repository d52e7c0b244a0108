//! Replies to a host: sense data, each by its name, statuses and replies.
#![tactic(auto)]

pub mod replies;
pub mod sense_data;
pub mod senses;

pub use replies::{Reply, Status};
pub use sense_data::{Sense, SenseKey};
