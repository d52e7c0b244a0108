//! The parameter lists that a host sends with a command.
#![tactic(auto)]

pub mod actions;
pub mod laws;
pub mod mode_lists;
pub mod pr_lists;

pub use actions::{PrAction, PrType};
pub use mode_lists::{ModeList, mode_data, mode_data_without_descriptors};
pub use pr_lists::{PrList, PrOut};
