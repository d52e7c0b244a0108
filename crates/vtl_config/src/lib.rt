//! The configuration of a library: its cartridges and drives, read from a TOML table.
#![tactic(auto)]

mod capacities;
mod cartridge_entries;
mod double_files;
mod doubles;
mod drive_entries;
pub mod entries;
pub mod file_names;
pub mod keys;
pub mod laws;
mod reading;
pub mod rules;
mod values;

pub use capacities::Capacities;
pub use entries::{Address, CartridgeEntry, Config, DriveEntry};
pub use file_names::{FileName, UsedName, second_file};
pub use keys::Key;
pub use reading::read_config;
pub use rules::{ConfigError, Place, Rule};
