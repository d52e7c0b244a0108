//! How changes are spelled in bytes.
#![tactic(auto)]

mod head;
pub mod laws;
pub mod reader;
pub mod records;
pub mod spelling;

pub use head::item_of;
pub use reader::{Fed, Found, RecordReader};
pub use records::{Record, RecordError};
pub use spelling::{decode_changes, encode_change, spelled_parts};
