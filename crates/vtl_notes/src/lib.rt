//! Notes what the calls for files and streams were answered, for an explanation, and reports the writes of a reclaim.
#![tactic(auto)]

pub mod at_once;
mod images;
pub mod noted_disk;
pub mod noted_streams;
pub mod notes;
pub mod noting;
pub mod open_files;
pub mod pairs;
pub mod progress;
pub mod watched;
