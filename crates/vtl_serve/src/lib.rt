//! Serves drives and hosts: requests are read as frames, and answers are written as frames.
#![tactic(auto)]

pub mod desks;
pub mod labels;
pub mod libraries;
pub mod one_bay;
pub mod one_host;

pub use desks::LibraryDesk;
pub use labels::{Label, Labels};
pub use libraries::{ServedLibrary, serve_library};
pub use one_bay::{OneBay, serve_bay};
pub use one_host::{OneHost, serve_host};
