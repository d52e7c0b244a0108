//! A disk that may stop at any moment: what reads return, and what a crash may leave.
#![tactic(auto)]

mod count;
pub mod disk;
mod failing;
mod failures;
pub mod fuse;
mod log;
pub mod memory;
pub mod once;
mod overwrite;
pub mod sparse;

pub use disk::Disk;
pub use failures::Failures;
pub use fuse::FuseDisk;
pub use memory::MemDisk;
pub use once::OnceDisk;
pub use sparse::SparseDisk;
