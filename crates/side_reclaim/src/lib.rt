//! The passes of a reclaim, one after another. A reclaim copies the side of a cartridge that counts to its other side,
//! which counts from then on.
#![tactic(auto)]

pub mod readying;
pub mod taking;

pub use readying::make_ready;
pub use taking::copy_over;
