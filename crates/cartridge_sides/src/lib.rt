//! The two sides of a cartridge, each the bytes of one file, of which one counts; and the passes of a reclaim, which
//! copies that side to the other.
#![tactic(auto)]

pub mod choosing;
pub mod copying;
mod fronts;
mod gates;
pub mod laws;
pub mod passes;
mod spelling;
mod starting;
pub mod which;

pub use choosing::{Counted, choose};
pub use copying::{GivesBodies, write_copy};
pub use passes::{close_spare, open_copy, open_pair, prepare_pair};
pub use which::Which;
