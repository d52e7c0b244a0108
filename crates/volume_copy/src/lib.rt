//! The copy of a volume: the changes that make it again, packed into frames.
#![tactic(auto)]

pub mod blocks;
pub mod cursor;
pub mod entries;
pub mod laws;
pub mod spelling;
pub mod totals;

pub use blocks::ReadsBlocks;
pub use cursor::{Ahead, Cursor};
pub use entries::Entry;
pub use spelling::spell_frame;
pub use totals::Totals;
