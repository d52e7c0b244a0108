//! How changes are spelled on a side with sums: the head of each record has the sum of its block, and a sum of its own
//! that is bound to the seed of its frame and to the place of the record in the file.
#![tactic(auto)]

mod head;
pub mod laws;
pub mod reader;
pub mod spelling;

pub use reader::{Fed, Found, SealedError, SealedReader};
pub use spelling::{block_sum, frame_seed, is_sound, sealed_parts};
