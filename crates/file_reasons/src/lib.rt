//! Why a call for a file or a stream failed, and what is wrong with a file, in words.
#![tactic(auto)]

pub mod answers;
pub mod damages;
mod fixes;
pub mod memory;
pub mod pairs;
pub mod reasons;
mod sizes;
pub mod stores;

pub use answers::Answer;
pub use damages::{DamageReason, Found};
pub use memory::MemoryReason;
pub use pairs::{PairFault, PairReason};
pub use reasons::{FileCall, FileReason, Source};
pub use stores::StoreReason;
