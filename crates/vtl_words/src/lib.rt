//! The words of the program's command line: what they ask for, and why they are refused.
#![tactic(auto)]

mod commands;
mod explaining;
mod orders;
mod reading;
mod refusals;
pub mod unread;

pub use commands::VERSION;
pub use explaining::asks_to_explain;
pub use orders::{Order, WordsError};
pub use reading::read_words;
pub use refusals::WordsReason;
pub use unread::UnreadWord;
