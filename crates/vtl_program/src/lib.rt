//! What the program does for the words of its command line, over its files and streams, and how it ends.
#![tactic(auto)]

mod at_once;
pub mod explaining;
pub mod looking;
mod nul_names;
pub mod orders;
pub mod system_files;
