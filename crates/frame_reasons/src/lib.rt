//! Why a frame is refused, in words.
#![tactic(auto)]

pub mod notes;
pub mod reasons;
mod texts;

pub use notes::FrameNotes;
pub use reasons::{FrameField, FrameReason};
