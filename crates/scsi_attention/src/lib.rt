//! Unit attention conditions: what is reported to a host before its next command is carried out.
#![tactic(auto)]

pub mod attention_sets;
pub mod attentions;
pub mod laws;

pub use attention_sets::{Attention, AttnSet};
pub use attentions::Attentions;
