//! What an answer means, in one line of plain English.
#![tactic(auto)]

pub mod answer_lines;
pub mod conditions;
pub mod laws;
pub mod sense_texts;

pub use answer_lines::AnswerLine;
pub use conditions::Condition;
pub use sense_texts::{Counted, SenseText};
