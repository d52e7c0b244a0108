//! The tests of answer_meanings: each answer, and the line that was written for it by hand.
#![tactic(auto)]

#[cfg(test)]
mod answers;
#[cfg(test)]
mod asserted;
