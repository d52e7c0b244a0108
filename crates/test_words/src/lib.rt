//! The tests of vtl_config and vtl_words.
#![tactic(auto)]

#[cfg(test)]
mod asserted;
#[cfg(test)]
mod orders;
#[cfg(test)]
mod unread;
#[cfg(test)]
mod words;
