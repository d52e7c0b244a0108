//! The tests of bays.
#![tactic(auto)]

#[cfg(test)]
mod asserted;
#[cfg(test)]
mod holding;
#[cfg(test)]
mod samples;
#[cfg(test)]
mod works;
