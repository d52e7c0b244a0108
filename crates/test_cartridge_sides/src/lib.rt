//! The tests of cartridge_sides.
#![tactic(auto)]

#[cfg(test)]
mod asserted;
#[cfg(test)]
mod choice_tests;
#[cfg(test)]
mod opening_tests;
#[cfg(test)]
mod pass_tests;
#[cfg(test)]
mod reclaims;
#[cfg(test)]
mod rows;
