//! The tests of aptpl_store, alone and below a drive.
#![tactic(auto)]

#[cfg(test)]
mod asking;
#[cfg(test)]
mod asserted;
#[cfg(test)]
mod fault_tests;
#[cfg(test)]
mod order_tests;
#[cfg(test)]
mod stop_tests;
