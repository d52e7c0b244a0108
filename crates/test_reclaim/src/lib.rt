//! The tests of reclaims: of a cartridge whose volume is copied to the other side.
#![tactic(auto)]

#[cfg(test)]
mod asserted;
#[cfg(test)]
mod fault_tests;
#[cfg(test)]
mod row_tests;
#[cfg(test)]
mod rows;
#[cfg(test)]
mod samples;
#[cfg(test)]
mod stop_tables;
#[cfg(test)]
mod stop_tests;
#[cfg(test)]
mod tied;
