//! The tests of gate_journal and of cartridge.
#![tactic(auto)]

#[cfg(test)]
mod asserted;
#[cfg(test)]
mod behind_tests;
#[cfg(test)]
mod fault_tests;
#[cfg(test)]
mod journals;
#[cfg(test)]
mod pair_tests;
#[cfg(test)]
mod piece_tests;
#[cfg(test)]
mod samples;
#[cfg(test)]
mod side_tests;
#[cfg(test)]
mod stop_cases;
#[cfg(test)]
mod stop_tests;
#[cfg(test)]
mod works;
