//! The tests of vtl_files, vtl_notes, vtl_power_on and vtl_program.
#![tactic(auto)]

#[cfg(test)]
mod asserted;
#[cfg(test)]
mod sides;
#[cfg(test)]
mod tests;
