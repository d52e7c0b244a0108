//! A stop and a fault at each call of a drive's disks.
#![tactic(auto)]

#[cfg(test)]
mod asserted;
#[cfg(test)]
mod crashes;
#[cfg(test)]
mod drives;
#[cfg(test)]
mod fault_tables;
#[cfg(test)]
mod fault_tests;
#[cfg(test)]
mod full_tests;
#[cfg(test)]
mod long_disks;
#[cfg(test)]
mod samples;
#[cfg(test)]
mod stop_tables;
#[cfg(test)]
mod stop_tests;
