//! The tests of tape_disk and of file_disk.
#![tactic(auto)]

#[cfg(test)]
mod asserted;
#[cfg(test)]
mod ends;
#[cfg(test)]
mod files;
#[cfg(test)]
mod memory;
#[cfg(test)]
mod openings;
#[cfg(test)]
mod staged;
#[cfg(test)]
mod steps;
