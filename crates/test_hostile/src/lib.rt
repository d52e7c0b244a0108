//! The tests of disks and sides that are longer than memory.
#![tactic(auto)]

#[cfg(test)]
mod asserted;
#[cfg(test)]
mod full_sides;
#[cfg(test)]
mod sparse;
