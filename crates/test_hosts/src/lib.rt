//! The tests of vtl_hosts.
#![tactic(auto)]

#[cfg(test)]
mod asserted;
#[cfg(test)]
mod doubles;
#[cfg(test)]
mod pipes;
