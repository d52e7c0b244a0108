//! The tests of vtl_wire, over frames that were worked by hand.
#![tactic(auto)]

#[cfg(test)]
mod asserted;
#[cfg(test)]
mod frames;
#[cfg(test)]
mod pipes;
#[cfg(test)]
mod readings;
#[cfg(test)]
mod refusals;
#[cfg(test)]
mod served;
#[cfg(test)]
mod writings;
