//! The tests of vtl_serve.
#![tactic(auto)]

#[cfg(test)]
mod asserted;
#[cfg(test)]
mod frames;
#[cfg(test)]
mod hosts;
#[cfg(test)]
mod shared;
