//! The tests of vtl_script, over a runner of their own.
#![tactic(auto)]

#[cfg(test)]
mod asserted;
#[cfg(test)]
mod borders;
#[cfg(test)]
mod counting;
#[cfg(test)]
mod echoes;
#[cfg(test)]
mod failing;
#[cfg(test)]
mod outcomes;
#[cfg(test)]
mod waiting;
#[cfg(test)]
mod wires;
