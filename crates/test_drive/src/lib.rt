//! The tests of drive_commands.
#![tactic(auto)]

#[cfg(test)]
mod asked;
#[cfg(test)]
mod asking;
#[cfg(test)]
mod asserted;
#[cfg(test)]
mod driving;
#[cfg(test)]
mod lending;
#[cfg(test)]
mod loading;
#[cfg(test)]
mod saving;
