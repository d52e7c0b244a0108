//! The tests of library.
#![tactic(auto)]

#[cfg(test)]
mod acts;
#[cfg(test)]
mod asserted;
#[cfg(test)]
mod days;
#[cfg(test)]
mod replies;
#[cfg(test)]
mod rows;
#[cfg(test)]
mod samples;
#[cfg(test)]
mod scripts;
#[cfg(test)]
mod stages;
#[cfg(test)]
mod turns;
