//! A drive over a cartridge on two disks, and commands to a drive, for tests and programs that are timed.
#![tactic(auto)]

pub mod commands;
pub mod drives;
