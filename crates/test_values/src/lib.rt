//! The tests of the crates of plain values: ledgers, scsi_attention, scsi_sense, scsi_opcodes, scsi_lists, pr_core and
//! positioning.
#![tactic(auto)]

#[cfg(test)]
mod asserted;
#[cfg(test)]
mod attentions;
#[cfg(test)]
mod entries;
#[cfg(test)]
mod lists;
#[cfg(test)]
mod positions;
#[cfg(test)]
mod reservations;
#[cfg(test)]
mod senses;
#[cfg(test)]
mod wire;
