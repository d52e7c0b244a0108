//! The tests of volume_core, crc32c, change_records, sealed_records and object_index.
#![tactic(auto)]

#[cfg(test)]
mod asserted;
#[cfg(test)]
mod cuttings;
#[cfg(test)]
mod lists;
#[cfg(test)]
mod media;
#[cfg(test)]
mod records;
#[cfg(test)]
mod sealed;
#[cfg(test)]
mod searches;
#[cfg(test)]
mod staged;
#[cfg(test)]
mod sums;
#[cfg(test)]
mod volumes;
