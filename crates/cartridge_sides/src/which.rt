//! The two sides of a pair.

/// One of the two sides of a cartridge.
#[derive(Clone, Copy, Debug, PartialEq, Eq)]
pub enum Which {
    /// The side on the first disk.
    First,
    /// The side on the second disk.
    Second,
}
