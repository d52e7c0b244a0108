//! How much may still be accepted without taking memory.

/// How much a buffered medium may still accept without allocating memory and without calling its device (own).
#[derive(Clone, Copy, PartialEq, Eq, Debug)]
pub struct Budget {
    /// How many changes may be accepted.
    pub records: usize,
    /// How many bytes the blocks of these changes may have in all.
    pub bytes: u64,
    /// How many bytes of the side these changes may take, where each is stored as a frame of its own.
    pub room: u64,
}
