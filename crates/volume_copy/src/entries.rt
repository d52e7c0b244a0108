//! An entry of a copy.

use change_records::Record;

/// A record of a copy, and the place on the disk where its block lies. The place is 0 for a record without a block.
#[derive(Clone, Copy, PartialEq, Eq, Debug)]
pub struct Entry {
    pub item: Record,
    pub place: u64,
}
