//! Bytes that only proofs see, and that take no memory: those of a body that is read in pieces.
ghost use Rattle.std.specs.Prelude.{◌≡◌, ◌++◌, ℕ, List, [], drop, slice_index_or};
ghost use Rattle.gate_journal.specs.Inner.Padding.{padded_to};

use crate::journal::Journal;
use noted_values::{NotedValue, note, note_both};
use std::marker::Model;
use tape_disk::Disk;

/// The kind of noted value that `NotedBytes` has: a list of bytes. No value of this type itself is made.
pub struct BytesNote {}

impl Model for BytesNote {
    ghost use Rattle.std.specs.Prelude.{List, ℕ, []};
    ghost use Rattle.std.specs.Coded.{coded_list, coded_ℕ};

    ghost Value = { List ℕ };

    ghost coded = { coded_list coded_ℕ };

    ghost view = { λ _. [] };
}

/// The bytes of a body that have come so far, noted for proofs.
#[derive(Drop)]
pub struct NotedBytes {
    pub bytes: NotedValue<BytesNote>,
}

impl NotedBytes {
    pub(crate) fn none() -> NotedBytes
        ensures { result.bytes ≡ [] }
    {
        NotedBytes { bytes: note(&0u8) }
    }

    // The noted bytes, followed by these.
    pub(crate) fn with(&self, bytes: &[u8]) -> NotedBytes
        ensures { result.bytes ≡ self.now.bytes ++ bytes.now }
    {
        NotedBytes {
            bytes: note(&(self, bytes)),
        }
    }

    // The noted bytes, followed by `count` bytes of the body of frame `frame` from its byte `from` on, which are not
    // read. Where the body has fewer there, bytes of 00h follow.
    pub(crate) fn with_unread<D: Disk>(
        &self,
        journal: &Journal<D>,
        frame: usize,
        from: usize,
        count: usize,
    ) -> NotedBytes
        ensures { result.bytes ≡ self.now.bytes
            ++ padded_to count (drop from (slice_index_or journal.now.bodies frame [])) }
    {
        NotedBytes {
            bytes: note_both(journal, &(self, frame, from, count)),
        }
    }
}
