//! The size of a copy.
ghost use Rattle.std.specs.Prelude.{◌≡◌, ◌≤◌, ◌<◌, ◌+◌, ◌*◌, length, sum_by};
ghost use Rattle.vtl_base.specs.declared.limits.TheConstants.{COPY_BODY, MAX_CAPACITY, MAX_OBJECTS, MAX_PARTITIONS};
ghost use Rattle.volume_copy.specs.Entries.{entries_in, entry_size};
ghost use Rattle.volume_copy.specs.Frames.{frames_by};
ghost use Rattle.volume_copy.specs.Inner.Packed.{packed_with};

use crate::cursor::Cursor;
use object_index::Index;
use volume_core::Catalog;
use vtl_base::limits::COPY_BODY;

/// The size of a copy.
#[derive(Clone, Copy, PartialEq, Eq, Debug)]
pub struct Totals {
    /// How many frames the copy has, at most 64,000,000.
    pub frames: u32,
    /// How many bytes the bodies of these frames have together.
    pub bytes: u64,
}

impl Totals {
    /// The size of the copy of the volume that `index` describes. No block is read.
    pub fn of(index: &Index) -> Self
        ensures frames { result.frames ≡ length (frames_by entry_size (entries_in index.now)) }
        ensures bytes { result.bytes ≡ sum_by entry_size (entries_in index.now) }
        ensures few { result.frames ≤ MAX_OBJECTS * MAX_PARTITIONS }
        ensures bound { result.bytes ≤ MAX_CAPACITY * MAX_PARTITIONS }
    {
        // Called for the proof: the index is within the limits of a volume.
        let _ = index.parts();
        let mut packed = Packed::none();
        let mut cursor = Cursor::start();
        while let Some(ahead) = cursor.next(index) {
            packed = packed.with(ahead.entry.item.size());
            cursor = ahead.behind;
        }
        Totals {
            frames: packed.frames,
            bytes: packed.bytes,
        }
    }
}

// The totals so far: how many frames, how many bytes, and how many of these in the last frame.
#[derive(Clone, Copy)]
pub(crate) struct Packed {
    pub(crate) frames: u32,
    pub(crate) bytes: u64,
    pub(crate) last: usize,
}

impl Packed {
    // The totals of no record. The next record begins a frame.
    fn none() -> Self
        ensures frames { result.frames ≡ 0 }
        ensures bytes { result.bytes ≡ 0 }
        ensures last { result.last ≡ COPY_BODY }
    {
        Packed {
            frames: 0,
            bytes: 0,
            last: COPY_BODY,
        }
    }

    // The totals with one more record of this size.
    fn with(self, size: usize) -> Self
        requires frames { self.frames ≤ MAX_OBJECTS * MAX_PARTITIONS }
        requires bytes { self.bytes ≤ MAX_CAPACITY * MAX_PARTITIONS }
        requires last { self.last ≤ COPY_BODY }
        requires size { size ≤ COPY_BODY }
        ensures { result ≡ packed_with self size }
    {
        let bytes = self.bytes + size as u64;
        if self.last + size <= COPY_BODY {
            Packed {
                frames: self.frames,
                bytes,
                last: self.last + size,
            }
        } else {
            Packed {
                frames: self.frames + 1,
                bytes,
                last: size,
            }
        }
    }
}
