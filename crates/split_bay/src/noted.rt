//! A note of how a span began, for proofs alone. It takes no memory: the hosts' half does not keep the stored volume
//! that the note names.
ghost use Rattle.std.specs.Prelude.{◌≡◌, option_map};
ghost use Rattle.tape_buffer.specs.State.{state_of};
ghost use Rattle.split_bay.specs.Beginnings.{Beginning};

use noted_values::{NotedValue, note};
use std::marker::Model;
use tape_buffer::Disks;
use tape_disk::Disk;

/// The kind of note that says how a span began. No value of this type is made.
pub struct BeginningNote {}

impl Model for BeginningNote {
    ghost use Rattle.std.specs.Prelude.{None};
    ghost use Rattle.split_bay.specs.Beginnings.{Beginning, beginning_code};

    ghost Value = { Beginning };

    ghost coded = { beginning_code };

    ghost view = { λ _. record { seen = None; left = 0; bytes = 0; room = 0 } };
}

/// A note of how a span began: the medium that was in the drive, and how much may be sent in the span.
#[derive(Drop)]
pub struct NotedBeginning {
    pub begin: NotedValue<BeginningNote>,
}

impl NotedBeginning {
    /// Notes the medium in the drive, or that there is none, and how much may be sent: `left` changes, `bytes` bytes of
    /// blocks, and frames of `room` bytes in all.
    pub(crate) fn of<D: Disk>(
        medium: &Option<Disks<D>>,
        left: &usize,
        bytes: &u64,
        room: &u64,
    ) -> NotedBeginning
        ensures { result.begin ≡ record {
          seen = option_map (λ m. state_of D.state m.buffer) medium.now;
          left = left.now;
          bytes = bytes.now;
          room = room.now;
        } }
    {
        by_medium(medium, left, bytes, room)
    }
}

// A note of the beginning that the caller names in its ghost argument. The other arguments serve to name it.
fn by_medium<D: Disk>(
    _medium: &Option<Disks<D>>,
    _left: &usize,
    _bytes: &u64,
    _room: &u64,
) -> NotedBeginning
    ghost begin: { Beginning }
    ensures { result.begin ≡ begin }
{
    NotedBeginning { begin: note(&0u8) }
}
