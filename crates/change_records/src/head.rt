//! The bytes of a record's head that were read.
ghost use Rattle.std.specs.Prelude.{◌≡◌, ◌≤◌, ◌-◌, ◌++◌, [], ℕ, List, IfNone, IfSome, length, min, take};
ghost use Rattle.change_records.specs.Records.{BeginsWithRecord};
ghost use Rattle.change_records.specs.Readers.{IsHeadOf, head_item};
ghost use Rattle.vtl_base.specs.declared.layout.TheConstants.{RECORD_HEAD};

use crate::records::{Record, head_decoded};
use std::marker::Model;
use vtl_base::layout::RECORD_HEAD;
use vtl_base::limits::MAX_BLOCK;

// The first bytes of a record, at most ten. A contract sees them as a list.
#[derive(Drop)]
pub(crate) struct Head {
    bytes: [u8; RECORD_HEAD],
    filled: usize,
}

impl Model for Head {
    ghost use Rattle.std.specs.Prelude.{List, ℕ, ◌≤◌, take};
    ghost use Rattle.vtl_base.specs.declared.layout.TheConstants.{RECORD_HEAD};

    ghost Value = { List ℕ };

    ghost view = { λ h. take h.filled h.bytes };

    ghost invariant = { λ h. h.filled ≤ RECORD_HEAD };
}

impl Head {
    pub(crate) fn new() -> Self
        ensures { result ≡ [] }
    {
        Head {
            bytes: [0; RECORD_HEAD],
            filled: 0,
        }
    }

    // Takes the missing bytes of the head from a piece, and returns how many.
    pub(crate) fn fill(&mut self, piece: &[u8]) -> usize
        ensures taken { result ≡ min (RECORD_HEAD - length self.old) (length piece.now) }
        ensures bytes { self.new ≡ self.old ++ take result piece.now }
        ensures bound { length self.old ≤ RECORD_HEAD }
    {
        let mut count = RECORD_HEAD - self.filled;
        if piece.len() < count {
            count = piece.len();
        }
        let filled = self.filled;
        self.bytes[filled..filled + count].copy_from_slice(&piece[..count]);
        self.filled = filled + count;
        count
    }

    pub(crate) fn len(&self) -> usize
        ensures len { result ≡ length self.now }
        ensures bound { result ≤ RECORD_HEAD }
    {
        self.filled
    }

    // The record with this head, if there is one.
    pub(crate) fn item(&self) -> Option<Record>
        ensures item { length self.now ≡ RECORD_HEAD → result ≡ head_item self.now }
        ensures front { IfSome result (λ item. IsHeadOf item self.now) }
    {
        if self.filled < RECORD_HEAD {
            return None;
        }
        item_of(&self.bytes)
    }
}

/// The record with this head of ten bytes, if there is one, however many bytes follow.
pub fn item_of(head: &[u8]) -> Option<Record>
    requires { length head.now ≡ RECORD_HEAD }
    ensures item { result ≡ head_item head.now }
    ensures front { IfSome result (λ item. IsHeadOf item head.now) }
    ensures none { IfNone result ((tail : List ℕ) → BeginsWithRecord (head.now ++ tail) → ⊥) }
{
    head_decoded(head, MAX_BLOCK as usize)
}
