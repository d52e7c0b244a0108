//! The bytes of a record's head that were read.
ghost use Rattle.std.specs.Prelude.{◌≡◌, ◌≤◌, ◌-◌, ◌++◌, [], IfSome, length, min, take};
ghost use Rattle.vtl_base.specs.declared.layout.TheConstants.{SEALED_HEAD};
ghost use Rattle.sealed_records.specs.Sealed.{is_summed, item_with, sealed_item, sum_in};
ghost use Rattle.sealed_records.specs.Readers.{IsSealedHeadOf, refusal_at};

use crate::reader::SealedError;
use crate::spelling::sum_at;
use byteorder::{BigEndian, ByteOrder};
use change_records::{Record, item_of};
use std::marker::Model;
use vtl_base::layout::{HEAD_SUM, RECORD_HEAD, SEALED_HEAD};

// The first bytes of a record, at most eighteen. A contract sees them as a list.
#[derive(Drop)]
pub(crate) struct Head {
    bytes: [u8; SEALED_HEAD],
    filled: usize,
}

impl Model for Head {
    ghost use Rattle.std.specs.Prelude.{List, ℕ, ◌≤◌, take};
    ghost use Rattle.vtl_base.specs.declared.layout.TheConstants.{SEALED_HEAD};

    ghost Value = { List ℕ };

    ghost view = { λ h. take h.filled h.bytes };

    ghost invariant = { λ h. h.filled ≤ SEALED_HEAD };
}

impl Head {
    pub(crate) fn new() -> Self
        ensures { result ≡ [] }
    {
        Head {
            bytes: [0; SEALED_HEAD],
            filled: 0,
        }
    }

    // Takes the missing bytes of the head from a piece, and returns how many.
    pub(crate) fn fill(&mut self, piece: &[u8]) -> usize
        ensures taken { result ≡ min (SEALED_HEAD - length self.old) (length piece.now) }
        ensures bytes { self.new ≡ self.old ++ take result piece.now }
        ensures bound { length self.old ≤ SEALED_HEAD }
    {
        let mut count = SEALED_HEAD - self.filled;
        if piece.len() < count {
            count = piece.len();
        }
        let filled = self.filled;
        self.bytes[filled..filled + count].copy_from_slice(&piece[..count]);
        self.filled = filled + count;
        count
    }

    pub(crate) fn len(&self) -> usize
        ensures len { result ≡ length self.now }
        ensures bound { result ≤ SEALED_HEAD }
    {
        self.filled
    }

    // The record with this head at that place, if there is one, and if the head sums.
    pub(crate) fn item(&self, seed: u64, place: u64) -> Option<Record>
        ensures item { length self.now ≡ SEALED_HEAD → result ≡ sealed_item seed place self.now }
        ensures front { IfSome result (λ item. IsSealedHeadOf seed place item self.now) }
    {
        if self.filled < SEALED_HEAD {
            return None;
        }
        sealed_item(seed, place, &self.bytes)
    }

    // What a whole head gives as the sum of the block.
    pub(crate) fn sum(&self) -> u32
        ensures { length self.now ≡ SEALED_HEAD → result ≡ sum_in self.now }
    {
        if self.filled < SEALED_HEAD {
            return 0;
        }
        BigEndian::read_u32(&self.bytes[RECORD_HEAD..])
    }

    // Why no record begins at byte `at` of a body, which is at that place, if none begins there.
    pub(crate) fn refusal(&self, seed: u64, place: u64, at: usize) -> SealedError
        ensures { result ≡ refusal_at seed place self.now at }
    {
        if self.len() < SEALED_HEAD {
            return SealedError::BadRecord { at };
        }
        if is_summed(seed, place, &self.bytes) {
            SealedError::BadRecord { at }
        } else {
            SealedError::BadSum { at }
        }
    }
}

// The record with this head of eighteen bytes, if there is one, and if the head sums.
fn sealed_item(seed: u64, place: u64, head: &[u8]) -> Option<Record>
    requires { length head.now ≡ SEALED_HEAD }
    ensures item { result ≡ sealed_item seed place head.now }
    ensures front { IfSome result (λ item. IsSealedHeadOf seed place item head.now) }
{
    if !is_summed(seed, place, head) {
        return None;
    }
    let sum = BigEndian::read_u32(&head[RECORD_HEAD..]);
    item_with(sum, item_of(&head[..RECORD_HEAD]))
}

// Whether the sum of this head is that of its fields at that place.
fn is_summed(seed: u64, place: u64, head: &[u8]) -> bool
    requires { length head.now ≡ SEALED_HEAD }
    ensures { result ≡ is_summed seed place head.now }
{
    BigEndian::read_u32(&head[HEAD_SUM..]) == sum_at(seed, place, &head[..HEAD_SUM])
}

// The record, unless it has no block and the sum is not 0.
fn item_with(sum: u32, item: Option<Record>) -> Option<Record>
    ensures { result ≡ item_with sum item }
{
    match item {
        Some(Record::Put { part, at, length }) => Some(Record::Put { part, at, length }),
        Some(Record::Marks { part, at, count }) => {
            if sum == 0 {
                Some(Record::Marks { part, at, count })
            } else {
                None
            }
        }
        Some(Record::Erase { part, at }) => {
            if sum == 0 {
                Some(Record::Erase { part, at })
            } else {
                None
            }
        }
        None => None,
    }
}
