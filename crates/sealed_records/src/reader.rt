//! Reads the records with sums of a body that comes in pieces, wherever it is cut.
ghost use Rattle.std.specs.Prelude.{◌≡◌, ◌≤◌, ◌<◌, ◌+◌, ◌^◌, ◌++◌, [], ℕ, List, IfNone, length, take};
ghost use Rattle.change_records.specs.Records.{record_length};
ghost use Rattle.sealed_records.specs.Sealed.{Laid};
ghost use Rattle.sealed_records.specs.Readers.{EndsSealed, FeedsSealed, IsAfterSealed, PassesSealed, taken_by};

use crate::head::Head;
use change_records::Record;
use std::marker::Model;
use thiserror::Error;
use vtl_base::layout::SEALED_HEAD;

/// A reader for the records of a frame's body that comes in pieces. It compares each head with its sum. The bytes of
/// blocks need not come: whoever reads a block compares it with the sum that was found.
#[derive(Drop)]
pub struct SealedReader {
    seed: u64,
    // The place of the body in the file.
    place: u64,
    // The first bytes of the present record's head, as far as they have come.
    head: Head,
    // The present record, and how many bytes of its block are still to come.
    item: Record,
    left: u32,
    // Where in the body the present record begins.
    begin: usize,
    // How many bytes of the body have come.
    at: usize,
}

impl Model for SealedReader {
    ghost use Rattle.std.specs.Prelude.{◌≤◌, ◌<◌, ◌+◌, ◌^◌};
    ghost use Rattle.sealed_records.specs.Readers.{SealedState};

    ghost Value = { SealedState };

    ghost view = { λ r. record {
      seed = r.seed;
      place = r.place;
      head = r.head;
      item = r.item;
      left = r.left;
      begin = r.begin;
      at = r.at;
    } };

    ghost invariant = { λ r. (r.begin ≤ r.at) × (r.place + r.at < 2 ^ 64) };
}

/// A whole record `item`, what its head gives as the sum of its block, and the byte `at` of the body where it begins.
#[derive(Clone, Copy, PartialEq, Eq, Debug)]
pub struct Found {
    pub item: Record,
    pub sum: u32,
    pub at: usize,
}

/// Why no record begins at byte `at` of a body.
#[derive(Clone, Copy, PartialEq, Eq, Debug, Error)]
pub enum SealedError {
    /// The head or the block is not whole, or the head sums and is of no record.
    #[error("bad record at {at}")]
    BadRecord { at: usize },
    /// The sum of the head is not that of its bytes at this place, in a frame with this seed.
    #[error("bad sum at {at}")]
    BadSum { at: usize },
}

/// The result of feeding one piece of a body to a reader.
#[derive(Clone, Copy, PartialEq, Eq, Debug)]
pub enum Fed {
    /// A record is now whole. It begins at byte `at` of the body. The first `taken` bytes of the piece were taken; the
    /// others are to be fed next.
    Found {
        item: Record,
        sum: u32,
        at: usize,
        taken: usize,
    },
    /// The first `taken` bytes of the piece were taken, and no record ends in them. The others are to be fed next, or
    /// passed over.
    More {
        taken: usize,
    },
    /// All of the piece was taken. No record begins where the error says, whatever bytes follow.
    Bad {
        error: SealedError,
    },
}

impl SealedReader {
    /// Makes a reader for a body at this place of the file, in a frame with this seed. No byte of it has come.
    pub fn new(seed: u64, place: u64) -> Self
        ensures after { IsAfterSealed [] [] result }
        ensures at { result.at ≡ 0 }
        ensures stands { (result.seed ≡ seed) × (result.place ≡ place) }
    {
        SealedReader {
            seed,
            place,
            head: Head::new(),
            item: Record::Erase { part: 0, at: 0 },
            left: 0,
            begin: 0,
            at: 0,
        }
    }

    /// How many of the next bytes of the body belong to a block, so that they need not be fed: `pass` passes over them.
    /// 0 where the next byte belongs to a head.
    pub fn unseen(&self) -> usize
        ensures { result ≡ self.now.left }
    {
        self.left as usize
    }

    /// Takes `piece`, the next piece of the body, but only up to the end of the head or the block that is under way.
    pub fn feed(&mut self, piece: &[u8]) -> Fed
        requires fits { self.old.place + self.old.at + length piece.now < 2 ^ 64 }
        ensures feeds { (before : List ℕ) (laids : List Laid) → IsAfterSealed before laids self.old →
            FeedsSealed result before piece.now laids self.new }
        ensures at { self.new.at ≡ self.old.at + taken_by result (length piece.now) }
        ensures within { taken_by result (length piece.now) ≤ length piece.now }
        ensures stays { (self.new.seed ≡ self.old.seed) × (self.new.place ≡ self.old.place) }
    {
        if self.left > 0 {
            self.feed_block(piece)
        } else {
            self.feed_head(piece)
        }
    }

    // Takes bytes of a block.
    fn feed_block(&mut self, piece: &[u8]) -> Fed
        requires some { 1 ≤ self.old.left }
        requires fits { self.old.place + self.old.at + length piece.now < 2 ^ 64 }
        ensures feeds { (before : List ℕ) (laids : List Laid) → IsAfterSealed before laids self.old →
            FeedsSealed result before piece.now laids self.new }
        ensures at { self.new.at ≡ self.old.at + taken_by result (length piece.now) }
        ensures within { taken_by result (length piece.now) ≤ length piece.now }
        ensures stays { (self.new.seed ≡ self.old.seed) × (self.new.place ≡ self.old.place) }
    {
        let taken = piece.len().min(self.left as usize);
        match self.pass(taken) {
            Some(Found { item, sum, at }) => Fed::Found {
                item,
                sum,
                at,
                taken,
            },
            None => Fed::More { taken },
        }
    }

    /// Passes over the next `count` bytes of the body, which need not be fed. `count` must be at most what `unseen`
    /// returns, which must not be 0. The effect is as if these bytes had been fed, whatever they are. Returns the
    /// record that they complete, or None where more bytes of its block are to come.
    pub fn pass(&mut self, count: usize) -> Option<Found>
        requires some { 1 ≤ self.old.left }
        requires unseen { count ≤ self.old.left }
        requires fits { self.old.place + self.old.at + count < 2 ^ 64 }
        ensures passes { (before bytes : List ℕ) (laids : List Laid) → length bytes ≡ count →
            IsAfterSealed before laids self.old → PassesSealed result (before ++ bytes) laids self.new }
        ensures at { self.new.at ≡ self.old.at + count }
        ensures stays { (self.new.seed ≡ self.old.seed) × (self.new.place ≡ self.old.place) }
        ensures none { IfNone result (count < self.old.left) }
    {
        self.at += count;
        self.left -= count as u32;
        if self.left > 0 {
            return None;
        }
        let at = self.begin;
        let sum = self.head.sum();
        self.begin = self.at;
        self.head = Head::new();
        Some(Found {
            item: self.item,
            sum,
            at,
        })
    }

    // Takes the missing bytes of a head.
    fn feed_head(&mut self, piece: &[u8]) -> Fed
        requires none { self.old.left ≡ 0 }
        requires fits { self.old.place + self.old.at + length piece.now < 2 ^ 64 }
        ensures feeds { (before : List ℕ) (laids : List Laid) → IsAfterSealed before laids self.old →
            FeedsSealed result before piece.now laids self.new }
        ensures at { self.new.at ≡ self.old.at + taken_by result (length piece.now) }
        ensures within { taken_by result (length piece.now) ≤ length piece.now }
        ensures stays { (self.new.seed ≡ self.old.seed) × (self.new.place ≡ self.old.place) }
    {
        let place = self.place + self.begin as u64;
        if self.head.len() == SEALED_HEAD {
            // The record was bad before this piece.
            self.at += piece.len();
            let error = self.head.refusal(self.seed, place, self.begin);
            return Fed::Bad { error };
        }
        let taken = self.head.fill(piece);
        if self.head.len() < SEALED_HEAD {
            self.at += taken;
            return Fed::More { taken };
        }
        let Some(item) = self.head.item(self.seed, place) else {
            self.at += piece.len();
            let error = self.head.refusal(self.seed, place, self.begin);
            return Fed::Bad { error };
        };
        self.at += taken;
        self.item = item;
        self.left = length_of(item);
        if self.left > 0 {
            return Fed::More { taken };
        }
        let at = self.begin;
        let sum = self.head.sum();
        self.begin = self.at;
        self.head = Head::new();
        Fed::Found {
            item,
            sum,
            at,
            taken,
        }
    }

    /// Ends the body. Returns Ok where it consists of whole records; else why none begins where the first begins that
    /// is bad or not whole.
    pub fn end(&self) -> Result<(), SealedError>
        ensures { (bytes : List ℕ) (laids : List Laid) → IsAfterSealed bytes laids self.now →
            EndsSealed result bytes laids self.now }
    {
        if self.head.len() == 0 {
            Ok(())
        } else {
            let place = self.place + self.begin as u64;
            let error = self.head.refusal(self.seed, place, self.begin);
            Err(error)
        }
    }
}

// The length of a record's block in bytes, 0 where it has no block.
fn length_of(item: Record) -> u32
    ensures { result ≡ record_length item }
{
    match item {
        Record::Put { length, .. } => length,
        Record::Marks { .. } | Record::Erase { .. } => 0,
    }
}
