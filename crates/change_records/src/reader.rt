//! Reads the records of a body that comes in pieces, wherever it is cut.
ghost use Rattle.std.specs.Prelude.{◌≡◌, ◌≤◌, ◌<◌, ◌+◌, ◌-◌, ◌^◌, ◌++◌, [], ℕ, List, IfNone, length, take};
ghost use Rattle.volume_core.specs.declared.changes.Change.{Change};
ghost use Rattle.change_records.specs.Records.{record_length};
ghost use Rattle.change_records.specs.Readers.{Ends, Feeds, IsAfter, PassesOver, taken_of};

use crate::head::Head;
use crate::records::{Record, RecordError};
use std::marker::Model;
use vtl_base::layout::RECORD_HEAD;

/// A reader for the records of a frame's body that comes in pieces. Between two pieces it holds the bytes of the
/// current record's head that have come, at most 10, and a few numbers, but no bytes of a block.
#[derive(Drop)]
pub struct RecordReader {
    // The first bytes of the present record's head, as far as they have come.
    head: Head,
    // The present record, and how many bytes of its block are still to come.
    item: Record,
    left: u32,
    // Where in the body the present record begins.
    begin: usize,
    // How many bytes of the body have come.
    at: usize,
}

impl Model for RecordReader {
    ghost use Rattle.change_records.specs.Readers.{ReaderState};

    ghost Value = { ReaderState };

    ghost view = { λ r. record {
      head = r.head;
      item = r.item;
      left = r.left;
      begin = r.begin;
      at = r.at;
    } };
}

/// A whole record `item`, and the byte `at` of the body at which it begins.
#[derive(Clone, Copy, PartialEq, Eq, Debug)]
pub struct Found {
    pub item: Record,
    pub at: usize,
}

/// The result of feeding one piece of a body to a reader.
#[derive(Clone, Copy, PartialEq, Eq, Debug)]
pub enum Fed {
    /// A record is now whole. It begins at byte `at` of the body. The first `taken` bytes of the piece were taken; the
    /// others are to be fed next.
    Found {
        item: Record,
        at: usize,
        taken: usize,
    },
    /// All of the piece was taken, and no record ends in it.
    More,
    /// All of the piece was taken. No record begins at byte `at` of the body, whatever bytes follow.
    Bad {
        at: usize,
    },
}

impl RecordReader {
    /// Makes a reader for a body of which no byte has come.
    pub fn new() -> Self
        ensures after { IsAfter [] [] result }
        ensures at { result.at ≡ 0 }
    {
        RecordReader {
            head: Head::new(),
            item: Record::Erase { part: 0, at: 0 },
            left: 0,
            begin: 0,
            at: 0,
        }
    }

    /// How many bytes of the body have come, fed or passed over.
    pub fn at(&self) -> usize
        ensures { result ≡ self.now.at }
    {
        self.at
    }

    /// How many of the next bytes of the body belong to a block, so that they need not be fed: `pass` passes over them.
    /// 0 where the next byte belongs to a head.
    pub fn unseen(&self) -> usize
        ensures { result ≡ self.now.left }
    {
        self.left as usize
    }

    /// Passes over the next `count` bytes of the body, which need not be fed. `count` must be at most what `unseen`
    /// returns, which must not be 0. The effect is as if these bytes had been fed, whatever they are. Returns the
    /// record that they complete, or None where more bytes of its block are to come.
    pub fn pass(&mut self, count: usize) -> Option<Found>
        requires some { 1 ≤ self.old.left }
        requires unseen { count ≤ self.old.left }
        requires fits { self.old.at + count < 2 ^ 64 }
        ensures passes { (before bytes : List ℕ) (changes : List Change) → length bytes ≡ count →
            IsAfter before changes self.old → PassesOver result (before ++ bytes) changes self.new }
        ensures at { self.new.at ≡ self.old.at + count }
        ensures none { IfNone result (count < self.old.left) }
    {
        self.at += count;
        self.left -= count as u32;
        if self.left > 0 {
            return None;
        }
        let at = self.begin;
        self.begin = self.at;
        self.head = Head::new();
        Some(Found {
            item: self.item,
            at,
        })
    }

    /// Takes `piece`, the next piece of the body, but only up to the end of the first record that ends in it.
    pub fn feed(&mut self, piece: &[u8]) -> Fed
        requires fits { self.old.at + length piece.now < 2 ^ 64 }
        ensures feeds { (before : List ℕ) (changes : List Change) → IsAfter before changes self.old →
            Feeds result before piece.now changes self.new }
        ensures at { self.new.at ≡ self.old.at + taken_of result (length piece.now) }
        ensures within { taken_of result (length piece.now) ≤ length piece.now }
        ensures some { 1 ≤ length piece.now → 1 ≤ taken_of result (length piece.now) }
    {
        if self.left > 0 {
            self.feed_block(piece, 0)
        } else {
            self.feed_head(piece)
        }
    }

    // Takes the bytes of a block: those of the piece from that place on.
    fn feed_block(&mut self, piece: &[u8], from: usize) -> Fed
        requires some { 1 ≤ self.old.left }
        requires from { from ≤ length piece.now }
        requires fits { self.old.at + (length piece.now - from) < 2 ^ 64 }
        ensures feeds { (before : List ℕ) (changes : List Change) →
            IsAfter (before ++ take from piece.now) changes self.old →
            Feeds result before piece.now changes self.new }
        ensures at { self.new.at + from ≡ self.old.at + taken_of result (length piece.now) }
        ensures within { taken_of result (length piece.now) ≤ length piece.now }
        ensures some { 1 ≤ length piece.now → 1 ≤ taken_of result (length piece.now) }
    {
        let mut count = self.left as usize;
        if piece.len() - from < count {
            count = piece.len() - from;
        }
        match self.pass(count) {
            Some(Found { item, at }) => Fed::Found {
                item,
                at,
                taken: from + count,
            },
            None => Fed::More,
        }
    }

    // Takes the missing bytes of a head, and then those of its block.
    fn feed_head(&mut self, piece: &[u8]) -> Fed
        requires none { self.old.left ≡ 0 }
        requires fits { self.old.at + length piece.now < 2 ^ 64 }
        ensures feeds { (before : List ℕ) (changes : List Change) → IsAfter before changes self.old →
            Feeds result before piece.now changes self.new }
        ensures at { self.new.at ≡ self.old.at + taken_of result (length piece.now) }
        ensures within { taken_of result (length piece.now) ≤ length piece.now }
        ensures some { 1 ≤ length piece.now → 1 ≤ taken_of result (length piece.now) }
    {
        if self.head.len() == RECORD_HEAD {
            // The record was bad before this piece.
            self.at += piece.len();
            return Fed::Bad { at: self.begin };
        }
        let count = self.head.fill(piece);
        if self.head.len() < RECORD_HEAD {
            self.at += count;
            return Fed::More;
        }
        let Some(item) = self.head.item() else {
            self.at += piece.len();
            return Fed::Bad { at: self.begin };
        };
        self.at += count;
        self.item = item;
        self.left = length_of(item);
        if self.left > 0 {
            return self.feed_block(piece, count);
        }
        let at = self.begin;
        self.begin = self.at;
        self.head = Head::new();
        Fed::Found {
            item,
            at,
            taken: count,
        }
    }

    /// Ends the body. Returns Ok where the body consists of whole records; else `BadRecord`, with the place in the body
    /// of the first record that is bad or not whole.
    pub fn end(&self) -> Result<(), RecordError>
        ensures { (bytes : List ℕ) (changes : List Change) → IsAfter bytes changes self.now →
            Ends result bytes changes }
    {
        if self.head.len() == 0 {
            Ok(())
        } else {
            Err(RecordError::BadRecord { at: self.begin })
        }
    }
}

// The length of a record's block in bytes, 0 where it has no block.
fn length_of(item: Record) -> u32
    ensures { result ≡ record_length item }
{
    match item {
        Record::Put { length, .. } => length,
        Record::Marks { .. } | Record::Erase { .. } => 0,
    }
}
