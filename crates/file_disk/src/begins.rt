//! The beginning of a file that was just opened.
ghost use Rattle.std.specs.Prelude.{◌≡◌, ◌↔◌, ◌++◌, ℕ, List, length, slice_range, IfSome, IsTrue};
ghost use Rattle.gate_journal.specs.Side.{mark};
ghost use Rattle.gate_journal.specs.declared.header.SideKind.TheVariants.{Cartridge};
ghost use Rattle.file_disk.specs.Inner.Doubts.{BeginsSo};
ghost use Rattle.file_disk.specs.Inner.Rested.{OnlyReadFile};
ghost use Rattle.vtl_base.specs.declared.layout.TheConstants.{MARK_PLACE, PAIR_GATE};

use crate::looked::Looked;
use crate::raw::RawFile;
use tape_disk::Disk;
use vtl_base::layout::{BEGUN_BYTES, CARTRIDGE_MARK, MARK_PLACE, OPEN, PAIR_GATE, SIDE_GATE};

/// How the bytes of a file begin.
#[derive(Clone, Copy)]
pub(crate) enum Begins {
    /// As those of a cartridge's side that is being made, or written anew: there are fewer than ten, or they begin with
    /// a closed gate and the mark of a cartridge's side.
    Unfinished,
    /// As those of a cartridge's side whose own gate is open.
    Cartridge,
    /// In another way.
    Other,
}

// Whether the first bytes have the mark of a cartridge's side.
fn has_mark(start: &[u8; BEGUN_BYTES]) -> bool
    ensures { IsTrue result ↔ (slice_range start.now MARK_PLACE PAIR_GATE ≡ mark Cartridge) }
{
    let found = &start[MARK_PLACE..PAIR_GATE];
    found == CARTRIDGE_MARK.as_slice()
}

// How a file begins, by its first bytes.
fn begins_with(start: &[u8; BEGUN_BYTES]) -> Begins
    ensures { (rest : List ℕ) → BeginsSo result (start.now ++ rest) }
{
    if !has_mark(start) {
        return Begins::Other;
    }
    if start[SIDE_GATE] == OPEN {
        Begins::Cartridge
    } else {
        Begins::Unfinished
    }
}

/// Reads how a file begins. Returns None where it cannot be read.
pub(crate) fn beginning_of<F: RawFile>(looked: &mut Looked<F>) -> Option<Begins>
    ensures read { OnlyReadFile F.state F.passed_over F.unsynced looked.old.file looked.new.file }
    ensures begins { (F.state looked.old.file).honest →
        IfSome result (λ begins. BeginsSo begins (F.state looked.old.file).seen) }
{
    if looked.len() < BEGUN_BYTES as u64 {
        return Some(Begins::Unfinished);
    }
    let mut start = [0; BEGUN_BYTES];
    match looked.read_at(0, &mut start) {
        Ok(()) => Some(begins_with(&start)),
        Err(_) => None,
    }
}
