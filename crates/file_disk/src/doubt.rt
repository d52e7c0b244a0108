//! What a sync of an open file may pass over, that is report as done though it never reached the device, and how this
//! is written again.
ghost use Rattle.std.specs.Prelude.{◌≡◌, ◌≢◌, ◌⊎◌, ◌<◌, ◌≤◌, ◌^◌, ℕ, false, length, IfSome, OnOk};
ghost use Rattle.file_disk.specs.Opening.{IsBehindEnd, IsLeftWell};
ghost use Rattle.file_disk.specs.RawFile.{ReachesAll};
ghost use Rattle.file_disk.specs.Inner.Doubts.{BeginsSo, Covers, InSpan, IsInDoubt, IsLookedAt, LieIn};
ghost use Rattle.file_disk.specs.Inner.Rested.{OnlyReadFile, Rested};
ghost use Rattle.vtl_base.specs.declared.layout.TheConstants.{BEGUN_BYTES};

use crate::again::write_again;
use crate::begins::{Begins, beginning_of};
use crate::disk::MAX_FILE;
use crate::looked::Looked;
use crate::raw::{CallFailed, RawFile};
use crate::written::{Span, Written};
use gate_journal::{Gates, last_gates};
use vtl_base::layout::{BEGUN_BYTES, LENGTH_BYTES};
use vtl_base::limits::MAX_BODY;

/// What is known of the places of a file that the next sync may pass over.
#[derive(Clone, Copy)]
pub(crate) enum Doubt {
    /// The next sync passes over no place.
    Nothing,
    /// The file was just opened, and nothing of it was read yet. The next sync may pass over what an earlier process
    /// left.
    Opened,
    /// The next sync may pass over what was written since the last good one, or what was found at the opening.
    SyncFailed,
}

// How many bytes an append writes behind the end gate, at most: a length, the longest body and a gate.
const MOST_BEHIND: u64 = LENGTH_BYTES as u64 + MAX_BODY as u64 + 1;

// What a sync may pass over in a side of `bytes` bytes that begins so and has these gates: the last open gate, what an
// append may have written behind the end gate, and in a cartridge's side its first ten bytes. None where the gates do
// not lie inside these bytes.
fn doubt_of(begins: Begins, gates: Gates, bytes: u64) -> Option<Written>
    ensures gates { IfSome result (λ written. (place : ℕ) →
        (place ≡ gates.last) ⊎ (IsBehindEnd gates.end place × (place < bytes)) → Covers written place) }
    ensures start { IfSome result (λ written. (place : ℕ) →
        begins ≡ Begins.Cartridge → place < BEGUN_BYTES → Covers written place) }
{
    if gates.last >= bytes || gates.end >= bytes {
        return None;
    }
    Some(Written {
        one: Span {
            from: gates.last,
            end: gates.last + 1,
        },
        other: Span {
            from: gates.end + 1,
            end: bytes.min((gates.end + 1).saturating_add(MOST_BEHIND)),
        },
        ..started(begins)
    })
}

// What a sync may pass over in the first ten bytes of a side that begins so: all of them in a cartridge's side, else
// none.
fn started(begins: Begins) -> Written
    ensures { (place : ℕ) → begins ≡ Begins.Cartridge → place < BEGUN_BYTES → InSpan result.start place }
{
    match begins {
        Begins::Cartridge => Written::first(BEGUN_BYTES as u64),
        _ => Written::none(),
    }
}

// Finds the last gates of a file of `bytes` bytes that begins so. Returns what a sync may pass over, and what was
// written since the last good sync. None where a call failed, or where the gates do not lie inside these bytes.
fn look_at_gates<F: RawFile>(
    looked: &mut Looked<F>,
    begins: Begins,
    bytes: u64,
) -> Option<(Doubt, Written)>
    requires { begins ≢ Begins.Unfinished }
    ensures read { OnlyReadFile F.state F.passed_over F.unsynced looked.old.file looked.new.file }
    ensures found { (F.state looked.old.file).honest → bytes ≡ length (F.state looked.old.file).seen →
        BeginsSo begins (F.state looked.old.file).seen →
        IsLeftWell (F.state looked.old.file).seen (F.passed_over looked.old.file) (F.unsynced looked.old.file) →
        IfSome result (λ found. IsInDoubt found.0 found.1 (F.state looked.new.file).seen
        (F.passed_over looked.new.file) (F.unsynced looked.new.file)) }
{
    let Ok(found) = last_gates(looked) else {
        return None;
    };
    let Some(gates) = found else {
        return Some((Doubt::Nothing, Written::apart()));
    };
    let Some(written) = doubt_of(begins, gates, bytes) else {
        return None;
    };
    Some((Doubt::SyncFailed, written))
}

// Reads what a file of `bytes` bytes, which was just opened, holds. Returns what a sync may pass over, and what was
// written since the last good sync. None where it could not be read.
fn look<F: RawFile>(looked: &mut Looked<F>, bytes: u64) -> Option<(Doubt, Written)>
    ensures read { OnlyReadFile F.state F.passed_over F.unsynced looked.old.file looked.new.file }
    ensures found { (F.state looked.old.file).honest → bytes ≡ length (F.state looked.old.file).seen →
        IsLeftWell (F.state looked.old.file).seen (F.passed_over looked.old.file) (F.unsynced looked.old.file) →
        IfSome result (λ found. IsInDoubt found.0 found.1 (F.state looked.new.file).seen
        (F.passed_over looked.new.file) (F.unsynced looked.new.file)) }
{
    let begins = beginning_of(looked)?;
    match begins {
        Begins::Unfinished => Some((Doubt::SyncFailed, Written::first(bytes))),
        _ => look_at_gates(looked, begins, bytes),
    }
}

// Writes the ranges again, as far as they lie in the first `bytes` bytes.
fn write_ranges<F: RawFile>(file: &mut F, written: Written, bytes: u64) -> Result<(), CallFailed>
    requires known { written.is_apart ≡ false }
    requires length { (F.state file.old).honest → bytes ≡ length (F.state file.old).seen }
    ensures rested { Rested F.state F.passed_over F.unsynced file.old file.new }
    ensures again { (F.state file.old).honest →
        LieIn written (F.passed_over file.old) → OnOk result (ReachesAll (F.passed_over file.new)) }
    ensures unsynced { (F.state file.old).honest →
        LieIn written (F.unsynced file.old) → LieIn written (F.unsynced file.new) }
{
    if bytes > MAX_FILE {
        return Err(CallFailed);
    }
    write_again(file, written.one.from, written.one.end.min(bytes))?;
    write_again(file, written.other.from, written.other.end.min(bytes))?;
    write_again(file, written.start.from, written.start.end.min(bytes))
}

// Reads what a file of `bytes` bytes holds, if it was just opened. Returns what a sync may pass over, and what was
// written since the last good sync: what was found, or else `doubt` and `written` as they are.
fn looked_at<F: RawFile>(
    looked: &mut Looked<F>,
    doubt: Doubt,
    written: Written,
    bytes: u64,
) -> (Doubt, Written)
    ensures rested { Rested F.state F.passed_over F.unsynced looked.old.file looked.new.file }
    ensures known { (F.state looked.old.file).honest → bytes ≡ length (F.state looked.old.file).seen →
        IsInDoubt doubt written (F.state looked.old.file).seen
        (F.passed_over looked.old.file) (F.unsynced looked.old.file) →
        IsInDoubt result.0 result.1 (F.state looked.new.file).seen
        (F.passed_over looked.new.file) (F.unsynced looked.new.file) }
{
    match doubt {
        Doubt::Opened => match look(looked, bytes) {
            Some(found) => found,
            None => (doubt, written),
        },
        _ => (doubt, written),
    }
}

// Writes again what was written since the last good sync, where that is known. Returns what a sync may pass over then,
// and what was written.
fn healed<F: RawFile>(looked: &mut Looked<F>, written: Written, bytes: u64) -> (Doubt, Written)
    requires length { (F.state looked.old.file).honest → bytes ≡ length (F.state looked.old.file).seen }
    ensures rested { Rested F.state F.passed_over F.unsynced looked.old.file looked.new.file }
    ensures known { (F.state looked.old.file).honest →
        LieIn written (F.passed_over looked.old.file) → LieIn written (F.unsynced looked.old.file) →
        IsInDoubt result.0 result.1 (F.state looked.new.file).seen
        (F.passed_over looked.new.file) (F.unsynced looked.new.file) }
{
    if written.is_apart {
        return (Doubt::SyncFailed, written);
    }
    match write_ranges(&mut looked.file, written, bytes) {
        Ok(()) => (Doubt::Nothing, written),
        Err(_) => (Doubt::SyncFailed, written),
    }
}

/// Writes again what a sync of a file of `bytes` bytes may pass over. Returns what a sync may pass over then, and what
/// was written since the last good sync.
pub(crate) fn settled<F: RawFile>(
    looked: &mut Looked<F>,
    doubt: Doubt,
    written: Written,
    bytes: u64,
) -> (Doubt, Written)
    requires length { (F.state looked.old.file).honest → bytes ≡ length (F.state looked.old.file).seen }
    ensures rested { Rested F.state F.passed_over F.unsynced looked.old.file looked.new.file }
    ensures known { (F.state looked.old.file).honest →
        IsInDoubt doubt written (F.state looked.old.file).seen
        (F.passed_over looked.old.file) (F.unsynced looked.old.file) →
        IsInDoubt result.0 result.1 (F.state looked.new.file).seen
        (F.passed_over looked.new.file) (F.unsynced looked.new.file) }
{
    let (found, ranges) = looked_at(looked, doubt, written, bytes);
    match found {
        Doubt::SyncFailed => healed(looked, ranges, bytes),
        _ => (found, ranges),
    }
}

/// Does what `settled` does, before a write or a cut, but only if the file was just opened. Else it does nothing, and
/// returns `doubt` and `written` as they are.
pub(crate) fn begun<F: RawFile>(
    looked: &mut Looked<F>,
    doubt: Doubt,
    written: Written,
    bytes: u64,
) -> (Doubt, Written)
    requires length { (F.state looked.old.file).honest → bytes ≡ length (F.state looked.old.file).seen }
    ensures rested { Rested F.state F.passed_over F.unsynced looked.old.file looked.new.file }
    ensures known { (F.state looked.old.file).honest →
        IsInDoubt doubt written (F.state looked.old.file).seen
        (F.passed_over looked.old.file) (F.unsynced looked.old.file) →
        IsInDoubt result.0 result.1 (F.state looked.new.file).seen
        (F.passed_over looked.new.file) (F.unsynced looked.new.file) }
{
    match doubt {
        Doubt::Opened => settled(looked, doubt, written, bytes),
        _ => (doubt, written),
    }
}
