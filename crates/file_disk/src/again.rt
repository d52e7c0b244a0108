//! Bytes of a file that are written again as they stand.
ghost use Rattle.std.specs.Prelude.{◌≡◌, ◌<◌, ◌≤◌, ◌^◌, length, IfOk, OnOk};
ghost use Rattle.file_disk.specs.RawFile.{AddsRange, ReachesRange};
ghost use Rattle.file_disk.specs.Inner.Rested.{Rested};

use crate::raw::{CallFailed, RawFile, Stop};
use crate::transfers::{CALLS, read_all};

// The bytes that are read and written again at once, a page: few enough to stand on the stack, so
// that this needs no memory.
const PIECE: usize = 4096;

// Writes bytes again as they stand, from place `at` on and not past `to`, in one call. Returns the place after those
// that were written. An interrupted call wrote none.
fn again_on<F: RawFile>(file: &mut F, at: u64, to: u64) -> Result<u64, CallFailed>
    requires place { to < 2 ^ 63 }
    requires order { at < to }
    requires inside { (F.state file.old).honest → to ≤ length (F.state file.old).seen }
    ensures rested { Rested F.state F.passed_over F.unsynced file.old file.new }
    ensures bound { IfOk result (λ next. (at ≤ next) × (next ≤ to)) }
    ensures again { (F.state file.old).honest →
        IfOk result (λ next. ReachesRange at next (F.passed_over file.new)) }
    ensures unsynced { (F.state file.old).honest →
        AddsRange at to (F.unsynced file.old) (F.unsynced file.new) }
{
    let mut page = [0; PIECE];
    let count = (to - at).min(PIECE as u64) as usize;
    let piece = &mut page[..count];
    read_all(file, at, piece)?;
    match file.write_again(at, piece) {
        Ok(moved) => {
            if moved == 0 {
                return Err(CallFailed);
            }
            Ok(at + moved as u64)
        }
        Err(Stop::Interrupted) => Ok(at),
        Err(Stop::Failed) => Err(CallFailed),
    }
}

/// Writes the bytes from place `from` up to `to`, which is not included, again as they stand, in as many calls as that
/// takes.
pub(crate) fn write_again<F: RawFile>(file: &mut F, from: u64, to: u64) -> Result<(), CallFailed>
    requires place { to < 2 ^ 63 }
    requires inside { (F.state file.old).honest → to ≤ length (F.state file.old).seen }
    ensures rested { Rested F.state F.passed_over F.unsynced file.old file.new }
    ensures again { (F.state file.old).honest →
        OnOk result (ReachesRange from to (F.passed_over file.new)) }
    ensures unsynced { (F.state file.old).honest →
        AddsRange from to (F.unsynced file.old) (F.unsynced file.new) }
{
    let mut at = from;
    let mut left = CALLS;
    while left > 0 && at < to {
        left -= 1;
        at = again_on(file, at, to)?;
    }
    if at < to {
        return Err(CallFailed);
    }
    Ok(())
}
