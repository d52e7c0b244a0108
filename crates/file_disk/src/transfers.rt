//! Reads and writes that go on where a call moved fewer bytes than were asked for.
ghost use Rattle.std.specs.Prelude.{◌≡◌, ◌+◌, ◌<◌, ◌≤◌, ◌^◌, ℕ, List, length, take, IfOk, OnOk, OnErr, slice_range};
ghost use Rattle.tape_disk.specs.Disk.{Elapses, Follows, Same, Smeared, overwritten};
ghost use Rattle.file_disk.specs.RawFile.{AddsNone, AddsRange, IsAsHonest, ReachesRange, ReachesStill};

use crate::raw::{CallFailed, RawFile, Stop};

// The most calls that one read or write makes. No process lives long enough to see them all interrupted.
pub(crate) const CALLS: u64 = u64::MAX;

// Reads the next bytes after the first `done`, in one call. Returns how many were read then in all. An interrupted call
// read none.
fn read_on<F: RawFile>(
    file: &mut F,
    at: u64,
    buffer: &mut [u8],
    done: usize,
) -> Result<usize, CallFailed>
    requires place { at + length buffer.old < 2 ^ 63 }
    requires done { done ≤ length buffer.old }
    ensures honesty { IsAsHonest (F.state file.old) (F.state file.new) }
    ensures time { (F.state file.old).honest → Elapses (F.state file.old) (F.state file.new) }
    ensures same { (F.state file.old).honest → Same (F.state file.old) (F.state file.new) }
    ensures reaches { (F.state file.old).honest →
        ReachesStill (F.passed_over file.old) (F.passed_over file.new) }
    ensures unsynced { (F.state file.old).honest →
        AddsNone (F.unsynced file.old) (F.unsynced file.new) }
    ensures bound { IfOk result (λ count. (done ≤ count) × (count ≤ length buffer.new)) }
    ensures bytes { (F.state file.old).honest →
        take done buffer.old ≡ slice_range (F.state file.old).seen at (at + done) →
        IfOk result
        (λ count. take count buffer.new ≡ slice_range (F.state file.old).seen at (at + count)) }
{
    match file.read_some(at + done as u64, &mut buffer[done..]) {
        Ok(count) => {
            if count == 0 && done < buffer.len() {
                return Err(CallFailed);
            }
            Ok(done + count)
        }
        Err(Stop::Interrupted) => Ok(done),
        Err(Stop::Failed) => Err(CallFailed),
    }
}

/// Fills the buffer with the bytes from place `at` on, in as many calls as that takes. Returns an error where a call
/// failed, or where the file ends before the buffer is full.
pub(crate) fn read_all<F: RawFile>(
    file: &mut F,
    at: u64,
    buffer: &mut [u8],
) -> Result<(), CallFailed>
    requires { at + length buffer.old < 2 ^ 63 }
    ensures honesty { IsAsHonest (F.state file.old) (F.state file.new) }
    ensures time { (F.state file.old).honest → Elapses (F.state file.old) (F.state file.new) }
    ensures same { (F.state file.old).honest → Same (F.state file.old) (F.state file.new) }
    ensures bytes { (F.state file.old).honest → OnOk result
        (buffer.new ≡ slice_range (F.state file.old).seen at (at + length buffer.old)) }
    ensures reaches { (F.state file.old).honest →
        ReachesStill (F.passed_over file.old) (F.passed_over file.new) }
    ensures unsynced { (F.state file.old).honest →
        AddsNone (F.unsynced file.old) (F.unsynced file.new) }
{
    let mut done = 0;
    let mut left = CALLS;
    while left > 0 {
        left -= 1;
        done = read_on(file, at, buffer, done)?;
        if done == buffer.len() {
            return Ok(());
        }
    }
    Err(CallFailed)
}

// Writes the next bytes after the first `done`, in one call. Returns how many were written then in all. An interrupted
// call wrote none.
fn write_on<F: RawFile>(
    file: &mut F,
    at: u64,
    bytes: &[u8],
    done: usize,
) -> Result<usize, CallFailed>
    requires place { at + length bytes.now < 2 ^ 63 }
    requires done { done ≤ length bytes.now }
    requires inside { (F.state file.old).honest → at + done ≤ length (F.state file.old).seen }
    ensures honesty { IsAsHonest (F.state file.old) (F.state file.new) }
    ensures time { (F.state file.old).honest → Elapses (F.state file.old) (F.state file.new) }
    ensures bound { IfOk result (λ count. (done ≤ count) × (count ≤ length bytes.now)) }
    ensures written { (F.state file.old).honest → IfOk result (λ count. (F.state file.new).seen
        ≡ overwritten (at + done) (slice_range bytes.now done count) (F.state file.old).seen) }
    ensures smeared { (F.state file.old).honest →
        Smeared at (length bytes.now) (F.state file.old).seen (F.state file.new).seen }
    ensures crash { (F.state file.old).honest → Follows (Smeared at (length bytes.now))
        (F.state file.old).may_leave (F.state file.new).may_leave }
    ensures keeps { (F.state file.old).honest →
        (image : List ℕ) → (F.state file.old).may_leave image → (F.state file.new).may_leave image }
    ensures reaches { (F.state file.old).honest →
        ReachesStill (F.passed_over file.old) (F.passed_over file.new) }
    ensures again { (F.state file.old).honest →
        IfOk result (λ count. ReachesRange (at + done) (at + count) (F.passed_over file.new)) }
    ensures unsynced { (F.state file.old).honest →
        AddsRange at (at + length bytes.now) (F.unsynced file.old) (F.unsynced file.new) }
{
    match file.write_some(at + done as u64, &bytes[done..]) {
        Ok(count) => {
            if count == 0 && done < bytes.len() {
                return Err(CallFailed);
            }
            Ok(done + count)
        }
        Err(Stop::Interrupted) => Ok(done),
        Err(Stop::Failed) => Err(CallFailed),
    }
}

/// Writes all of `bytes` to place `at`, in as many calls as that takes.
pub(crate) fn write_all<F: RawFile>(file: &mut F, at: u64, bytes: &[u8]) -> Result<(), CallFailed>
    requires place { at + length bytes.now < 2 ^ 63 }
    requires inside { (F.state file.old).honest → at ≤ length (F.state file.old).seen }
    ensures honesty { IsAsHonest (F.state file.old) (F.state file.new) }
    ensures time { (F.state file.old).honest → Elapses (F.state file.old) (F.state file.new) }
    ensures written { (F.state file.old).honest → OnOk result
        ((F.state file.new).seen ≡ overwritten at bytes.now (F.state file.old).seen) }
    ensures smeared { (F.state file.old).honest →
        OnErr result (Smeared at (length bytes.now) (F.state file.old).seen (F.state file.new).seen) }
    ensures crash { (F.state file.old).honest → Follows (Smeared at (length bytes.now))
        (F.state file.old).may_leave (F.state file.new).may_leave }
    ensures reaches { (F.state file.old).honest →
        ReachesStill (F.passed_over file.old) (F.passed_over file.new) }
    ensures again { (F.state file.old).honest →
        OnOk result (ReachesRange at (at + length bytes.now) (F.passed_over file.new)) }
    ensures unsynced { (F.state file.old).honest →
        AddsRange at (at + length bytes.now) (F.unsynced file.old) (F.unsynced file.new) }
{
    let mut done = 0;
    let mut left = CALLS;
    while left > 0 {
        left -= 1;
        done = write_on(file, at, bytes, done)?;
        if done == bytes.len() {
            return Ok(());
        }
    }
    Err(CallFailed)
}
