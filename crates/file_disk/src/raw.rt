//! An open file, by the calls that a system has for it; and what each call does where the system is honest.
ghost use Rattle.std.specs.Prelude.{◌≡◌, ◌⊎◌, ◌<◌, ◌≤◌, ◌+◌, ℕ, length, take, IfOk, OnErr, OnOk, Result, Some, slice_range};
ghost use Rattle.tape_disk.specs.Disk.{DiskState, IsDisk, Elapses, Same};
ghost use Rattle.file_disk.specs.RawFile.{AddsNone, AddsRange, CutsFile, IsAsHonest, LeavesBehind, NoneOf, ReachesRange, ReachesStill, SyncsFile, WritesSomeBytes};

use std::fmt::Debug;

/// Why a call that reads or writes did not return how many bytes it moved.
#[derive(Clone, Copy, PartialEq, Eq, Debug)]
pub enum Stop {
    /// A signal came before the call had moved any byte. The call may be made again.
    Interrupted,
    /// The call failed for another reason.
    Failed,
}

/// The error of a call of the system for a file, where the call failed.
#[derive(Clone, Copy, PartialEq, Eq, Debug)]
pub struct CallFailed;

/// An open file. Each method is one call of the system. An honest system keeps the laws below, and nobody else writes
/// the file; for each real file this is a premise. A contract promises nothing of the bytes of a file that is not known
/// to be honest. A sync "passes over" a place if it returns Ok though the byte there never reached the device.
pub trait RawFile {
    // The state of a disk. A file counts no failures.
    ghost state: { Self → DiskState };

    // The places whose bytes a sync may pass over and yet answer Ok, until they are written again:
    // none, while no sync of the file has failed.
    ghost passed_over: { Self → ℕ → Type 0 };

    // The places that were written since the last good sync, by whichever process.
    ghost unsynced: { Self → ℕ → Type 0 };

    /// The length of the file in bytes; None where the system does not give it.
    fn size(&self) -> Option<u64>
        ensures { (state self.now).honest → result ≡ Some (length (state self.now).seen) };

    /// Reads bytes from place `at` on into the start of `buffer`, and returns how many. They may be fewer than the
    /// buffer has room for; at the end of the file there are none.
    fn read_some(&mut self, at: u64, buffer: &mut [u8]) -> Result<usize, Stop>
        ensures bound { IfOk result (λ count. count ≤ length buffer.new) }
        ensures honesty { IsAsHonest (state self.old) (state self.new) }
        ensures time { (state self.old).honest → Elapses (state self.old) (state self.new) }
        ensures same { (state self.old).honest → Same (state self.old) (state self.new) }
        ensures bytes { (state self.old).honest → IfOk result
            (λ count. take count buffer.new ≡ slice_range (state self.old).seen at (at + count)) }
        ensures reaches { (state self.old).honest →
            ReachesStill (passed_over self.old) (passed_over self.new) }
        ensures unsynced { (state self.old).honest → AddsNone (unsynced self.old) (unsynced self.new) };

    /// Writes bytes to place `at`, which is at most the end of the file. Returns how many of `bytes`, from the first
    /// on, were written. After `Interrupted` none was written. After `Failed` reads may return any bytes in the range
    /// that `bytes` was to fill, and from the old end of the file on.
    fn write_some(&mut self, at: u64, bytes: &[u8]) -> Result<usize, Stop>
        requires { (state self.old).honest → at ≤ length (state self.old).seen }
        ensures bound { IfOk result (λ count. count ≤ length bytes.now) }
        ensures honesty { IsAsHonest (state self.old) (state self.new) }
        ensures time { (state self.old).honest → Elapses (state self.old) (state self.new) }
        ensures writes { (state self.old).honest →
            WritesSomeBytes at bytes.now result (state self.old) (state self.new) }
        ensures reaches { (state self.old).honest →
            ReachesStill (passed_over self.old) (passed_over self.new) }
        ensures again { (state self.old).honest →
            IfOk result (λ count. ReachesRange at (at + count) (passed_over self.new)) }
        ensures unsynced { (state self.old).honest →
            AddsRange at (at + length bytes.now) (unsynced self.old) (unsynced self.new) };

    /// Writes `bytes` again to place `at`, where the file already has these bytes. Returns how many of them, from the
    /// first on, were written. Reads return the same as before, a crash leaves only what it might have left before, and
    /// a sync no longer passes over the bytes that were written.
    fn write_again(&mut self, at: u64, bytes: &[u8]) -> Result<usize, Stop>
        requires inside { (state self.old).honest → at + length bytes.now ≤ length (state self.old).seen }
        requires there { (state self.old).honest →
            bytes.now ≡ slice_range (state self.old).seen at (at + length bytes.now) }
        ensures bound { IfOk result (λ count. count ≤ length bytes.now) }
        ensures honesty { IsAsHonest (state self.old) (state self.new) }
        ensures time { (state self.old).honest → Elapses (state self.old) (state self.new) }
        ensures same { (state self.old).honest → Same (state self.old) (state self.new) }
        ensures reaches { (state self.old).honest →
            ReachesStill (passed_over self.old) (passed_over self.new) }
        ensures again { (state self.old).honest →
            IfOk result (λ count. ReachesRange at (at + count) (passed_over self.new)) }
        ensures unsynced { (state self.old).honest →
            AddsRange at (at + length bytes.now) (unsynced self.old) (unsynced self.new) };

    /// Removes the bytes from place `len` on; `len` is at most the length of the file. After an error reads may return
    /// any bytes, or none, from that place on.
    fn cut(&mut self, len: u64) -> Result<(), CallFailed>
        requires { (state self.old).honest → len ≤ length (state self.old).seen }
        ensures honesty { IsAsHonest (state self.old) (state self.new) }
        ensures time { (state self.old).honest → Elapses (state self.old) (state self.new) }
        ensures cuts { (state self.old).honest →
            CutsFile len result (state self.old) (state self.new) }
        ensures reaches { (state self.old).honest →
            ReachesStill (passed_over self.old) (passed_over self.new) }
        ensures unsynced { (state self.old).honest → AddsNone (unsynced self.old) (unsynced self.new) };

    /// Syncs the file. At Ok a crash leaves exactly what reads return, if there is no place over which the sync passes.
    /// After an error, a later sync may also pass over the places that were written since the last good sync.
    fn sync(&mut self) -> Result<(), CallFailed>
        ensures honesty { IsAsHonest (state self.old) (state self.new) }
        ensures time { (state self.old).honest → Elapses (state self.old) (state self.new) }
        ensures syncs { (state self.old).honest →
            SyncsFile (passed_over self.old) result (state self.old) (state self.new) }
        ensures reaches { (state self.old).honest →
            OnOk result (ReachesStill (passed_over self.old) (passed_over self.new)) }
        ensures synced { (state self.old).honest → OnOk result (NoneOf (unsynced self.new)) }
        ensures left { (state self.old).honest → OnErr result
            (LeavesBehind (passed_over self.old) (unsynced self.old) (passed_over self.new)) }
        ensures unsynced { (state self.old).honest →
            OnErr result (AddsNone (unsynced self.old) (unsynced self.new)) };

    ghost is_file: { (file : Self) → (state file).honest → IsDisk (state file) };

    ghost within: { (file : Self) → (state file).honest → (place : ℕ) →
        passed_over file place ⊎ unsynced file place → place < length (state file).seen };
}
