//! The calls of a disk, and what they do to its state.
ghost use Rattle.std.specs.Prelude.{◌≡◌, ◌≤◌, ◌+◌, ℕ, length, OnOk, Result, slice_range};
ghost use Rattle.tape_disk.specs.Disk.{DiskCall, ReadAt, WriteAt, CutAt, SyncAll, DiskState, IsDisk, Elapses, Passes, Same, Writes, Cuts, Syncs};
ghost use Rattle.vtl_base.specs.declared.faults.DevFault.{DevFault};

use vtl_base::DevFault;

/// A device seen as a list of bytes (own). What is written is safe once a sync has returned Ok. Until then a crash may
/// leave any bytes in each written range, past the end that the disk had before a write, and past each cut. This holds
/// for an honest disk. For a dishonest one the trait says only that failures are counted, and nothing about its bytes.
pub trait Disk {
    ghost state: { Self → DiskState };

    // What a disk says of its own calls beyond that, honest or not. Disks for tests use it.
    ghost effect: { DiskCall → Result Unit DevFault → Self → Self → Type 0 } = { λ call result old new. Unit {0} };

    /// The length of the disk in bytes. The device is not called.
    fn len(&self) -> u64
        ensures length { (state self.now).honest → result ≡ length (state self.now).seen };

    /// Fills `buffer` with the bytes of the disk from byte `at` on. The range must lie inside the disk.
    fn read_at(&mut self, at: u64, buffer: &mut [u8]) -> Result<(), DevFault>
        requires { (state self.old).honest → at + length buffer.old ≤ length (state self.old).seen }
        ensures passes { Passes (state self.old) (state self.new) result }
        ensures time { (state self.old).honest → Elapses (state self.old) (state self.new) }
        ensures same { (state self.old).honest → Same (state self.old) (state self.new) }
        ensures bytes { (state self.old).honest → OnOk result
            (buffer.new ≡ slice_range (state self.old).seen at (at + length buffer.old)) }
        ensures effect { effect (ReadAt at (length buffer.old)) result self.old self.new };

    /// Writes `bytes` over the bytes of the disk from byte `at` on; bytes past the old end make the disk longer. `at`
    /// must be at most the length of the disk. After a fault even reads may return any bytes in the range of the write,
    /// and past the old end.
    fn write_at(&mut self, at: u64, bytes: &[u8]) -> Result<(), DevFault>
        requires { (state self.old).honest → at ≤ length (state self.old).seen }
        ensures passes { Passes (state self.old) (state self.new) result }
        ensures time { (state self.old).honest → Elapses (state self.old) (state self.new) }
        ensures writes { (state self.old).honest →
            Writes at bytes.now result (state self.old) (state self.new) }
        ensures effect { effect (WriteAt at bytes.now) result self.old self.new };

    /// Cuts the disk after its first `len` bytes; `len` must be at most the length of the disk. After a fault even
    /// reads may return any bytes past the first `len`.
    fn cut(&mut self, len: u64) -> Result<(), DevFault>
        requires { (state self.old).honest → len ≤ length (state self.old).seen }
        ensures passes { Passes (state self.old) (state self.new) result }
        ensures time { (state self.old).honest → Elapses (state self.old) (state self.new) }
        ensures cuts { (state self.old).honest →
            Cuts len result (state self.old) (state self.new) }
        ensures effect { effect (CutAt len) result self.old self.new };

    /// Makes safe what was written and cut. After Ok a crash leaves just the bytes that reads return, until the next
    /// write or cut. After a fault only what was safe before is certain: even reads may return any bytes that a crash
    /// might have left before the call.
    fn sync(&mut self) -> Result<(), DevFault>
        ensures passes { Passes (state self.old) (state self.new) result }
        ensures time { (state self.old).honest → Elapses (state self.old) (state self.new) }
        ensures syncs { (state self.old).honest → Syncs result (state self.old) (state self.new) }
        ensures effect { effect SyncAll result self.old self.new };

    ghost is_disk: { (disk : Self) → (state disk).honest → IsDisk (state disk) };
}
