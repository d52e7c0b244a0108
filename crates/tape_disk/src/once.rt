//! A disk of which one call fails.
ghost use Rattle.std.specs.Prelude.{◌≡◌, ◌+◌, ◌-◌, ◌≤◌, length, OnOk, slice_range, Some, not};
ghost use Rattle.tape_disk.specs.Faults.{is_due, after_call, is_disk_over};

use crate::disk::Disk;
use crate::failing::Failing;
use vtl_base::DevFault;

/// A disk over another one. One of its calls fails, and does nothing to the disk below; all calls before and after that
/// call pass to the disk below.
#[derive(Drop)]
pub struct OnceDisk<D> {
    below: Failing<D>,
    left: Option<u64>,
}

impl<D: Disk> OnceDisk<D> {
    ghost use Rattle.tape_disk.specs.OnceDisk.{once_disk_below, once_calls_left, once_state};

    /// Makes a disk over `disk`: `calls` calls pass, then one fails, and all later ones pass. `len` is not counted as a
    /// call.
    pub fn new(disk: D, calls: u64) -> OnceDisk<D>
        ensures disk { once_disk_below result ≡ disk }
        ensures failures { (once_state D.state result).failures ≡ 0 }
        ensures calls { once_calls_left result ≡ Some calls }
    {
        OnceDisk {
            below: Failing::new(disk),
            left: Some(calls),
        }
    }

    /// The disk below.
    pub fn inner(&self) -> &D
        ensures { result.now ≡ once_disk_below self.now }
    {
        &self.below.disk
    }

    pub fn into_inner(self) -> D
        ensures { result ≡ once_disk_below self }
    {
        self.below.disk
    }

    // Counts a call. Returns false where it is the one that is to fail, else true.
    fn take_turn(&mut self) -> bool
        ensures passes { result ≡ not (is_due (once_calls_left self.old)) }
        ensures left { once_calls_left self.new ≡ after_call (once_calls_left self.old) }
        ensures below { self.new.below ≡ self.old.below }
    {
        match self.left {
            None => true,
            Some(0) => {
                self.left = None;
                false
            }
            Some(calls) => {
                self.left = Some(calls - 1);
                true
            }
        }
    }
}

impl<D: Disk> Disk for OnceDisk<D> {
    ghost use Rattle.tape_disk.specs.OnceDisk.{OnceEffect, once_disk_below, once_state};

    ghost state = { once_state D.state };

    ghost effect = { OnceEffect D.state D.effect };

    ghost is_disk = { λ disk honest.
        is_disk_over (D.state (once_disk_below disk)) (once_state D.state disk).failures
        (D.is_disk (once_disk_below disk) honest) };

    fn len(&self) -> u64 {
        self.below.disk.len()
    }

    fn read_at(&mut self, at: u64, buffer: &mut [u8]) -> Result<(), DevFault> {
        let passes = self.take_turn();
        self.below.read_at(passes, at, buffer)
    }

    fn write_at(&mut self, at: u64, bytes: &[u8]) -> Result<(), DevFault> {
        let passes = self.take_turn();
        self.below.write_at(passes, at, bytes)
    }

    fn cut(&mut self, len: u64) -> Result<(), DevFault> {
        let passes = self.take_turn();
        self.below.cut(passes, len)
    }

    fn sync(&mut self) -> Result<(), DevFault> {
        let passes = self.take_turn();
        self.below.sync(passes)
    }
}
