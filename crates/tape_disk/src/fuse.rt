//! A disk with a fuse: some calls pass, and all later ones fail.
ghost use Rattle.std.specs.Prelude.{◌≡◌, ◌+◌, ◌-◌, ◌≤◌, length, OnOk, slice_range};
ghost use Rattle.tape_disk.specs.Faults.{holds, is_disk_over};

use crate::disk::Disk;
use crate::failing::Failing;
use vtl_base::DevFault;

/// A disk over another one, whose fuse lets a number of calls pass to the disk below. All later calls fail, and do
/// nothing to the disk below.
#[derive(Drop)]
pub struct FuseDisk<D> {
    below: Failing<D>,
    left: u64,
}

impl<D: Disk> FuseDisk<D> {
    ghost use Rattle.tape_disk.specs.FuseDisk.{fuse_disk_below, fuse_calls_left, fuse_state};

    /// Makes a disk over `disk`, whose first `calls` calls pass. `len` is not counted as a call.
    pub fn new(disk: D, calls: u64) -> FuseDisk<D>
        ensures disk { fuse_disk_below result ≡ disk }
        ensures failures { (fuse_state D.state result).failures ≡ 0 }
        ensures calls { fuse_calls_left result ≡ calls }
    {
        FuseDisk {
            below: Failing::new(disk),
            left: calls,
        }
    }

    /// The disk below.
    pub fn inner(&self) -> &D
        ensures { result.now ≡ fuse_disk_below self.now }
    {
        &self.below.disk
    }

    pub fn into_inner(self) -> D
        ensures { result ≡ fuse_disk_below self }
    {
        self.below.disk
    }

    // Counts a call. Returns true where it passes, and false once all calls that may pass are used up.
    fn take_turn(&mut self) -> bool
        ensures passes { result ≡ holds (fuse_calls_left self.old) }
        ensures left { fuse_calls_left self.new ≡ fuse_calls_left self.old - 1 }
        ensures below { self.new.below ≡ self.old.below }
    {
        let passes = self.left > 0;
        self.left = self.left.saturating_sub(1);
        passes
    }
}

impl<D: Disk> Disk for FuseDisk<D> {
    ghost use Rattle.tape_disk.specs.FuseDisk.{FuseEffect, fuse_disk_below, fuse_state};

    ghost state = { fuse_state D.state };

    ghost effect = { FuseEffect D.state D.effect };

    ghost is_disk = { λ disk honest.
        is_disk_over (D.state (fuse_disk_below disk)) (fuse_state D.state disk).failures
        (D.is_disk (fuse_disk_below disk) honest) };

    fn len(&self) -> u64 {
        self.below.disk.len()
    }

    fn read_at(&mut self, at: u64, buffer: &mut [u8]) -> Result<(), DevFault> {
        let passes = self.take_turn();
        self.below.read_at(passes, at, buffer)
    }

    fn write_at(&mut self, at: u64, bytes: &[u8]) -> Result<(), DevFault> {
        let passes = self.take_turn();
        self.below.write_at(passes, at, bytes)
    }

    fn cut(&mut self, len: u64) -> Result<(), DevFault> {
        let passes = self.take_turn();
        self.below.cut(passes, len)
    }

    fn sync(&mut self) -> Result<(), DevFault> {
        let passes = self.take_turn();
        self.below.sync(passes)
    }
}
