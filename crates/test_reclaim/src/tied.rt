//! Two disks with one fuse: both stop at one moment.
ghost use Rattle.std.specs.Prelude.{◌≡◌, ℕ, List, []};

use std::alloc::{AllocError, Global};
use std::cell::Cell;
use std::rc::Rc;
use tape_disk::{Disk, Failures, MemDisk};
use vtl_base::DevFault;

/// A disk in memory. It shares a fuse with another one, which lets some calls of both pass. All later ones
/// fail, and do nothing. Nothing is proved of its bytes.
#[derive(Drop)]
pub struct TiedDisk {
    disk: MemDisk,
    left: Rc<Cell<u64>>,
    failures: Failures,
}

/// Two disks, of which `calls` calls pass.
pub fn tied(
    alloc: Global,
    disks: (MemDisk, MemDisk),
    calls: u64,
) -> Result<(TiedDisk, TiedDisk), AllocError> {
    let left = Rc::new(alloc, Cell::new(calls))?;
    let also = left.clone()?;
    Ok((TiedDisk::new(disks.0, left), TiedDisk::new(disks.1, also)))
}

impl TiedDisk {
    fn new(disk: MemDisk, left: Rc<Cell<u64>>) -> TiedDisk {
        TiedDisk {
            disk,
            left,
            failures: Failures::none(),
        }
    }

    /// The disk below.
    pub fn into_inner(self) -> MemDisk {
        self.disk
    }

    // Whether a call passes. It uses up one of those that are left.
    fn passes(&self) -> bool {
        let left = self.left.get();
        self.left.set(left.saturating_sub(1));
        left > 0
    }
}

impl Disk for TiedDisk {
    ghost use Rattle.std.specs.Prelude.{List, ℕ, []};
    ghost use Rattle.tape_disk.specs.Failures.{failure_count};

    ghost state = { λ d. record {
      honest = ⊥;
      seen = [];
      may_leave = λ image. ⊥;
      moment = 0;
      left_since = λ t image. ⊥;
      failures = failure_count d.failures;
    } };

    fn len(&self) -> u64 {
        self.disk.len()
    }

    fn read_at(&mut self, at: u64, buffer: &mut [u8]) -> Result<(), DevFault> {
        let size = buffer.len() as u64;
        let len = self.disk.len();
        if !self.passes() || size > len || at > len - size {
            return Err(self.failures.rise());
        }
        match self.disk.read_at(at, buffer) {
            Ok(()) => Ok(()),
            Err(_) => Err(self.failures.rise()),
        }
    }

    fn write_at(&mut self, at: u64, bytes: &[u8]) -> Result<(), DevFault> {
        let end = self.disk.len();
        if !self.passes() || at > end {
            return Err(self.failures.rise());
        }
        match self.disk.write_at(at, bytes) {
            Ok(()) => Ok(()),
            Err(_) => Err(self.failures.rise()),
        }
    }

    fn cut(&mut self, len: u64) -> Result<(), DevFault> {
        let end = self.disk.len();
        if !self.passes() || len > end {
            return Err(self.failures.rise());
        }
        match self.disk.cut(len) {
            Ok(()) => Ok(()),
            Err(_) => Err(self.failures.rise()),
        }
    }

    fn sync(&mut self) -> Result<(), DevFault> {
        if !self.passes() {
            return Err(self.failures.rise());
        }
        match self.disk.sync() {
            Ok(()) => Ok(()),
            Err(_) => Err(self.failures.rise()),
        }
    }

    ghost is_disk = { λ d honest. absurd honest };
}
