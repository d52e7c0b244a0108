//! An open file that is only read.
ghost use Rattle.std.specs.Prelude.{◌≡◌};

use crate::disk::fits;
use crate::raw::RawFile;
use crate::transfers::read_all;
use tape_disk::{Disk, Failures};
use vtl_base::DevFault;

/// A disk over an open file that is only read: each write, cut and sync fails, and the file stays as it is. The disk
/// counts failures of its own.
#[derive(Drop)]
pub(crate) struct Looked<F> {
    pub file: F,
    failures: Failures,
}

impl<F: RawFile> Looked<F> {
    ghost use Rattle.file_disk.specs.Inner.Rested.{OnlyReadFile, looked_state};
    ghost use Rattle.tape_disk.specs.Disk.{Elapses, Passes, Same};
    ghost use Rattle.std.specs.Prelude.{Err};

    pub(crate) fn new(file: F) -> Looked<F>
        ensures { result.file ≡ file }
    {
        Looked {
            file,
            failures: Failures::none(),
        }
    }

    // Refuses a call and counts a failure. A read of no bytes moves the clock of the file's state on.
    fn refuse(&mut self) -> DevFault
        ensures passes { Passes {T = Unit {0}} (looked_state F.state self.old)
            (looked_state F.state self.new) (Err result) }
        ensures time { (F.state self.old.file).honest →
            Elapses (looked_state F.state self.old) (looked_state F.state self.new) }
        ensures same { (F.state self.old.file).honest →
            Same (looked_state F.state self.old) (looked_state F.state self.new) }
        ensures looks { OnlyReadFile F.state F.passed_over F.unsynced self.old.file self.new.file }
    {
        let _ = self.file.read_some(0, &mut []);
        self.failures.rise()
    }
}

impl<F: RawFile> Disk for Looked<F> {
    ghost use Rattle.tape_disk.specs.Faults.{is_disk_over};
    ghost use Rattle.file_disk.specs.Inner.Rested.{ReadsOnly, looked_state};

    ghost state = { looked_state F.state };

    ghost effect = { ReadsOnly F.state F.passed_over F.unsynced };

    ghost is_disk = { λ looked honest. is_disk_over (F.state looked.file)
        (looked_state F.state looked).failures (F.is_file looked.file honest) };

    fn len(&self) -> u64 {
        match self.file.size() {
            Some(bytes) => bytes,
            None => 0,
        }
    }

    fn read_at(&mut self, at: u64, buffer: &mut [u8]) -> Result<(), DevFault> {
        if !fits(at, buffer.len()) {
            return Err(self.refuse());
        }
        match read_all(&mut self.file, at, buffer) {
            Ok(()) => Ok(()),
            Err(_) => Err(self.failures.rise()),
        }
    }

    fn write_at(&mut self, _at: u64, _bytes: &[u8]) -> Result<(), DevFault> {
        Err(self.refuse())
    }

    fn cut(&mut self, _len: u64) -> Result<(), DevFault> {
        Err(self.refuse())
    }

    fn sync(&mut self) -> Result<(), DevFault> {
        Err(self.refuse())
    }
}
