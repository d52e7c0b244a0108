//! A disk over a file that notes which of its calls fail, and looks for frames behind the end of its side.
ghost use Rattle.std.specs.Prelude.{◌≡◌};

use crate::at_once::FileLines;
use crate::open_files::OpenFiles;
use file_disk::{FailedCall, FileDisk, SystemCall};
use std::io::ErrorKind;
use tape_disk::Disk;
use vtl_base::DevFault;

/// A disk over a file, of which it can say more than a disk does.
pub trait SaysMore {
    /// The call to the system that failed last; `None` where none failed.
    fn failed(&self) -> Option<FailedCall>;

    /// The place of the end gate of the side in the file, if frames stand behind it, and the file can be read.
    fn frames_behind(&self) -> Option<u64>;
}

impl SaysMore for FileDisk {
    fn failed(&self) -> Option<FailedCall> {
        self.file().failed()
    }

    fn frames_behind(&self) -> Option<u64> {
        self.file().frames_behind()
    }
}

/// A disk that passes each call on to the disk below it, and notes the first call that fails, with what the system
/// answered. If it reports at once, it also looks for frames behind the end of the side as often as the side is opened.
#[derive(Drop)]
pub struct NotedDisk<'a, D> {
    /// The disk below.
    pub disk: D,
    /// The number of the disk's file in `files`; 0 if the file is left out.
    pub number: u64,
    files: &'a OpenFiles,
    // Where what is found is reported at once; None if it is not.
    lines: Option<FileLines<'a>>,
    // Whether the last call that writes, cuts or syncs was a write or a cut, and did not fail.
    is_written: bool,
    // The end gate behind which frames stood at the last look.
    behind: Option<u64>,
}

impl<'a, D> NotedDisk<'a, D> {
    /// Creates a `NotedDisk` over `disk`, whose file has this number in `files`, or 0 if the file is left out. Failed
    /// calls are noted in `files`. Each, and frames behind the end of the side, are reported at once by `lines`, if
    /// there are any.
    pub fn new(
        disk: D,
        number: u64,
        files: &'a OpenFiles,
        lines: Option<FileLines<'a>>,
    ) -> NotedDisk<'a, D>
        ensures { result.disk ≡ disk }
    {
        NotedDisk {
            disk,
            number,
            files,
            lines,
            is_written: false,
            behind: None,
        }
    }
}

impl<'a, D: SaysMore> NotedDisk<'a, D> {
    // Reports that frames stand behind the end of the side, if they do and it was not reported before.
    fn look_behind(&mut self)
        ensures { self.new.disk ≡ self.old.disk }
    {
        let Some(lines) = &self.lines else {
            return;
        };
        let found = self.disk.frames_behind();
        if let Some(at) = found {
            if self.behind != found {
                lines.say_behind(at);
            }
        }
        self.behind = found;
    }

    // Notes a call that failed, at this byte of the file if there is one, and reports it. If no call of the system
    // failed, the system did not say how long the file is; that is noted then.
    fn fail(&self, at: Option<u64>) {
        let failed = match self.disk.failed() {
            Some(failed) => failed,
            None => FailedCall {
                call: SystemCall::Look,
                kind: ErrorKind::Other,
                number: None,
            },
        };
        self.files.fail(self.number, failed);
        if let Some(lines) = &self.lines {
            lines.say_failed(failed, at);
        }
    }
}

impl<'a, D: Disk + SaysMore> Disk for NotedDisk<'a, D> {
    ghost state = { λ noted. D.state noted.disk };

    ghost effect = { λ call result old new. D.effect call result old.disk new.disk };

    ghost is_disk = { λ noted honest. D.is_disk noted.disk honest };

    fn len(&self) -> u64 {
        self.disk.len()
    }

    fn read_at(&mut self, at: u64, buffer: &mut [u8]) -> Result<(), DevFault> {
        self.files.used(self.number);
        match self.disk.read_at(at, buffer) {
            Ok(()) => Ok(()),
            Err(fault) => {
                self.fail(Some(at));
                Err(fault)
            }
        }
    }

    fn write_at(&mut self, at: u64, bytes: &[u8]) -> Result<(), DevFault> {
        match self.disk.write_at(at, bytes) {
            Ok(()) => {
                self.is_written = true;
                Ok(())
            }
            Err(fault) => {
                self.fail(Some(at));
                Err(fault)
            }
        }
    }

    fn cut(&mut self, len: u64) -> Result<(), DevFault> {
        match self.disk.cut(len) {
            Ok(()) => {
                self.is_written = true;
                Ok(())
            }
            Err(fault) => {
                self.fail(None);
                Err(fault)
            }
        }
    }

    // An opening begins with a sync, and a sync behind a write or a cut is that of what was written.
    fn sync(&mut self) -> Result<(), DevFault> {
        let is_written = self.is_written;
        self.is_written = false;
        match self.disk.sync() {
            Ok(()) => {
                if !is_written {
                    self.look_behind();
                }
                Ok(())
            }
            Err(fault) => {
                self.fail(None);
                Err(fault)
            }
        }
    }
}
