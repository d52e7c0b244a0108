//! A file of the operating system, and the calls of the system for it.
ghost use Rattle.std.specs.Prelude.{◌≡◌, ◌≢◌, ◌<◌, ◌≤◌, None, Some, IfOk, false, length, not};
ghost use Rattle.std.specs.IoError.{error_kind};
ghost use Rattle.file_disk.specs.FailedCall.{failed_by, none_moved};
ghost use Rattle.file_disk.specs.FileDisk.{lacks_locks, system_failed, system_file};

use crate::failed::{FailedCall, SystemCall};
use crate::raw::{CallFailed, RawFile, Stop};
use std::fs::File;
use std::io::{self, ErrorKind};
use std::os::unix::fs::FileExt;

/// An open file of the operating system, or no file at all (`none`). No proof says whether it is honest. It records
/// which of its calls failed last, and what the system answered.
#[derive(Drop)]
pub struct SystemFile {
    file: Option<File>,
    failed: Option<FailedCall>,
    lacks_locks: bool,
}

// What an error of the system means for a call that moves bytes.
fn stop_of(kind: ErrorKind) -> Stop
    ensures interrupted { kind ≡ ErrorKind.Interrupted → result ≡ Stop.Interrupted }
    ensures failed { kind ≢ ErrorKind.Interrupted → result ≡ Stop.Failed }
{
    if kind == ErrorKind::Interrupted {
        Stop::Interrupted
    } else {
        Stop::Failed
    }
}

impl SystemFile {
    /// Makes a `SystemFile` from a file that is already open. This takes no lock and asks the system nothing, so it
    /// cannot fail. The caller ensures that the file is a regular one, open for the calls that will be made on it, and
    /// not for appending. It must be opened nowhere else, in this process or another. Where it was written before, a
    /// disk over it must be made by `DiskOver::opened`. `create`, `open` and `open_to_read` ensure all of this
    /// themselves.
    pub fn over(file: File) -> SystemFile
        ensures file { system_file result ≡ Some file }
        ensures failed { system_failed result ≡ None }
        ensures locked { lacks_locks result ≡ false }
    {
        SystemFile::over_locked(file, true)
    }

    // The same, of a file for which a lock was asked. `is_locked` is false where its file system has no locks.
    pub(crate) fn over_locked(file: File, is_locked: bool) -> SystemFile
        ensures file { system_file result ≡ Some file }
        ensures failed { system_failed result ≡ None }
        ensures locked { lacks_locks result ≡ not is_locked }
    {
        SystemFile {
            file: Some(file),
            failed: None,
            lacks_locks: !is_locked,
        }
    }

    /// Makes a `SystemFile` without a file. It has no bytes, its sync returns Ok, and each call that would change it
    /// fails.
    pub fn none() -> SystemFile
        ensures file { system_file result ≡ None }
        ensures failed { system_failed result ≡ None }
        ensures locked { lacks_locks result ≡ false }
    {
        SystemFile {
            file: None,
            failed: None,
            lacks_locks: false,
        }
    }

    /// Whether a lock was asked for the file, and its file system has none, so that the file is open without one. False
    /// for a file that somebody else opened (`over`), and without a file (`none`).
    pub fn lacks_locks(&self) -> bool
        ensures { result ≡ lacks_locks self.now }
    {
        self.lacks_locks
    }

    /// The call that failed last, and what the system answered; None where none failed. A read or a write that should
    /// have moved bytes and moved none counts as failed. A call that a signal interrupted does not, and neither does
    /// asking for the length. For a `SystemFile` without a file (`none`) nothing is recorded.
    pub fn failed(&self) -> Option<FailedCall>
        ensures { result ≡ system_failed self.now }
    {
        self.failed
    }

    // Records the error of a call that reads or writes, unless a signal interrupted it. Returns what the error means.
    fn stop(&mut self, call: SystemCall, error: &io::Error) -> Stop
        ensures interrupted { error_kind error.now ≡ ErrorKind.Interrupted →
            (result ≡ Stop.Interrupted) × (self.new ≡ self.old) }
        ensures failed { error_kind error.now ≢ ErrorKind.Interrupted →
            (result ≡ Stop.Failed) × (system_failed self.new ≡ Some (failed_by call error.now)) }
        ensures file { system_file self.new ≡ system_file self.old }
    {
        let stop = stop_of(error.kind());
        if stop == Stop::Failed {
            self.failed = Some(FailedCall::of(call, error));
        }
        stop
    }

    // Records the call as failed if it should have moved `asked` bytes, at least one, and moved none.
    fn moved(&mut self, call: SystemCall, asked: usize, count: usize)
        ensures none { count ≡ 0 → 0 < asked → system_failed self.new ≡ Some (none_moved call) }
        ensures some { 0 < count → self.new ≡ self.old }
        ensures nothing { asked ≡ 0 → self.new ≡ self.old }
        ensures file { system_file self.new ≡ system_file self.old }
    {
        if count == 0 && asked > 0 {
            self.failed = Some(FailedCall::none_moved(call));
        }
    }

    // Reads as `read_some` does, and records nothing of the call.
    pub(crate) fn read_unrecorded(&self, at: u64, buffer: &mut [u8]) -> Result<usize, Stop>
        ensures { IfOk result (λ count. count ≤ length buffer.new) }
    {
        let Some(file) = &self.file else {
            return Ok(0);
        };
        match file.read_at(buffer, at) {
            Ok(count) => Ok(count),
            Err(error) => Err(stop_of(error.kind())),
        }
    }

    // Records the error of a call that neither reads nor writes.
    fn failing(&mut self, call: SystemCall, error: &io::Error) -> CallFailed
        ensures failed { system_failed self.new ≡ Some (failed_by call error.now) }
        ensures file { system_file self.new ≡ system_file self.old }
    {
        self.failed = Some(FailedCall::of(call, error));
        CallFailed
    }
}

impl RawFile for SystemFile {
    ghost use Rattle.file_disk.specs.Inner.SystemFile.{of_honest, system_passed_over, system_state, system_unsynced};

    ghost state = { system_state };

    ghost passed_over = { system_passed_over };

    ghost unsynced = { system_unsynced };

    ghost is_file = { λ file honest. of_honest file honest };

    ghost within = { λ file honest place lies. of_honest file honest };

    fn size(&self) -> Option<u64> {
        let Some(file) = &self.file else {
            return Some(0);
        };
        match file.metadata() {
            Ok(found) => Some(found.len()),
            Err(_) => None,
        }
    }

    fn read_some(&mut self, at: u64, buffer: &mut [u8]) -> Result<usize, Stop> {
        let Some(file) = &self.file else {
            return Ok(0);
        };
        match file.read_at(buffer, at) {
            Ok(count) => {
                self.moved(SystemCall::ReadAt, buffer.len(), count);
                Ok(count)
            }
            Err(error) => Err(self.stop(SystemCall::ReadAt, &error)),
        }
    }

    fn write_some(&mut self, at: u64, bytes: &[u8]) -> Result<usize, Stop> {
        let Some(file) = &self.file else {
            return Err(Stop::Failed);
        };
        match file.write_at(bytes, at) {
            Ok(count) => {
                self.moved(SystemCall::WriteAt, bytes.len(), count);
                Ok(count)
            }
            Err(error) => Err(self.stop(SystemCall::WriteAt, &error)),
        }
    }

    fn write_again(&mut self, at: u64, bytes: &[u8]) -> Result<usize, Stop> {
        let Some(file) = &self.file else {
            return Err(Stop::Failed);
        };
        match file.write_at(bytes, at) {
            Ok(count) => {
                self.moved(SystemCall::WriteAt, bytes.len(), count);
                Ok(count)
            }
            Err(error) => Err(self.stop(SystemCall::WriteAt, &error)),
        }
    }

    // The standard library makes this call and the next one again where a signal interrupts them.
    fn cut(&mut self, len: u64) -> Result<(), CallFailed> {
        let Some(file) = &self.file else {
            return Err(CallFailed);
        };
        match file.set_len(len) {
            Ok(()) => Ok(()),
            Err(error) => Err(self.failing(SystemCall::Cut, &error)),
        }
    }

    fn sync(&mut self) -> Result<(), CallFailed> {
        let Some(file) = &self.file else {
            return Ok(());
        };
        match file.sync_all() {
            Ok(()) => Ok(()),
            Err(error) => Err(self.failing(SystemCall::Sync, &error)),
        }
    }
}
