//! A file for tests, in memory, of a system that forgets what a failed sync left: it takes for
//! written what never reached the device.
ghost use Rattle.std.specs.Prelude.{◌≡◌};
ghost use Rattle.tape_disk.specs.CallLog.{idled};
ghost use Rattle.tape_disk.specs.MemDisk.{mem_log};

use file_disk::{CallFailed, RawFile, Stop};
use tape_disk::{Disk, MemDisk};

/// A file for tests, over a disk in memory. Its first sync fails. Each later one answers Ok, and makes
/// nothing sure while some of the bytes that it had then were not written again.
#[derive(Drop)]
pub struct ForgetfulFile {
    disk: MemDisk,
    has_failed: bool,
    // the bytes that are taken for written
    from: u64,
    to: u64,
    // of the bytes that were written since the last good sync the last ones
    since: u64,
    until: u64,
}

impl ForgetfulFile {
    ghost use Rattle.std.specs.Prelude.{◌⊎◌, ◌<◌, ◌≤◌, ℕ};
    ghost use Rattle.test_files.specs.Forgetful.{forgetful_disk, forgetful_passed_over, forgetful_unsynced};
    ghost use Rattle.file_disk.specs.RawFile.{NoneOf, ReachesAll};

    /// A file that holds what the disk does.
    pub fn new(disk: MemDisk) -> ForgetfulFile
        ensures disk { forgetful_disk result ≡ disk }
        ensures reaches { ReachesAll (forgetful_passed_over result) }
        ensures synced { NoneOf (forgetful_unsynced result) }
    {
        ForgetfulFile {
            disk,
            has_failed: false,
            from: 0,
            to: 0,
            since: 0,
            until: 0,
        }
    }

    /// The disk below.
    pub fn disk(&self) -> &MemDisk
        ensures { result.now ≡ forgetful_disk self.now }
    {
        &self.disk
    }

    // The bytes from a place to another were written: a sync reaches them. Of bytes in the middle
    // those behind them count as written, too.
    fn written(&mut self, at: u64, end: u64)
        ensures disk { self.new.disk ≡ self.old.disk }
        ensures from { self.old.from ≤ self.new.from }
        ensures to { self.new.to ≤ self.old.to }
        ensures again { (place : ℕ) → self.new.from ≤ place → place < self.new.to → at ≤ place → end ≤ place }
        ensures noted { (place : ℕ) → self.new.since ≤ place → place < self.new.until →
            ((self.old.since ≤ place) × (place < self.old.until)) ⊎ ((at ≤ place) × (place < end)) }
    {
        self.note(at, end);
        if at <= self.from {
            self.from = self.from.max(end);
        } else {
            self.to = self.to.min(at);
        }
    }

    // Bytes that touch those before them, or lie among them, are kept with them.
    fn note(&mut self, at: u64, end: u64)
        ensures disk { self.new.disk ≡ self.old.disk }
        ensures from { self.new.from ≡ self.old.from }
        ensures to { self.new.to ≡ self.old.to }
        ensures noted { (place : ℕ) → self.new.since ≤ place → place < self.new.until →
            ((self.old.since ≤ place) × (place < self.old.until)) ⊎ ((at ≤ place) × (place < end)) }
    {
        if self.since <= at && at <= self.until {
            self.until = self.until.max(end);
        } else {
            self.since = at;
            self.until = end;
        }
    }

    // A call that does nothing: the disk is asked for no bytes, which moves its clock on.
    fn rest(&mut self)
        ensures log { mem_log self.new.disk ≡ idled (mem_log self.old.disk) }
        ensures from { self.new.from ≡ self.old.from }
        ensures to { self.new.to ≡ self.old.to }
        ensures since { self.new.since ≡ self.old.since }
        ensures until { self.new.until ≡ self.old.until }
    {
        let _ = self.disk.read_at(0, &mut []);
    }
}

impl RawFile for ForgetfulFile {
    ghost use Rattle.tape_disk.specs.CallLog.{is_disk};
    ghost use Rattle.test_files.specs.Forgetful.{forgetful_file_state, forgetful_log, forgetful_passed_over, forgetful_unsynced, forgetful_within};

    ghost state = { forgetful_file_state };

    ghost passed_over = { forgetful_passed_over };

    ghost unsynced = { forgetful_unsynced };

    ghost is_file = { λ file honest. is_disk (forgetful_log file) 0 };

    ghost within = { λ file honest. forgetful_within file };

    fn size(&self) -> Option<u64> {
        Some(self.disk.len())
    }

    fn read_some(&mut self, at: u64, buffer: &mut [u8]) -> Result<usize, Stop> {
        let place = self.disk.len().min(at);
        let count = buffer.len().min((self.disk.len() - place) as usize);
        match self.disk.read_at(place, &mut buffer[..count]) {
            Ok(()) => Ok(count),
            Err(_) => Err(Stop::Failed),
        }
    }

    fn write_some(&mut self, at: u64, bytes: &[u8]) -> Result<usize, Stop> {
        match self.disk.write_at(at, bytes) {
            Ok(()) => {
                self.written(at, at.saturating_add(bytes.len() as u64));
                Ok(bytes.len())
            }
            Err(_) => Err(Stop::Failed),
        }
    }

    // The bytes stand there: a sync reaches them now.
    fn write_again(&mut self, at: u64, bytes: &[u8]) -> Result<usize, Stop> {
        self.rest();
        self.written(at, at.saturating_add(bytes.len() as u64));
        Ok(bytes.len())
    }

    fn cut(&mut self, len: u64) -> Result<(), CallFailed> {
        self.disk.cut(len).map_err(|_| CallFailed)
    }

    fn sync(&mut self) -> Result<(), CallFailed> {
        if !self.has_failed {
            self.has_failed = true;
            self.from = self.since;
            self.to = self.until;
            self.rest();
            return Err(CallFailed);
        }
        if self.from < self.to.min(self.disk.len()) {
            self.since = self.until;
            self.rest();
            return Ok(());
        }
        match self.disk.sync() {
            Ok(()) => {
                self.since = self.until;
                Ok(())
            }
            Err(_) => Err(CallFailed),
        }
    }
}
