//! A disk over an open file.
ghost use Rattle.std.specs.Prelude.{◌≡◌, ◌↔◌, ◌+◌, ◌-◌, ◌<◌, ◌≤◌, ◌^◌, min, true, length, IfSome, IsTrue};
ghost use Rattle.tape_disk.specs.Disk.{Elapses, Same};
ghost use Rattle.file_disk.specs.Opening.{IsLeftWell};
ghost use Rattle.file_disk.specs.RawFile.{AddsNone, IsAsHonest, NoneOf, ReachesAll, ReachesStill};
ghost use Rattle.file_disk.specs.Inner.Doubts.{IsInDoubt, IsLookedAt, LieIn};
ghost use Rattle.file_disk.specs.Inner.Rested.{OnlyReadFile, Rested};

use crate::doubt::{Doubt, begun, settled};
use crate::looked::Looked;
use crate::raw::RawFile;
use crate::transfers::{read_all, write_all};
use crate::written::Written;
use std::marker::Model;
use tape_disk::{Disk, Failures};
use vtl_base::DevFault;

/// The greatest length of a file, in bytes: the system counts them in 63 bits (POSIX, `off_t` of 64 bits).
pub const MAX_FILE: u64 = 9_223_372_036_854_775_807;

// The length of a file, and whether the system gave it since a call last failed.
#[derive(Clone, Copy)]
struct Size {
    bytes: u64,
    is_known: bool,
}

/// A disk over an open file, honest where the file is. A short read or write is continued, an interrupted call is made
/// again, and every other error of the system is a counted failure. After a write, a cut or a sync that failed, the
/// system is asked for the length again; while it does not give the length, each call fails.
///
/// A sync of the system may pass over bytes: it returns Ok, though they never reached the device. So before each sync,
/// the disk writes again, as they stand, the bytes that the sync may pass over. After a sync that failed, these are the
/// bytes that were written since the last good sync. In a file that was just opened, they are the last open gate and
/// the bytes after the end gate. In a cartridge's side, they also include its first ten bytes; in an unfinished side,
/// they are all its bytes. If a sync failed after more than two ranges were written, or ranges that are not known, each
/// later sync fails.
#[derive(Drop)]
pub struct DiskOver<F: RawFile> {
    looked: Looked<F>,
    size: Size,
    failures: Failures,
    doubt: Doubt,
    written: Written,
}

impl<F: RawFile> Model for DiskOver<F> {
    ghost use Rattle.std.specs.Prelude.{◌≡◌, false, true, length};
    ghost use Rattle.tape_disk.specs.Failures.{failure_count};
    ghost use Rattle.file_disk.specs.OpenFile.{OpenFile, open_file_code};
    ghost use Rattle.file_disk.specs.Inner.Doubts.{IsInDoubt};

    ghost Value = { OpenFile F };

    ghost coded = { open_file_code F.code };

    ghost view = { λ d. record { file = d.looked.file; failures = failure_count d.failures } };

    ghost invariant = { λ d. (F.state d.looked.file).honest →
        (d.size.is_known ≡ true) × (d.size.bytes ≡ length (F.state d.looked.file).seen)
        × IsInDoubt d.doubt d.written (F.state d.looked.file).seen
        (F.passed_over d.looked.file) (F.unsynced d.looked.file) };
}

// The length that the system gives for a file. Where it gives none, the length is `last`, and counts as not known.
fn measured<F: RawFile>(file: &F, last: u64) -> Size
    ensures { (F.state file.now).honest →
        (result.is_known ≡ true) × (result.bytes ≡ length (F.state file.now).seen) }
{
    match file.size() {
        Some(bytes) => Size {
            bytes,
            is_known: true,
        },
        None => Size {
            bytes: last,
            is_known: false,
        },
    }
}

// Whether a file may have `count` bytes from place `at` on.
pub(crate) fn fits(at: u64, count: usize) -> bool
    ensures { IsTrue result ↔ (at + count < 2 ^ 63) }
{
    at <= MAX_FILE && count as u64 <= MAX_FILE - at
}

impl<F: RawFile> DiskOver<F> {
    /// Makes a disk over an open file, with no failure counted yet. No sync of the file may have failed before, and
    /// nothing may have been written since the last sync.
    pub fn new(file: F) -> DiskOver<F>
        requires reaches { (F.state file).honest → ReachesAll (F.passed_over file) }
        requires synced { (F.state file).honest → NoneOf (F.unsynced file) }
        ensures file { result.file ≡ file }
        ensures failures { result.failures ≡ 0 }
    {
        let size = measured(&file, 0);
        DiskOver {
            looked: Looked::new(file),
            size,
            failures: Failures::none(),
            doubt: Doubt::Nothing,
            written: Written::none(),
        }
    }

    /// Makes a disk over a file that was just opened for change, with no failure counted yet. Nothing is read or
    /// written. The first sync, write or cut then finds the bytes of an earlier process that may not be on the device,
    /// and writes them again. That process must have left the file as `IsLeftWell` says.
    pub fn opened(file: F) -> DiskOver<F>
        requires { (F.state file).honest →
            IsLeftWell (F.state file).seen (F.passed_over file) (F.unsynced file) }
        ensures file { result.file ≡ file }
        ensures failures { result.failures ≡ 0 }
    {
        let size = measured(&file, 0);
        DiskOver {
            looked: Looked::new(file),
            size,
            failures: Failures::none(),
            doubt: Doubt::Opened,
            written: Written::none(),
        }
    }

    /// The open file over which this disk was made.
    pub fn file(&self) -> &F
        ensures { result.now ≡ self.now.file }
    {
        &self.looked.file
    }

    // Asks for the length where it is not known. Returns whether it is known then.
    fn is_measured(&mut self) -> bool
        ensures same { self.new ≡ self.old }
        ensures known { (F.state self.old.file).honest → result ≡ true }
    {
        if !self.size.is_known {
            self.size = measured(&self.looked.file, self.size.bytes);
        }
        self.size.is_known
    }

    // Refuses a call and counts a failure. A read of no bytes moves the clock of the file's state on.
    fn refuse(&mut self) -> DevFault
        ensures honesty { IsAsHonest (F.state self.old.file) (F.state self.new.file) }
        ensures time { (F.state self.old.file).honest →
            Elapses (F.state self.old.file) (F.state self.new.file) }
        ensures same { (F.state self.old.file).honest →
            Same (F.state self.old.file) (F.state self.new.file) }
        ensures count { self.new.failures ≡ self.old.failures + 1 }
        ensures reported { result.failures ≡ min self.new.failures (2 ^ 64 - 1) }
    {
        let _ = self.looked.file.read_some(0, &mut []);
        self.failures.rise()
    }

    // Before a write or a cut: where the file was just opened, reads what it holds, and writes again what a sync may
    // pass over. Returns what a sync may pass over then, and what was written since the last good sync. None where the
    // file could not be read.
    fn begin(&mut self) -> Option<(Doubt, Written)>
        ensures failures { self.new.failures ≡ self.old.failures }
        ensures rested { Rested F.state F.passed_over F.unsynced self.old.file self.new.file }
        ensures known { (F.state self.old.file).honest → IfSome result (λ known. IsLookedAt known.0
            × IsInDoubt known.0 known.1 (F.state self.new.file).seen
            (F.passed_over self.new.file) (F.unsynced self.new.file)) }
    {
        let (doubt, written) = begun(&mut self.looked, self.doubt, self.written, self.size.bytes);
        self.doubt = doubt;
        self.written = written;
        match doubt {
            Doubt::Opened => None,
            _ => Some((doubt, written)),
        }
    }

    // Writes again what a sync may pass over. Returns what was written since the last good sync. None where a call
    // failed, or where it is not known what a sync may pass over.
    fn heal(&mut self) -> Option<Written>
        ensures failures { self.new.failures ≡ self.old.failures }
        ensures rested { Rested F.state F.passed_over F.unsynced self.old.file self.new.file }
        ensures healed { (F.state self.old.file).honest → IfSome result (λ written.
            ReachesAll (F.passed_over self.new.file) × LieIn written (F.unsynced self.new.file)) }
    {
        let (doubt, written) = settled(&mut self.looked, self.doubt, self.written, self.size.bytes);
        self.doubt = doubt;
        self.written = written;
        match doubt {
            Doubt::Nothing => Some(written),
            _ => None,
        }
    }
}

impl<F: RawFile> Disk for DiskOver<F> {
    ghost use Rattle.tape_disk.specs.Faults.{is_disk_over};
    ghost use Rattle.file_disk.specs.OpenFile.{CountsOnce, file_disk_state};

    ghost state = { file_disk_state F.state };

    ghost effect = { CountsOnce };

    ghost is_disk = { λ disk honest. is_disk_over (F.state disk.file) disk.failures
        (F.is_file disk.file honest) };

    fn len(&self) -> u64 {
        self.size.bytes
    }

    fn read_at(&mut self, at: u64, buffer: &mut [u8]) -> Result<(), DevFault> {
        if !self.is_measured() || !fits(at, buffer.len()) {
            return Err(self.refuse());
        }
        match read_all(&mut self.looked.file, at, buffer) {
            Ok(()) => Ok(()),
            Err(_) => Err(self.failures.rise()),
        }
    }

    fn write_at(&mut self, at: u64, bytes: &[u8]) -> Result<(), DevFault> {
        if !self.is_measured() || !fits(at, bytes.len()) {
            return Err(self.refuse());
        }
        let Some((doubt, written)) = self.begin() else {
            return Err(self.refuse());
        };
        self.doubt = doubt;
        self.written = written.noted(at, at + bytes.len() as u64);
        match write_all(&mut self.looked.file, at, bytes) {
            Ok(()) => {
                self.size.bytes = self.size.bytes.max(at + bytes.len() as u64);
                Ok(())
            }
            Err(_) => {
                self.size = measured(&self.looked.file, self.size.bytes);
                Err(self.failures.rise())
            }
        }
    }

    fn cut(&mut self, len: u64) -> Result<(), DevFault> {
        if !self.is_measured() {
            return Err(self.refuse());
        }
        let Some((doubt, written)) = self.begin() else {
            return Err(self.refuse());
        };
        self.doubt = doubt;
        self.written = written;
        match self.looked.file.cut(len) {
            Ok(()) => {
                self.size.bytes = len;
                Ok(())
            }
            Err(_) => {
                self.size = measured(&self.looked.file, self.size.bytes);
                Err(self.failures.rise())
            }
        }
    }

    fn sync(&mut self) -> Result<(), DevFault> {
        if !self.is_measured() {
            return Err(self.refuse());
        }
        let Some(written) = self.heal() else {
            return Err(self.refuse());
        };
        match self.looked.file.sync() {
            Ok(()) => {
                self.doubt = Doubt::Nothing;
                self.written = Written::none();
                Ok(())
            }
            Err(_) => {
                self.doubt = Doubt::SyncFailed;
                self.written = written;
                self.size = measured(&self.looked.file, self.size.bytes);
                Err(self.failures.rise())
            }
        }
    }
}
