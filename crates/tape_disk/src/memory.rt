//! A disk in memory, which logs its calls, and so knows what a crash may leave.
ghost use Rattle.std.specs.Prelude.{◌≡◌, ◌+◌, ◌-◌, ◌^◌, min, [], OnOk, OnErr, IfOk};
ghost use Rattle.tape_disk.specs.CallLog.{CallLog, IsImage, bytes_after, syncs_of, torn, new_log, idled, logged, log_state, is_disk};
ghost use Rattle.tape_disk.specs.Disk.{Only, WriteAt, overwritten};
ghost use Rattle.tape_disk.specs.Log.{log_of};

use crate::disk::Disk;
use crate::failures::Failures;
use crate::log::Log;
use crate::overwrite::overwrite;
use std::alloc::{AllocError, Global};
use vtl_base::{DevFault, NoMemory};

/// A disk in memory, which is always honest. Besides the bytes that reads return, it has a log of the bytes that it
/// began with and of all bytes written since. So bytes that are written once are held twice, and each byte that is
/// written over another needs one byte more. A call of a `Disk` method for which memory runs out is a counted failure,
/// and changes nothing.
#[derive(Drop)]
pub struct MemDisk {
    alloc: Global,
    bytes: Vec<u8>,
    log: Log,
    failures: Failures,
    // How many bytes a single read asked for, at most.
    widest: usize,
    ghost replays: { bytes.items ≡ bytes_after (log_of log).base (log_of log).calls },
}

impl MemDisk {
    ghost use Rattle.tape_disk.specs.MemDisk.{mem_log, mem_failures, mem_widest};

    /// Makes a disk without bytes.
    pub fn new(alloc: Global) -> MemDisk
        ensures { (mem_log result ≡ new_log []) × (mem_failures result ≡ 0) × (mem_widest result ≡ 0) }
    {
        MemDisk {
            alloc,
            bytes: Vec::new(alloc),
            log: Log::new(alloc, Vec::new(alloc)),
            failures: Failures::none(),
            widest: 0,
        }
    }

    /// Makes a disk with these bytes, all of them safe.
    pub fn from_bytes(alloc: Global, bytes: &[u8]) -> Result<MemDisk, NoMemory>
        ensures { IfOk result (λ disk. (mem_log disk ≡ new_log bytes.now) × (mem_failures disk ≡ 0)
            × (mem_widest disk ≡ 0)) }
    {
        MemDisk::holding(alloc, bytes.to_vec(alloc)?)
    }

    fn holding(alloc: Global, bytes: Vec<u8>) -> Result<MemDisk, NoMemory>
        ensures { IfOk result (λ disk. (mem_log disk ≡ new_log bytes.items) × (mem_failures disk ≡ 0)
            × (mem_widest disk ≡ 0)) }
    {
        let base = bytes.to_vec(alloc)?;
        Ok(MemDisk {
            alloc,
            bytes,
            log: Log::new(alloc, base),
            failures: Failures::none(),
            widest: 0,
        })
    }

    /// Copies the disk, with its log, its count of failures and the size of its widest read.
    pub fn copy(&self) -> Result<MemDisk, NoMemory>
        ensures { IfOk result (λ copy.
            (mem_log copy ≡ mem_log self.now) × (mem_failures copy ≡ mem_failures self.now)
            × (mem_widest copy ≡ mem_widest self.now)) }
    {
        Ok(MemDisk {
            alloc: self.alloc,
            bytes: self.bytes.to_vec(self.alloc)?,
            log: self.log.copy()?,
            failures: self.failures.copy(),
            widest: self.widest,
        })
    }

    /// The bytes that reads return.
    pub fn bytes(&self) -> &[u8]
        ensures { result.now ≡ bytes_after (mem_log self.now).base (mem_log self.now).calls }
    {
        &self.bytes
    }

    /// How many syncs have returned Ok since the disk was made.
    pub fn syncs(&self) -> u64
        ensures { result ≡ syncs_of (mem_log self.now).calls }
    {
        self.log.syncs()
    }

    /// How many bytes the widest read asked for since the disk was made; 0 where nothing was read.
    pub fn widest_read(&self) -> usize
        ensures { result ≡ mem_widest self.now }
    {
        self.widest
    }

    /// Returns a disk that a crash may leave. Of the bytes written since the last sync, in the order of the writes, the
    /// first `keep` were stored; each of the others is `fill`. Each cut since that sync was carried out.
    pub fn crash(self, keep: u64, fill: u8) -> Result<MemDisk, NoMemory>
        ensures image { IfOk result (λ disk.
            (mem_log disk ≡ new_log (torn (mem_log self).base keep fill (mem_log self).calls))
            × (mem_failures disk ≡ 0)) }
        ensures widest { IfOk result (λ disk. mem_widest disk ≡ 0) }

        // This is one of the images that a crash may leave, and from then on the only one.
        ensures allowed { IsImage (mem_log self).base (mem_log self).calls
            (torn (mem_log self).base keep fill (mem_log self).calls) }
        ensures only { IfOk result (λ disk.
            Only (torn (mem_log self).base keep fill (mem_log self).calls)
            (IsImage (mem_log disk).base (mem_log disk).calls)) }
    {
        let alloc = self.alloc;
        let image = self.log.torn(keep, fill)?;
        MemDisk::holding(alloc, image)
    }

    // Counts a failure of a call for which memory ran out, and returns the fault.
    fn fail(&mut self) -> DevFault
        ensures log { mem_log self.new ≡ idled (mem_log self.old) }
        ensures count { mem_failures self.new ≡ mem_failures self.old + 1 }
        ensures reported { result.failures ≡ min (mem_failures self.new) (2 ^ 64 - 1) }
        ensures widest { mem_widest self.new ≡ mem_widest self.old }
    {
        self.log.rest();
        self.failures.rise()
    }
}

// Logs a write, and then writes the bytes.
fn write(bytes: &mut Vec<u8>, log: &mut Log, at: u64, new: &[u8]) -> Result<(), AllocError>
    ensures ok { OnOk result (
        (log_of log.new ≡ logged (WriteAt at new.now) (log_of log.old))
        × (bytes.new.items ≡ overwritten at new.now bytes.old.items)) }
    ensures err { OnErr result (
        (log_of log.new ≡ log_of log.old) × (bytes.new.items ≡ bytes.old.items)) }
{
    let place = at as usize;
    bytes.reserve(new.len().saturating_sub(bytes.len().saturating_sub(place)))?;
    log.wrote(at, new)?;
    match overwrite(bytes, place, new) {
        Ok(()) => Ok(()),
        Err(_) => unreachable!(),
    }
}

impl Disk for MemDisk {
    ghost use Rattle.tape_disk.specs.MemDisk.{MemEffect, mem_log, mem_failures};

    ghost state = { λ disk. log_state (mem_log disk) (mem_failures disk) };

    ghost effect = { MemEffect };

    ghost is_disk = { λ disk honest. is_disk (mem_log disk) (mem_failures disk) };

    fn len(&self) -> u64 {
        self.bytes.len() as u64
    }

    fn read_at(&mut self, at: u64, buffer: &mut [u8]) -> Result<(), DevFault> {
        let place = at as usize;
        buffer.copy_from_slice(&self.bytes[place..place + buffer.len()]);
        self.widest = self.widest.max(buffer.len());
        self.log.rest();
        Ok(())
    }

    fn write_at(&mut self, at: u64, bytes: &[u8]) -> Result<(), DevFault> {
        match write(&mut self.bytes, &mut self.log, at, bytes) {
            Ok(()) => Ok(()),
            Err(_) => Err(self.fail()),
        }
    }

    fn cut(&mut self, len: u64) -> Result<(), DevFault> {
        match self.log.cut_to(len) {
            Ok(()) => {
                self.bytes.truncate(len as usize);
                Ok(())
            }
            Err(_) => Err(self.fail()),
        }
    }

    fn sync(&mut self) -> Result<(), DevFault> {
        match self.log.synced() {
            Ok(()) => Ok(()),
            Err(_) => Err(self.fail()),
        }
    }
}
