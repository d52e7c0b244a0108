//! The log of the calls of a disk in memory.
ghost use Rattle.std.specs.Prelude.{◌≡◌, ◌-◌, length, OnOk, OnErr, IfOk};
ghost use Rattle.tape_disk.specs.Disk.{WriteAt, CutAt, SyncAll};
ghost use Rattle.tape_disk.specs.CallLog.{new_log, idled, logged, with_call, syncs_of, landed, torn};

use crate::count::Count;
use crate::overwrite::overwrite;
use std::alloc::{AllocError, Global};
use std::collections::LinkedList;

/// A logged call: one that changed the disk or made it safe. `idle` is how many calls that did neither came between the
/// logged call before this one and this one.
#[derive(Drop)]
pub(crate) enum Call {
    Wrote {
        idle: Count,
        at: u64,
        bytes: Vec<u8>,
    },
    CutTo {
        idle: Count,
        len: u64,
    },
    Synced {
        idle: Count,
    },
}

/// The bytes that the disk began with, and each logged call since, the newest first. `idle` is how many calls came
/// after the newest logged call.
#[derive(Drop)]
pub(crate) struct Log {
    alloc: Global,
    pub(crate) base: Vec<u8>,
    pub(crate) calls: LinkedList<Call>,
    pub(crate) idle: Count,
}

impl Call {
    ghost use Rattle.tape_disk.specs.Log.{logged_call};

    fn copy(&self, alloc: Global) -> Result<Call, AllocError>
        ensures { IfOk result (λ copy. logged_call copy ≡ logged_call self.now) }
    {
        Ok(match self {
            Call::Wrote { idle, at, bytes } => Call::Wrote {
                idle: idle.copy(),
                at: *at,
                bytes: bytes.to_vec(alloc)?,
            },
            Call::CutTo { idle, len } => Call::CutTo {
                idle: idle.copy(),
                len: *len,
            },
            Call::Synced { idle } => Call::Synced { idle: idle.copy() },
        })
    }
}

impl Log {
    ghost use Rattle.tape_disk.specs.Log.{logged_call, log_of};

    pub(crate) fn new(alloc: Global, base: Vec<u8>) -> Log
        ensures { log_of result ≡ new_log base.items }
    {
        Log {
            alloc,
            base,
            calls: LinkedList::new(alloc),
            idle: Count::new(),
        }
    }

    /// Counts a call that changed nothing.
    pub(crate) fn rest(&mut self)
        ensures { log_of self.new ≡ idled (log_of self.old) }
    {
        self.idle = self.idle.after();
    }

    /// Logs a write.
    pub(crate) fn wrote(&mut self, at: u64, bytes: &[u8]) -> Result<(), AllocError>
        ensures ok { OnOk result (log_of self.new ≡
            logged (WriteAt at bytes.now) (log_of self.old)) }
        ensures err { OnErr result (log_of self.new ≡ log_of self.old) }
    {
        let bytes = bytes.to_vec(self.alloc)?;
        let idle = self.idle.copy();
        self.keep(Call::Wrote { idle, at, bytes })
    }

    /// Logs a cut.
    pub(crate) fn cut_to(&mut self, len: u64) -> Result<(), AllocError>
        ensures ok { OnOk result (log_of self.new ≡
            logged (CutAt len) (log_of self.old)) }
        ensures err { OnErr result (log_of self.new ≡ log_of self.old) }
    {
        let idle = self.idle.copy();
        self.keep(Call::CutTo { idle, len })
    }

    /// Logs a sync.
    pub(crate) fn synced(&mut self) -> Result<(), AllocError>
        ensures ok { OnOk result (log_of self.new ≡
            logged SyncAll (log_of self.old)) }
        ensures err { OnErr result (log_of self.new ≡ log_of self.old) }
    {
        let idle = self.idle.copy();
        self.keep(Call::Synced { idle })
    }

    fn keep(&mut self, call: Call) -> Result<(), AllocError>
        ensures ok { OnOk result (log_of self.new ≡ with_call (logged_call call) (log_of self.old)) }
        ensures err { OnErr result (log_of self.new ≡ log_of self.old) }
    {
        self.calls.push_front(call)?;
        self.idle = Count::new();
        Ok(())
    }

    pub(crate) fn copy(&self) -> Result<Log, AllocError>
        ensures { IfOk result (λ copy. log_of copy ≡ log_of self.now) }
    {
        let base = self.base.to_vec(self.alloc)?;
        let mut calls = LinkedList::new(self.alloc);
        for call in self.calls.iter() {
            calls.push_back(call.copy(self.alloc)?)?;
        }
        Ok(Log {
            alloc: self.alloc,
            base,
            calls,
            idle: self.idle.copy(),
        })
    }

    pub(crate) fn syncs(&self) -> u64
        ensures { result ≡ syncs_of (log_of self.now).calls }
    {
        self.calls
            .iter()
            .filter(|call| matches!(call, Call::Synced { .. }))
            .count() as u64
    }

    /// The bytes that a crash leaves. Of the bytes written since the last sync the first `keep` were stored; each of
    /// the others is `fill`.
    pub(crate) fn torn(self, keep: u64, fill: u8) -> Result<Vec<u8>, AllocError>
        ensures { IfOk result (λ image.
            image.items ≡ torn self.base.items keep fill (log_of self).calls) }
    {
        let mut syncs = self.syncs();
        let mut left = keep;
        let Log {
            base: mut image,
            mut calls,
            ..
        } = self;
        while let Some(call) = calls.pop_back() {
            match call {
                Call::Wrote { at, mut bytes, .. } => {
                    if syncs == 0 {
                        land(&mut bytes, &mut left, fill);
                    }
                    overwrite(&mut image, at as usize, &bytes)?;
                }
                Call::CutTo { len, .. } => image.truncate(len as usize),
                Call::Synced { .. } => syncs -= 1,
            }
        }
        Ok(image)
    }
}

// Keeps the first `left` of these bytes, and sets each of the others to `fill`. `left` falls by the number of bytes
// kept.
fn land(bytes: &mut Vec<u8>, left: &mut u64, fill: u8)
    ensures bytes { bytes.new.items ≡ landed left.old fill bytes.old.items }
    ensures left { left.new ≡ left.old - length bytes.old.items }
{
    let lands = bytes.len().min(*left as usize);
    bytes[lands..].fill(fill);
    *left -= lands as u64;
}
