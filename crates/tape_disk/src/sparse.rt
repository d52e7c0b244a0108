//! A disk for sides that are longer than memory: it stores written bytes, and has 00h elsewhere.
ghost use Rattle.std.specs.Prelude.{◌≡◌, ◌≢◌, ◌+◌, ◌≤◌, ◌<◌, ◌^◌, ℕ, true, false, length, OnOk, OnErr, slice_index_or};
ghost use Rattle.tape_disk.specs.SparseBytes.{byte_in, IsOutside};

use crate::disk::Disk;
use crate::failures::Failures;
use std::alloc::{AllocError, Global};
use std::collections::BTreeMap;
use vtl_base::DevFault;

/// A disk of any length, which allocates memory only for bytes that were written and are not 00h. It is never honest:
/// no contract says what a crash leaves of it. A read past the end is a counted failure; so is a write that would make
/// the disk longer than 2^64 - 1 bytes, and a call for which memory runs out.
#[derive(Drop)]
pub struct SparseDisk {
    // The bytes by their places.
    written: BTreeMap<u64, u8>,
    len: u64,
    failures: Failures,
    // There are no bytes after the end.
    ghost ends: { (place : ℕ) → len ≤ place → byte_in written place ≡ 0 },
}

impl SparseDisk {
    ghost use Rattle.tape_disk.specs.SparseDisk.{sparse_byte, sparse_failures, sparse_len};

    /// Makes a disk without bytes.
    pub fn new(alloc: Global) -> SparseDisk
        ensures bytes { (place : ℕ) → sparse_byte result place ≡ 0 }
        ensures len { sparse_len result ≡ 0 }
        ensures failures { sparse_failures result ≡ 0 }
    {
        SparseDisk {
            written: BTreeMap::new(alloc),
            len: 0,
            failures: Failures::none(),
        }
    }

    /// The byte at offset `place` in bytes: the one that was written there last, else 00h. A byte that was cut off
    /// counts as not written.
    pub fn byte_at(&self, place: u64) -> u8
        ensures { result ≡ sparse_byte self.now place }
    {
        byte_in(&self.written, place)
    }

    // Whether `count` bytes from a place on lie inside the disk.
    fn has(&self, at: u64, count: usize) -> bool
        ensures inside { result ≡ true →
            (at + count ≤ sparse_len self.now) × (at + count < 2 ^ 64) }
        ensures outside { result ≡ false → sparse_len self.now < at + count }
    {
        let len = self.len;
        match at.checked_add(count as u64) {
            Some(end) => end <= len,
            None => false,
        }
    }
}

fn byte_in(written: &BTreeMap<u64, u8>, place: u64) -> u8
    ensures { result ≡ byte_in written.now place }
{
    match written.get(&place) {
        Some(byte) => *byte,
        None => 0,
    }
}

// Fills the buffer with the bytes from a place on.
fn fill(written: &BTreeMap<u64, u8>, at: u64, buffer: &mut [u8])
    requires { at + length buffer.old < 2 ^ 64 }
    ensures size { length buffer.new ≡ length buffer.old }
    ensures bytes { (i other : ℕ) → i < length buffer.old →
        slice_index_or buffer.new i other ≡ byte_in written.now (at + i) }
{
    for i in 0..buffer.len() {
        buffer[i] = byte_in(written, at + i as u64);
    }
}

// Sets the byte at `place`. `is_new` must be true only where that byte is 00h.
fn set(
    written: &mut BTreeMap<u64, u8>,
    is_new: bool,
    place: u64,
    byte: u8,
) -> Result<(), AllocError>
    requires { is_new ≡ true → byte_in written.old place ≡ 0 }
    ensures there { OnOk result (byte_in written.new place ≡ byte) }
    ensures elsewhere { (other : ℕ) → other ≢ place →
        byte_in written.new other ≡ byte_in written.old other }
{
    if byte != 0 {
        written.insert(place, byte)?;
    } else if !is_new {
        let _ = written.remove(&place);
    }
    Ok(())
}

// Sets the bytes from byte `at` on. `are_new` must be true only where all bytes from there on are 00h. Where memory
// runs out, some of the bytes may have been set.
fn put(
    written: &mut BTreeMap<u64, u8>,
    are_new: bool,
    at: u64,
    bytes: &[u8],
) -> Result<(), AllocError>
    requires new { are_new ≡ true → (place : ℕ) → at ≤ place → byte_in written.old place ≡ 0 }
    requires fits { at + length bytes.now < 2 ^ 64 }
    ensures there { OnOk result ((i other : ℕ) → i < length bytes.now →
        byte_in written.new (at + i) ≡ slice_index_or bytes.now i other) }
    ensures elsewhere { (place : ℕ) → IsOutside at (length bytes.now) place →
        byte_in written.new place ≡ byte_in written.old place }
{
    for i in 0..bytes.len() {
        set(written, are_new, at + i as u64, bytes[i])?;
    }
    Ok(())
}

// Removes the bytes from byte `len` on. After an error all bytes are as before.
fn drop_from(written: &mut BTreeMap<u64, u8>, len: u64) -> Result<(), AllocError>
    ensures gone { OnOk result ((place : ℕ) → len ≤ place → byte_in written.new place ≡ 0) }
    ensures before { (place : ℕ) → place < len →
        byte_in written.new place ≡ byte_in written.old place }
    ensures err { OnErr result ((place : ℕ) →
        byte_in written.new place ≡ byte_in written.old place) }
{
    let _ = written.split_off(&len)?;
    Ok(())
}

impl Disk for SparseDisk {
    ghost use Rattle.tape_disk.specs.SparseDisk.{SparseEffect, sparse_state};

    ghost state = { sparse_state };

    ghost effect = { SparseEffect };

    ghost is_disk = { λ disk honest. absurd honest };

    fn len(&self) -> u64 {
        self.len
    }

    fn read_at(&mut self, at: u64, buffer: &mut [u8]) -> Result<(), DevFault> {
        if !self.has(at, buffer.len()) {
            return Err(self.failures.rise());
        }
        fill(&self.written, at, buffer);
        Ok(())
    }

    fn write_at(&mut self, at: u64, bytes: &[u8]) -> Result<(), DevFault> {
        let Some(end) = at.checked_add(bytes.len() as u64) else {
            return Err(self.failures.rise());
        };
        let are_new = at >= self.len;
        self.len = self.len.max(end);
        match put(&mut self.written, are_new, at, bytes) {
            Ok(()) => Ok(()),
            Err(_) => Err(self.failures.rise()),
        }
    }

    fn cut(&mut self, len: u64) -> Result<(), DevFault> {
        match drop_from(&mut self.written, len) {
            Ok(()) => {
                self.len = self.len.min(len);
                Ok(())
            }
            Err(_) => Err(self.failures.rise()),
        }
    }

    fn sync(&mut self) -> Result<(), DevFault> {
        Ok(())
    }
}
