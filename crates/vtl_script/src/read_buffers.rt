//! The bytes of a script that were read and not yet taken up, in a buffer that is filled with zeros only as it grows.
ghost use Rattle.std.specs.Prelude.{◌≡◌, ◌<◌, ◌≤◌, ◌+◌, ◌-◌, ◌⊎◌, [], length, take, drop, vec_len, Some, Ok, IfErr, OnOk};
ghost use Rattle.std.specs.Io.KnownBytes.{Consumes, IsAtEnd};
ghost use Rattle.vtl_base.specs.declared.limits.TheConstants.{LINE_BYTES};
ghost use Rattle.vtl_script.specs.declared.read_buffers.TheConstants.{MOST_BYTES};
ghost use Rattle.vtl_script.specs.Inner.Reading.{part, bytes_read, BringsBytes};

use crate::faults::ScriptFault;
use crate::interruptions::is_interrupted;
use std::alloc::{AllocError, Global};
use std::io::Read;
use std::marker::Model;
use vtl_base::limits::LINE_BYTES;

// The bytes of a buffer that no line has outgrown.
const FIRST_BYTES: usize = 65_536;

// The bytes of a buffer behind a line that has: a longest line, and the byte that ends it or is one too many.
const MOST_BYTES: usize = LINE_BYTES + 1;

/// Bytes that were read and not yet taken up: those of `buffer` from index `start` to before index `filled`. A contract
/// sees them as a list.
#[derive(Drop)]
pub struct ReadBuffer {
    buffer: Vec<u8>,
    start: usize,
    filled: usize,
}

impl Model for ReadBuffer {
    ghost use Rattle.std.specs.Prelude.{ℕ, List, ◌≤◌, vec_len};
    ghost use Rattle.vtl_script.specs.declared.read_buffers.TheConstants.{MOST_BYTES};
    ghost use Rattle.vtl_script.specs.Inner.Reading.{part};

    ghost Value = { List ℕ };

    ghost view = { λ b. part b.start b.filled b.buffer.items };

    ghost invariant = { λ b. (b.start ≤ b.filled) × (b.filled ≤ vec_len b.buffer) × (vec_len b.buffer ≤ MOST_BYTES) };
}

// Makes one read into this slice. Returns how many bytes came, or None where the read was interrupted.
fn read_once<R: Read>(reader: &mut R, slice: &mut [u8]) -> Result<Option<usize>, ScriptFault>
    requires { 0 < length slice.old }
    ensures taken { Consumes (R.remaining reader.old) (R.remaining reader.new)
        (take (bytes_read result) slice.new) }
    ensures within { bytes_read result ≤ length slice.new }
    ensures end { result ≡ Ok (Some 0) → IsAtEnd (R.remaining reader.new) }
    ensures fault { IfErr result (λ fault. fault ≡ ScriptFault.ReadFault) }
{
    match reader.read(slice) {
        Ok(count) => Ok(Some(count)),
        Err(e) if is_interrupted(e.kind()) => Ok(None),
        Err(_) => Err(ScriptFault::ReadFault),
    }
}

// Makes one read into `buffer`, after its first `filled` bytes. Returns how many bytes came, or None where the read was
// interrupted.
fn read_behind<R: Read>(
    reader: &mut R,
    buffer: &mut [u8],
    filled: usize,
) -> Result<Option<usize>, ScriptFault>
    requires { filled < length buffer.old }
    ensures front { take filled buffer.new ≡ take filled buffer.old }
    ensures taken { Consumes (R.remaining reader.old) (R.remaining reader.new)
        (take (bytes_read result) (drop filled buffer.new)) }
    ensures within { filled + bytes_read result ≤ length buffer.new }
    ensures end { result ≡ Ok (Some 0) → IsAtEnd (R.remaining reader.new) }
    ensures fault { IfErr result (λ fault. fault ≡ ScriptFault.ReadFault) }
{
    read_once(reader, &mut buffer[filled..])
}

// How many bytes a read gave.
fn count(outcome: &Result<Option<usize>, ScriptFault>) -> usize
    ensures { result ≡ bytes_read outcome.now }
{
    match outcome {
        Ok(Some(count)) => *count,
        Ok(None) | Err(_) => 0,
    }
}

// Moves the `count` bytes from `start` on to the front. At least as many bytes must stand before them.
fn move_down(bytes: &mut [u8], start: usize, count: usize)
    requires before { count ≤ start }
    requires within { start + count ≤ length bytes.old }
    ensures moved { take count bytes.new ≡ take count (drop start bytes.old) }
    ensures len { length bytes.new ≡ length bytes.old }
{
    let (front, behind) = bytes.split_at_mut(start);
    front[..count].copy_from_slice(&behind[..count]);
}

// Moves the bytes from `start` up to `filled` to the front, if at least as many bytes stand before them, or if there is
// no room after them. In the second case those before them are moved too. Returns where the bytes begin then.
fn close_up(buffer: &mut Vec<u8>, start: usize, filled: usize) -> usize
    requires start { start ≤ filled }
    requires filled { filled ≤ vec_len buffer.old }
    ensures bytes { part result (result + (filled - start)) buffer.new.items ≡ part start filled buffer.old.items }
    ensures len { vec_len buffer.new ≡ vec_len buffer.old }
    ensures place { (result ≡ 0) ⊎ ((result ≡ start) × (filled < vec_len buffer.old)) }
{
    let count = filled - start;
    if count <= start {
        move_down(buffer.as_mut_slice(), start, count);
        return 0;
    }
    if filled == buffer.len() {
        buffer.rotate_left(start);
        return 0;
    }
    start
}

// Makes a buffer longer, if all of it is filled.
fn make_room(buffer: &mut Vec<u8>, filled: usize) -> Result<(), AllocError>
    requires filled { filled ≤ vec_len buffer.old }
    requires most { vec_len buffer.old ≤ MOST_BYTES }
    requires line { vec_len buffer.old ≤ filled → filled ≤ LINE_BYTES }
    ensures front { take filled buffer.new.items ≡ take filled buffer.old.items }
    ensures len { vec_len buffer.old ≤ vec_len buffer.new }
    ensures most { vec_len buffer.new ≤ MOST_BYTES }
    ensures room { OnOk result (filled < vec_len buffer.new) }
{
    if filled < buffer.len() {
        return Ok(());
    }
    let wanted = if filled == 0 { FIRST_BYTES } else { MOST_BYTES };
    buffer.resize(wanted, 0)
}

impl ReadBuffer {
    /// A buffer with no bytes. The call allocates no memory.
    pub fn new(alloc: Global) -> Self
        ensures { result ≡ [] }
    {
        ReadBuffer {
            buffer: Vec::new(alloc),
            start: 0,
            filled: 0,
        }
    }

    /// The bytes that were read and not yet taken up, at most 2,200,001.
    pub fn as_slice(&self) -> &[u8]
        ensures bytes { result.now ≡ self.now }
        ensures most { length self.now ≤ MOST_BYTES }
    {
        &self.buffer[self.start..self.filled]
    }

    /// Takes up the first `count` bytes, so that the buffer no longer holds them.
    pub fn pass(&mut self, count: usize)
        requires { count ≤ length self.old }
        ensures { self.new ≡ drop count self.old }
    {
        self.start += count;
    }

    /// Takes up all bytes, so that the buffer holds none.
    pub fn clear(&mut self)
        ensures { self.new ≡ [] }
    {
        self.start = self.filled;
    }

    /// Makes one read, for as many bytes as there is room for. Returns how many bytes came, 0 at the end of the text,
    /// or None where the read was interrupted. Fails with `ReadFault` where the read fails; and with `NoMemory`, before
    /// anything is read, where memory runs out.
    ///
    /// The bytes that the buffer holds are moved only where other bytes were before them, and as the buffer grows. So a
    /// caller that reads only while no whole line is held moves each byte once at most. The bytes of a line that
    /// outgrows the first buffer, of 65,536 bytes, are moved once more.
    pub fn read<R: Read>(&mut self, reader: &mut R) -> Result<Option<usize>, ScriptFault>
        requires { length self.old ≤ LINE_BYTES }
        ensures brings { BringsBytes (R.remaining reader.old) self.old
            (R.remaining reader.new) self.new (bytes_read result) }
        ensures end { result ≡ Ok (Some 0) → IsAtEnd (R.remaining reader.new) }
        ensures fault { IfErr result (λ fault. (fault ≡ ScriptFault.ReadFault)
            ⊎ ((fault ≡ ScriptFault.NoMemory)
            × Consumes (R.remaining reader.old) (R.remaining reader.new) [])) }
    {
        let left = self.filled - self.start;
        self.start = close_up(&mut self.buffer, self.start, self.filled);
        self.filled = self.start + left;
        make_room(&mut self.buffer, self.filled)?;
        let outcome = read_behind(reader, self.buffer.as_mut_slice(), self.filled);
        self.filled += count(&outcome);
        outcome
    }
}
