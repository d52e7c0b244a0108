//! How far a script was read. Its bytes are read in chunks, within limits, and taken up line by line.
ghost use Rattle.std.specs.Prelude.{◌≡◌, ◌<◌, ◌≤◌, ◌+◌, ◌==◌, ◌++◌, ◌⊎◌, [], ℕ, length, take, drop, vec_len, position, Some, None, Ok, true, false, IsOk, IfOk, IfErr, OnOk, OnErr};
ghost use Rattle.std.specs.Io.KnownBytes.{Consumes, IsAtEnd};
ghost use Rattle.vtl_script.specs.Inner.Reading.{unbegun, bytes_read, shows_end, Comes, LineEnds};

use crate::faults::ScriptFault;
use crate::read_buffers::ReadBuffer;
use crate::script_limits::{within_bytes, within_reads};
use crate::splits::place_of;
use std::alloc::Global;
use std::io::Read;
use std::marker::Model;
use vtl_base::limits::{LINE_BYTES, SCRIPT_BYTES, SCRIPT_READS};

/// The bytes of a script that were read, from the first line on that was not yet taken up; and how many bytes, reads
/// and lines there were so far.
#[derive(Drop)]
pub struct LineReader {
    buffer: ReadBuffer,
    bytes: u64,
    reads: u64,
    lines: u64,
}

/// Where the first line that was not yet taken up ends.
#[derive(Drop)]
pub enum Found {
    /// At the line feed after this many bytes.
    Line(usize),
    /// At the end of the text, without a line feed.
    Last,
    /// Not within the limit of a line, 2,200,000 bytes.
    TooLong,
}

impl Model for LineReader {
    ghost use Rattle.std.specs.Prelude.{◌≤◌, ◌+◌, length};
    ghost use Rattle.vtl_base.specs.declared.limits.TheConstants.{SCRIPT_BYTES, SCRIPT_READS};
    ghost use Rattle.vtl_script.specs.Inner.Reading.{LineReading};

    ghost Value = { LineReading };

    ghost view = { λ b. record {
      unread = b.buffer;
      bytes = b.bytes;
      reads = b.reads;
      lines = b.lines;
    } };

    ghost invariant = { λ b. (b.lines + length b.buffer ≤ b.bytes)
        × (b.bytes ≤ SCRIPT_BYTES) × (b.reads ≤ SCRIPT_READS) };
}

impl LineReader {
    ghost use Rattle.std.specs.Prelude.{◌≡◌, ◌<◌, ◌≤◌, ◌+◌, ◌⊎◌, [], drop, take, length, Ok, Err, true, false, IsOk, IfOk, IfErr, OnOk};
    ghost use Rattle.vtl_base.specs.declared.limits.TheConstants.{SCRIPT_BYTES, SCRIPT_READS};
    ghost use Rattle.std.specs.Io.KnownBytes.{Consumes};
    ghost use Rattle.vtl_base.specs.declared.limits.TheConstants.{LINE_BYTES};
    ghost use Rattle.vtl_script.specs.Inner.Reading.{unbegun, work_left, may_read, shows_end, Comes, LineEnds};
    ghost use Rattle.vtl_script.specs.Runs.{TakesWithin};

    /// A reader that has read nothing.
    pub fn new(alloc: Global) -> Self
        ensures { result ≡ unbegun }
    {
        LineReader {
            buffer: ReadBuffer::new(alloc),
            bytes: 0,
            reads: 0,
            lines: 0,
        }
    }

    // Makes one more read. Returns false where the text has ended, and true where bytes came or the read was
    // interrupted.
    fn fill<R: Read>(&mut self, reader: &mut R) -> Result<bool, ScriptFault>
        requires { length self.old.unread ≤ LINE_BYTES }
        ensures comes { OnOk result
            (Comes (R.remaining reader.old) self.old (R.remaining reader.new) self.new) }
        ensures within { OnOk result (self.new.bytes ≤ SCRIPT_BYTES) }
        ensures reads { OnOk result
            ((self.new.reads ≡ self.old.reads + 1) × (self.new.reads ≤ SCRIPT_READS)) }
        ensures end { result ≡ Ok false →
            IsAtEnd (R.remaining reader.new) × (self.new.unread ≡ self.old.unread) }
        ensures limit { may_read self.old.reads ≡ false → result ≡ Err ScriptFault.ReadFault }
        ensures fault { IfErr result (λ fault. (fault ≡ ScriptFault.ReadFault)
            ⊎ ((fault ≡ ScriptFault.NoMemory)
            × Consumes (R.remaining reader.old) (R.remaining reader.new) [])) }
    {
        if !within_reads(self.reads) {
            return Err(ScriptFault::ReadFault);
        }
        self.reads += 1;
        match self.buffer.read(reader)? {
            None => Ok(true),
            Some(0) => Ok(false),
            Some(count) if !within_bytes(self.bytes, count) => {
                self.buffer.clear();
                Err(ScriptFault::ReadFault)
            }
            Some(count) => {
                self.bytes += count as u64;
                Ok(true)
            }
        }
    }

    /// Reads until it is known where the first line that was not yet taken up ends, and returns that. Where the bytes
    /// already read show it, the reader is not called. Fails with `ReadFault` where a read fails, or the script exceeds
    /// its limit of bytes or of reads; and with `NoMemory` where memory runs out.
    pub fn find<R: Read>(&mut self, reader: &mut R) -> Result<Found, ScriptFault>
        ensures comes { OnOk result
            (Comes (R.remaining reader.old) self.old (R.remaining reader.new) self.new) }
        ensures within { OnOk result (self.new.bytes ≤ SCRIPT_BYTES) }
        ensures found { IfOk result (λ found. LineEnds found self.new.unread (R.remaining reader.new)) }
        ensures due { shows_end self.old.unread ≡ true →
            IsOk result × (self.new ≡ self.old) × (reader.new ≡ reader.old) }
        ensures fault { IfErr result (λ fault. (fault ≡ ScriptFault.ReadFault)
            ⊎ ((fault ≡ ScriptFault.NoMemory)
            × TakesWithin (R.remaining reader.old) self.old.bytes (R.remaining reader.new))) }
    {
        let mut searched = 0;
        loop {
            let unread = self.unread();
            match place_of(b'\n', &unread[searched..]) {
                Some(place) => return Ok(Found::Line(searched + place)),
                None => searched = unread.len(),
            }
            if searched > LINE_BYTES {
                return Ok(Found::TooLong);
            }
            if !self.fill(reader)? {
                return Ok(Found::Last);
            }
        }
    }

    /// The first `count` of the bytes that were read and not yet taken up.
    pub fn front(&self, count: usize) -> &[u8]
        requires { count ≤ length self.now.unread }
        ensures { result.now ≡ take count self.now.unread }
    {
        &self.buffer.as_slice()[..count]
    }

    /// All bytes that were read and not yet taken up: at most 2,200,001, one more than the longest line has.
    pub fn unread(&self) -> &[u8]
        ensures bytes { result.now ≡ self.now.unread }
        ensures most { length self.now.unread ≤ LINE_BYTES + 1 }
        ensures within { self.now.bytes ≤ SCRIPT_BYTES }
    {
        self.buffer.as_slice()
    }

    /// How many lines were taken up so far.
    pub fn lines(&self) -> u64
        ensures lines { result ≡ self.now.lines }
        ensures limit { result + length self.now.unread ≤ SCRIPT_BYTES }
    {
        self.lines
    }

    /// How many reads were made so far.
    pub fn reads(&self) -> u64
        ensures { result ≡ self.now.reads }
    {
        self.reads
    }

    /// Takes up the first line, which has `count` bytes before its line feed. The reader no longer holds these bytes
    /// and the line feed.
    pub fn take_up(&mut self, count: usize)
        requires { count < length self.old.unread }
        ensures line { self.new ≡ record self.old {
          unread = drop (count + 1) self.old.unread;
          lines = self.old.lines + 1;
        } }
        ensures less { work_left self.new < work_left self.old }
    {
        self.buffer.pass(count + 1);
        self.lines += 1;
    }
}
