//! The text of answers that is not written yet, in a buffer of a fixed length.
ghost use Rattle.std.specs.Prelude.{◌≡◌, ◌≤◌, ◌+◌, ◌*◌, ◌++◌, [], length, take, vec_len, IfOk, IfErr, OnOk, OnErr};
ghost use Rattle.std.specs.Io.KnownBytes.{Appends};
ghost use Rattle.hex.specs.Hex.{encode_lower};
ghost use Rattle.vtl_script.specs.declared.answer_texts.TheConstants.{WRITE_CHUNK};
ghost use Rattle.vtl_script.specs.Text.{AppendsPart};
ghost use Rattle.vtl_script.specs.Inner.Writing.{Adds};

use crate::faults::ScriptFault;
use crate::texts::write_text;
use std::alloc::{AllocError, Global};
use std::io::Write;
use std::marker::Model;

/// The greatest number of bytes in one write.
pub const WRITE_CHUNK: usize = 65_536;

/// Text that is not written yet: the first `filled` bytes of `buffer`. A contract sees it as a list.
#[derive(Drop)]
pub struct AnswerText {
    buffer: Vec<u8>,
    filled: usize,
}

impl Model for AnswerText {
    ghost use Rattle.std.specs.Prelude.{◌≡◌, ℕ, List, ◌≤◌, take, vec_len};
    ghost use Rattle.vtl_script.specs.declared.answer_texts.TheConstants.{WRITE_CHUNK};

    ghost Value = { List ℕ };

    ghost view = { λ text. take text.filled text.buffer.items };

    ghost invariant = { λ text. (text.filled ≤ vec_len text.buffer) × (vec_len text.buffer ≡ WRITE_CHUNK) };
}

// Puts these bytes after those that fill a buffer.
fn put_bytes(buffer: &mut Vec<u8>, filled: usize, bytes: &[u8])
    requires { filled + length bytes.now ≤ vec_len buffer.old }
    ensures added { take (filled + length bytes.now) buffer.new.items ≡ take filled buffer.old.items ++ bytes.now }
    ensures len { vec_len buffer.new ≡ vec_len buffer.old }
{
    let end = filled + bytes.len();
    buffer[filled..end].copy_from_slice(bytes);
}

// Puts these bytes, as hex digits, after the bytes that fill a buffer.
fn put_digits(buffer: &mut Vec<u8>, filled: usize, bytes: &[u8])
    requires { filled + 2 * length bytes.now ≤ vec_len buffer.old }
    ensures added { take (filled + 2 * length bytes.now) buffer.new.items
        ≡ take filled buffer.old.items ++ encode_lower bytes.now }
    ensures len { vec_len buffer.new ≡ vec_len buffer.old }
{
    let end = filled + 2 * bytes.len();
    hex::encode_to_slice(bytes, &mut buffer[filled..end]).unwrap();
}

impl AnswerText {
    /// An empty text. All memory that the text ever uses is allocated here.
    pub fn new(alloc: Global) -> Result<Self, AllocError>
        ensures { IfOk result (λ text. text ≡ []) }
    {
        let mut buffer = Vec::new(alloc);
        buffer.resize(WRITE_CHUNK, 0)?;
        Ok(AnswerText { buffer, filled: 0 })
    }

    /// Writes all of the text to `writer`, after which the text is empty. Where a write fails, a beginning of the text
    /// was written.
    pub fn write_out<W: Write>(&mut self, writer: &mut W) -> Result<(), ScriptFault>
        ensures ok { OnOk result (Appends (W.contents writer.old) (W.contents writer.new) self.old) }
        ensures empty { OnOk result (self.new ≡ []) }
        ensures err { OnErr result (AppendsPart (W.contents writer.old) (W.contents writer.new) self.old) }
        ensures fault { IfErr result (λ fault. fault ≡ ScriptFault.WriteFault) }
    {
        write_text(writer, &self.buffer[..self.filled])?;
        self.filled = 0;
        Ok(())
    }

    // Writes all of the text where there is no room for `count` more bytes.
    fn make_room<W: Write>(&mut self, writer: &mut W, count: usize) -> Result<(), ScriptFault>
        requires { count ≤ WRITE_CHUNK }
        ensures ok { OnOk result (Adds (W.contents writer.old) self.old [] (W.contents writer.new) self.new) }
        ensures room { OnOk result (length self.new + count ≤ WRITE_CHUNK) }
        ensures err { OnErr result (AppendsPart (W.contents writer.old) (W.contents writer.new) self.old) }
        ensures fault { IfErr result (λ fault. fault ≡ ScriptFault.WriteFault) }
    {
        if self.filled + count <= WRITE_CHUNK {
            return Ok(());
        }
        self.write_out(writer)
    }

    /// Adds these bytes, at most 65,536, to the text. Where there is no room for them, the text so far is first written
    /// to `writer`; where that fails, a beginning of the text was written.
    pub fn add<W: Write>(&mut self, writer: &mut W, bytes: &[u8]) -> Result<(), ScriptFault>
        requires { length bytes.now ≤ WRITE_CHUNK }
        ensures ok { OnOk result (Adds (W.contents writer.old) self.old bytes.now (W.contents writer.new) self.new) }
        ensures err { OnErr result
            (AppendsPart (W.contents writer.old) (W.contents writer.new) (self.old ++ bytes.now)) }
        ensures fault { IfErr result (λ fault. fault ≡ ScriptFault.WriteFault) }
    {
        self.make_room(writer, bytes.len())?;
        put_bytes(&mut self.buffer, self.filled, bytes);
        self.filled += bytes.len();
        Ok(())
    }

    /// Adds these bytes, at most 32,768, to the text as hex digits, two for each byte, in the same way as `add`.
    pub fn add_digits<W: Write>(&mut self, writer: &mut W, bytes: &[u8]) -> Result<(), ScriptFault>
        requires { 2 * length bytes.now ≤ WRITE_CHUNK }
        ensures ok { OnOk result (Adds (W.contents writer.old) self.old (encode_lower bytes.now)
            (W.contents writer.new) self.new) }
        ensures err { OnErr result
            (AppendsPart (W.contents writer.old) (W.contents writer.new) (self.old ++ encode_lower bytes.now)) }
        ensures fault { IfErr result (λ fault. fault ≡ ScriptFault.WriteFault) }
    {
        self.make_room(writer, 2 * bytes.len())?;
        put_digits(&mut self.buffer, self.filled, bytes);
        self.filled += 2 * bytes.len();
        Ok(())
    }
}
