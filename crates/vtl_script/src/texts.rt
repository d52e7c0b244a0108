//! The text of answers.
ghost use Rattle.std.specs.Prelude.{◌≡◌, ◌≤◌, ◌++◌, [], length, OnOk, OnErr, IfErr};
ghost use Rattle.std.specs.Io.KnownBytes.{Appends};
ghost use Rattle.hex.specs.Hex.{encode_lower};
ghost use Rattle.vtl_script.specs.Text.{hex_word, status_text, sense_text, reply_text, text_of, AppendsPart};
ghost use Rattle.vtl_script.specs.Inner.Writing.{Adds};

use crate::answer_texts::AnswerText;
use crate::faults::ScriptFault;
use crate::interruptions::is_interrupted;
use scsi_sense::{Reply, Sense, Status};
use std::io::Write;

// How many bytes one step spells in digits at most.
const DIGITS_PIECE: usize = 4_096;

/// Writes a text to `writer`. Where a write fails, the result is a `WriteFault`, and a beginning of the text was
/// written. An interrupted write is made again. Nothing is flushed.
pub fn write_text<W: Write>(writer: &mut W, text: &[u8]) -> Result<(), ScriptFault>
    ensures ok { OnOk result (Appends (W.contents writer.old) (W.contents writer.new) text.now) }
    ensures err { OnErr result
        (AppendsPart (W.contents writer.old) (W.contents writer.new) text.now) }
    ensures fault { IfErr result (λ fault. fault ≡ ScriptFault.WriteFault) }
{
    let mut written = 0;
    for _ in 0..u64::MAX {
        if written == text.len() {
            return Ok(());
        }
        match writer.write(&text[written..]) {
            Ok(0) => return Err(ScriptFault::WriteFault),
            Ok(count) => written += count,
            Err(e) if is_interrupted(e.kind()) => {}
            Err(_) => return Err(ScriptFault::WriteFault),
        }
    }
    Err(ScriptFault::WriteFault)
}

// Adds these bytes as hex digits.
fn add_digits<W: Write>(
    text: &mut AnswerText,
    writer: &mut W,
    bytes: &[u8],
) -> Result<(), ScriptFault>
    ensures ok { OnOk result (Adds (W.contents writer.old) text.old (encode_lower bytes.now)
        (W.contents writer.new) text.new) }
    ensures err { OnErr result
        (AppendsPart (W.contents writer.old) (W.contents writer.new) (text.old ++ encode_lower bytes.now)) }
    ensures fault { IfErr result (λ fault. fault ≡ ScriptFault.WriteFault) }
{
    let mut rest = bytes;
    while !rest.is_empty() {
        let (piece, behind) = rest.split_at(rest.len().min(DIGITS_PIECE));
        text.add_digits(writer, piece)?;
        rest = behind;
    }
    Ok(())
}

// Adds a space and these bytes in hex, where there are any.
fn add_hex<W: Write>(text: &mut AnswerText, writer: &mut W, bytes: &[u8]) -> Result<(), ScriptFault>
    ensures ok { OnOk result (Adds (W.contents writer.old) text.old (hex_word bytes.now)
        (W.contents writer.new) text.new) }
    ensures err { OnErr result
        (AppendsPart (W.contents writer.old) (W.contents writer.new) (text.old ++ hex_word bytes.now)) }
    ensures fault { IfErr result (λ fault. fault ≡ ScriptFault.WriteFault) }
{
    if bytes.is_empty() {
        return Ok(());
    }
    text.add(writer, b" ")?;
    add_digits(text, writer, bytes)
}

// Adds the sense data of an answer, where it has some.
fn add_sense<W: Write>(
    text: &mut AnswerText,
    writer: &mut W,
    sense: &Option<Sense>,
) -> Result<(), ScriptFault>
    ensures ok { OnOk result (Adds (W.contents writer.old) text.old (sense_text sense.now)
        (W.contents writer.new) text.new) }
    ensures err { OnErr result
        (AppendsPart (W.contents writer.old) (W.contents writer.new) (text.old ++ sense_text sense.now)) }
    ensures fault { IfErr result (λ fault. fault ≡ ScriptFault.WriteFault) }
{
    match sense {
        Some(sense) => add_hex(text, writer, &sense.bytes()),
        None => Ok(()),
    }
}

// The name of a status.
fn name_of(status: Status) -> &'static [u8]
    ensures name { result.now ≡ status_text status }
    ensures most { length result.now ≤ 8 }
{
    match status {
        Status::Good => b"GOOD",
        Status::Check => b"CHECK",
        Status::Conflict => b"CONFLICT",
    }
}

// Adds the line of an answer.
fn add_reply<W: Write>(
    text: &mut AnswerText,
    writer: &mut W,
    reply: &Reply,
) -> Result<(), ScriptFault>
    ensures ok { OnOk result (Adds (W.contents writer.old) text.old (reply_text reply.now)
        (W.contents writer.new) text.new) }
    ensures err { OnErr result
        (AppendsPart (W.contents writer.old) (W.contents writer.new) (text.old ++ reply_text reply.now)) }
    ensures fault { IfErr result (λ fault. fault ≡ ScriptFault.WriteFault) }
{
    text.add(writer, name_of(reply.status))?;
    add_sense(text, writer, &reply.sense)?;
    add_hex(text, writer, reply.bytes.as_slice())?;
    text.add(writer, b"\n")
}

/// Writes the lines of `replies`, in order, to `writer`, and flushes it. `text` is the buffer for the lines: it must be
/// empty, and is empty again at Ok. Where a write or the flush fails, a beginning of the lines was written, perhaps all
/// of them.
pub fn print_replies<W: Write>(
    text: &mut AnswerText,
    writer: &mut W,
    replies: &[Reply],
) -> Result<(), ScriptFault>
    requires { text.old ≡ [] }
    ensures ok { OnOk result
        (Appends (W.contents writer.old) (W.contents writer.new) (text_of replies.now)) }
    ensures empty { OnOk result (text.new ≡ []) }
    ensures part { OnErr result
        (AppendsPart (W.contents writer.old) (W.contents writer.new) (text_of replies.now)) }
    ensures fault { IfErr result (λ fault. fault ≡ ScriptFault.WriteFault) }
{
    for reply in replies {
        add_reply(text, writer, reply)?;
    }
    text.write_out(writer)?;
    if writer.flush().is_err() {
        return Err(ScriptFault::WriteFault);
    }
    Ok(())
}
