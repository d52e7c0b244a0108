//! Requests that are read, served and answered.
ghost use Rattle.std.specs.Prelude.{◌≡◌, true, IfOk, IfErr, OnOk, OnErr};
ghost use Rattle.std.specs.Io.KnownBytes.{Appends};
ghost use Rattle.vtl_wire.specs.Answers.{FitsAnswer, spell_answer};
ghost use Rattle.vtl_wire.specs.Reads.{NotesFault};
ghost use Rattle.vtl_wire.specs.Serving.{ServesInput};
ghost use Rattle.vtl_wire.specs.Writes.{AppendsFront};
ghost use Rattle.vtl_wire.specs.Inner.Served.{AnswersRequest, ServesNext};

use crate::answer_writers::write_answer;
use crate::answers::Answer;
use crate::faults::WireFault;
use crate::request_readers::RequestReader;
use crate::requests::Request;
use crate::servers::Server;
use std::alloc::Global;
use std::io::{Read, Write};

/// Writes the frame of an answer as `write_answer` does, if a frame can hold it. If none can, `WriteFault` is returned
/// and nothing is written.
pub fn write_if_fits<W: Write>(writer: &mut W, answer: &Answer) -> Result<(), WireFault>
    ensures ok { OnOk result (Appends (W.contents writer.old) (W.contents writer.new) (spell_answer answer.now)) }
    ensures err { OnErr result
        (AppendsFront (W.contents writer.old) (W.contents writer.new) (spell_answer answer.now)) }
    ensures fits { OnOk result (FitsAnswer answer.now) }
    ensures unfit { (FitsAnswer answer.now → ⊥) → W.contents writer.new ≡ W.contents writer.old }
    ensures fault { IfErr result (λ fault. fault ≡ WireFault.WriteFault) }
{
    if !answer.fits_frame() {
        return Err(WireFault::WriteFault);
    }
    write_answer(writer, answer)
}

// Serves a request, and writes its answer.
fn answer_request<S: Server, W: Write>(
    alloc: Global,
    server: &mut S,
    request: Request,
    writer: &mut W,
) -> Result<(), WireFault>
    requires { S.is_taken server.old request ≡ true }
    ensures { AnswersRequest S.answers S.lacks server.old request (W.contents writer.old) server.new
        (W.contents writer.new) result }
{
    let answer = server.serve(alloc, request)?;
    write_if_fits(writer, &answer)
}

// Serves the next request. Returns false where the input has ended.
fn serve_next<S: Server, R: Read, W: Write>(
    alloc: Global,
    server: &mut S,
    frames: &mut RequestReader,
    reader: &mut R,
    writer: &mut W,
) -> Result<bool, WireFault>
    ensures serves { ServesNext S.is_taken S.answers S.lacks frames.old.frames server.old (R.remaining reader.old)
        (W.contents writer.old) frames.new.frames server.new (R.remaining reader.new) (W.contents writer.new) result }
    ensures same { IfOk result (λ _. frames.new.failed ≡ frames.old.failed) }
    ensures noted { IfErr result (NotesFault frames.old.failed frames.new.failed) }
{
    let Some(request) = frames.next(reader)? else {
        return Ok(false);
    };
    if !server.takes(&request) {
        return Err(WireFault::BadFrame {
            frame: frames.frames(),
        });
    }
    answer_request(alloc, server, request, writer)?;
    Ok(true)
}

/// Reads requests up to the end of the input. Each request is served, and its answer is written, before the next is
/// read. Nothing else is written. The first error ends the serving and is returned: a frame that is refused, a request
/// that the server does not take (`BadFrame` too), a failed read or write, or memory that runs out.
pub fn serve_requests<S: Server, R: Read, W: Write>(
    alloc: Global,
    server: &mut S,
    reader: &mut R,
    writer: &mut W,
) -> Result<(), WireFault>
    ensures { ServesInput S.is_taken S.answers S.lacks server.old (R.remaining reader.old) (W.contents writer.old)
        server.new (R.remaining reader.new) (W.contents writer.new) result }
{
    let mut frames = RequestReader::new(alloc);
    for _ in 0..u64::MAX {
        if !serve_next(alloc, server, &mut frames, reader, writer)? {
            return Ok(());
        }
    }
    Err(WireFault::NoMemory)
}
