//! Requests, read from an input frame by frame.
ghost use Rattle.std.specs.Prelude.{◌≡◌, ℕ, false, IfOk, IfErr, IfSome, Err, OnErr, Some, None};
ghost use Rattle.vtl_base.specs.Steps.{ticked};
ghost use Rattle.vtl_wire.specs.Requests.{IsRefusedAt, SpellsRequests};
ghost use Rattle.vtl_wire.specs.Reads.{MissesRequest, MissesRequests, NotesFault, ReadsRequest, count_after};
ghost use Rattle.vtl_wire.specs.Inner.Reading.{FindsRequest, FindsNoRequest};

use crate::faults::WireFault;
use crate::memory::Memory;
use crate::parts::read_parts;
use crate::reading::{Found, read_header};
use crate::reads::Reads;
use crate::request_heads::{request_head, request_in};
use crate::requests::Request;
use std::alloc::Global;
use std::io::Read;
use std::marker::Model;

/// A reader of requests, which counts them. The count stops at `u64::MAX`. A contract sees the count, and whether a
/// read of the input failed.
#[derive(Drop)]
pub struct RequestReader {
    frames: u64,
    reads: Reads,
    memory: Memory,
}

impl Model for RequestReader {
    ghost use Rattle.vtl_wire.specs.Reads.{ReaderOfFrames};

    ghost Value = { ReaderOfFrames };

    ghost view = { λ reader. record { frames = reader.frames; failed = reader.reads } };
}

// Reads what stands next in an input.
fn find_request<R: Read>(
    memory: &Memory,
    reads: &mut Reads,
    reader: &mut R,
) -> Result<Found<Request>, WireFault>
    ensures found { IfOk result (FindsRequest (R.remaining reader.old) (R.remaining reader.new)) }
    ensures fault { IfErr result (FindsNoRequest (R.remaining reader.old) (R.remaining reader.new)) }
    ensures same { IfOk result (λ _. reads.new ≡ reads.old) }
    ensures noted { IfErr result (NotesFault reads.old reads.new) }
{
    let header = match read_header(reads, reader)? {
        Found::Frame(header) => header,
        Found::Ended => return Ok(Found::Ended),
        Found::Refused => return Ok(Found::Refused),
    };
    let Some(head) = request_head(header) else {
        return Ok(Found::Refused);
    };
    match read_parts(memory, reads, reader, header)? {
        Some(parts) => Ok(Found::Frame(request_in(header, head, parts))),
        None => Ok(Found::Refused),
    }
}

impl RequestReader {
    /// A reader that has read nothing. `alloc` provides the memory for the data of requests.
    pub fn new(alloc: Global) -> Self
        ensures frames { result.frames ≡ 0 }
        ensures failed { result.failed ≡ false }
    {
        RequestReader {
            frames: 0,
            reads: Reads::new(),
            memory: Memory::new(alloc),
        }
    }

    /// How many requests were read.
    pub fn frames(&self) -> u64
        ensures { result ≡ self.now.frames }
    {
        self.frames
    }

    /// Whether a read of the input failed, so that a call returned `ReadFault`.
    pub fn has_failed(&self) -> bool
        ensures { result ≡ self.now.failed }
    {
        self.reads.have_failed()
    }

    /// Reads the next request, or returns None at the end of the input. No byte after the request is read, however many
    /// bytes the input could return at once. Memory is allocated only for more than 24 bytes of data, and only after a
    /// header and a command block were read that a request can begin with. After an `Err` the input may be inside a
    /// frame, or after a refused header, so nothing more should be read from it.
    pub fn next<R: Read>(&mut self, reader: &mut R) -> Result<Option<Request>, WireFault>
        ensures ok { IfOk result (ReadsRequest (R.remaining reader.old) (R.remaining reader.new)) }
        ensures count { IfOk result (λ found. self.new.frames ≡ count_after self.old.frames found) }
        ensures err { IfErr result (MissesRequest (R.remaining reader.old) (R.remaining reader.new) self.old.frames) }
        ensures same { OnErr result (self.new.frames ≡ self.old.frames) }
        ensures well { IfOk result (λ _. self.new.failed ≡ self.old.failed) }
        ensures noted { IfErr result (NotesFault self.old.failed self.new.failed) }
    {
        match find_request(&self.memory, &mut self.reads, reader)? {
            Found::Frame(request) => {
                self.frames = self.frames.saturating_add(1);
                Ok(Some(request))
            }
            Found::Ended => Ok(None),
            Found::Refused => Err(WireFault::BadFrame {
                frame: self.frames.saturating_add(1),
            }),
        }
    }
}

/// Reads all requests of an input, up to its end, and returns them in order. If a frame is refused, the error is
/// `BadFrame` with the frame's number, counted from 1. The requests and that number are as the frame format defines
/// them, however many bytes each read returns. A failed read, or memory that runs out, ends the reading with an error
/// too.
pub fn read_requests<R: Read>(alloc: Global, reader: &mut R) -> Result<Vec<Request>, WireFault>
    ensures ok { IfOk result (λ requests.
        IfSome (R.remaining reader.old) (λ bytes. SpellsRequests bytes requests.items)) }
    ensures refused { (number : ℕ) → result ≡ Err (WireFault.BadFrame number) →
        IfSome (R.remaining reader.old) (λ bytes. IsRefusedAt bytes number) }
    ensures missed { IfErr result (MissesRequests (R.remaining reader.old) (R.remaining reader.new)) }
{
    let mut requests = Vec::new(alloc);
    let mut frames = RequestReader::new(alloc);
    for _ in 0..u64::MAX {
        match frames.next(reader)? {
            Some(request) => requests.push(request)?,
            None => return Ok(requests),
        }
    }
    Err(WireFault::NoMemory)
}
