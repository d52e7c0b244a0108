//! Frames that were worked by hand, requests and answers, and what is said of each that is read.
use crate::pipes::{PipeReader, Plan};
use std::alloc::{AllocError, Global};
use std::test::Fail;
use vtl_wire::{AnswerReader, Request, RequestReader, WireFault, write_answer};

#[derive(Clone, Copy, Debug)]
pub enum Kind {
    Requests,
    Answers,
}

pub const KINDS: [Kind; 2] = [Kind::Requests, Kind::Answers];

/// TEST UNIT READY of host 1 to drive 2; WRITE(6) of three bytes; a block of no byte, of the last host to the last
/// drive; a block of sixteen bytes; a move of slot 1001 to drive 1; and an inventory. A tag is any number.
static REQUESTS: &'static [&'static str] = &[
    "01 01 02 06 00000000 00000007 00000000 000000000000",
    "01 03 01 06 00000003 fffffffe 00000000 0a0000000300 616263",
    "01 40 10 00 00000000 00000000 00000000",
    "01 01 01 10 00000001 00010203 00000000 91000000000000000000000000000000 ff",
    "02 00 00 08 00000000 00000009 00000000 000003e9 00000001",
    "02 00 00 08 00000000 00000000 00000000 ffffffff 00000000",
    "03 00 00 00 00000000 01000000 00000000",
];

// Host, drive, tag, block and data; source, destination and tag; or the tag.
static OF_REQUESTS: &'static [&'static str] = &[
    "command 1 2 7 000000000000 \n",
    "command 3 1 4294967294 0a0000000300 616263\n",
    "command 64 16 0  \n",
    "command 1 1 66051 91000000000000000000000000000000 ff\n",
    "move 1001 1 9\n",
    "move 4294967295 0 0\n",
    "inventory 16777216\n",
];

// GOOD, without data and with them; NOT READY; a block of one byte that a READ of two met, with INFORMATION 1;
// CONFLICT. Of a move GOOD; that nothing is at the source; CONFLICT. Nothing in drive 1, and T00001L6 in slot 1001.
static ANSWERS: &'static [&'static str] = &[
    "01 01 00 00 00000000 00000007 00000000",
    "01 03 00 00 00000003 fffffffe 00000000 616263",
    "01 01 02 12 00000000 00000007 00000000 700002000000000a000000003a0000000000",
    "01 02 02 12 00000001 00000008 00000000 f00020000000010a00000000000000000000 61",
    "01 40 18 00 00000000 00000000 00000000",
    "02 00 00 00 00000000 00000009 00000000",
    "02 00 02 12 00000000 00000009 00000000 700005000000000a000000003b0e00000000",
    "02 00 18 00 00000000 00000009 00000000",
    "03 00 00 00 00000028 01000000 00000000 00000001 00000000000000000000000000000000 \
        000003e9 5430303030314c36 2020202020202020",
];

/// The frames of a kind.
pub fn frames_of(kind: Kind) -> &'static [&'static str] {
    match kind {
        Kind::Requests => REQUESTS,
        Kind::Answers => ANSWERS,
    }
}

/// The bytes that these hex digits spell; spaces don't count.
pub fn bytes(alloc: Global, text: &[u8]) -> Result<Vec<u8>, Fail> {
    let mut digits = Vec::new(alloc);
    for digit in text {
        if *digit != b' ' {
            digits.push(*digit)?;
        }
    }
    Ok(hex::decode(alloc, digits.as_slice())?)
}

/// All frames of a kind, and what is said of them: of requests their texts, of answers the frames that they are written
/// as.
pub fn all_of(alloc: Global, kind: Kind) -> Result<(Vec<u8>, Vec<u8>), Fail> {
    let mut input = Vec::new(alloc);
    for frame in frames_of(kind) {
        input.extend_from_slice(bytes(alloc, frame.as_bytes())?.as_slice())?;
    }
    let mut text = Vec::new(alloc);
    match kind {
        Kind::Answers => text.extend_from_slice(input.as_slice())?,
        Kind::Requests => {
            for line in OF_REQUESTS {
                text.extend_from_slice(line.as_bytes())?;
            }
        }
    }
    Ok((input, text))
}

// Adds what is said of a request.
fn add_request(alloc: Global, text: &mut Vec<u8>, request: &Request) -> Result<(), AllocError> {
    let line = match request {
        Request::Command {
            host,
            drive,
            cdb,
            sent,
            tag,
        } => {
            let cdb = hex::encode(alloc, cdb.as_slice())?;
            let sent = hex::encode(alloc, sent.as_slice())?;
            let (host, drive) = (host.number(), drive.number());
            format!(in alloc;
                "command {host} {drive} {tag} {} {}\n",
                cdb.as_str(),
                sent.as_str()
            )?
        }
        Request::Move { from, to, tag } => format!(in alloc; "move {from} {to} {tag}\n")?,
        Request::Inventory { tag } => format!(in alloc; "inventory {tag}\n")?,
    };
    text.extend_from_slice(line.as_bytes())
}

/// What an input comes to: what is said of its frames, how it ends, how many were counted, how many reads were asked
/// for, how many bytes were not read, and whether a read failed.
#[derive(Drop)]
pub struct Outcome {
    pub text: Vec<u8>,
    pub end: Result<(), WireFault>,
    pub frames: u64,
    pub calls: u32,
    pub left: usize,
    pub has_failed: bool,
}

fn add_requests(
    alloc: Global,
    text: &mut Vec<u8>,
    frames: &mut RequestReader,
    reader: &mut PipeReader,
) -> Result<(), WireFault> {
    for _ in 0..1_000 {
        match frames.next(reader)? {
            Some(request) => add_request(alloc, text, &request)?,
            None => break,
        }
    }
    Ok(())
}

// Reads answers up to the end, and writes each; of requests it says what they are.
fn add_answers(
    text: &mut Vec<u8>,
    frames: &mut AnswerReader,
    reader: &mut PipeReader,
) -> Result<(), WireFault> {
    for _ in 0..1_000 {
        match frames.next(reader)? {
            Some(answer) => {
                if answer.fits_frame() {
                    write_answer(text, &answer)?;
                }
            }
            None => break,
        }
    }
    Ok(())
}

/// What an input of this kind comes to that is read as this plan says.
pub fn reading(alloc: Global, kind: Kind, input: &[u8], plan: Plan) -> Outcome {
    let mut text = Vec::new(alloc);
    let mut reader = PipeReader::new(input, plan);
    let (end, frames, has_failed) = match kind {
        Kind::Requests => {
            let mut frames = RequestReader::new(alloc);
            let end = add_requests(alloc, &mut text, &mut frames, &mut reader);
            (end, frames.frames(), frames.has_failed())
        }
        Kind::Answers => {
            let mut frames = AnswerReader::new(alloc);
            let end = add_answers(&mut text, &mut frames, &mut reader);
            (end, frames.frames(), frames.has_failed())
        }
    };
    Outcome {
        text,
        end,
        frames,
        calls: reader.calls,
        left: reader.rest.len(),
        has_failed,
    }
}
