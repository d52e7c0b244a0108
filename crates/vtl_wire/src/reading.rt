//! Reads a given number of bytes, in however many pieces they come.
ghost use Rattle.std.specs.Prelude.{◌≡◌, ℕ, ◌<◌, ◌≤◌, ◌+◌, length, take, drop, true, Ok, IfOk, IfErr, OnErr};
ghost use Rattle.std.specs.Io.KnownBytes.{Consumes, IsAtEnd};
ghost use Rattle.vtl_base.specs.declared.bytes.TheConstants.{INLINE_BYTES};
ghost use Rattle.vtl_wire.specs.declared.frames.TheConstants.{HEADER_BYTES};
ghost use Rattle.vtl_wire.specs.Reads.{NotesFault};
ghost use Rattle.vtl_wire.specs.Inner.Answered.{MayBeHeader};
ghost use Rattle.vtl_wire.specs.Inner.Reading.{count_given, ReadsWhole, ReadsBytes, MissesBytes, ReadsHeader, TakesFewer};

use crate::faults::WireFault;
use crate::frames::HEADER_BYTES;
use crate::headers::Header;
use crate::memory::Memory;
use crate::reads::Reads;
use std::io::Read;
use vtl_base::Bytes;
use vtl_base::bytes::INLINE_BYTES;

// What was found where a frame may begin.
#[derive(Drop)]
pub(crate) enum Found<T> {
    // Nothing: the input has ended.
    Ended,
    Frame(T),
    // Bytes that may not stand there, or less than a frame.
    Refused,
}

// Makes a read into a slice after its first `filled` bytes, which stay as they are. Returns how many bytes came.
fn read_behind<R: Read>(
    reads: &mut Reads,
    reader: &mut R,
    slice: &mut [u8],
    filled: usize,
) -> Result<usize, WireFault>
    requires { filled < length slice.old }
    ensures front { take filled slice.new ≡ take filled slice.old }
    ensures taken { Consumes (R.remaining reader.old) (R.remaining reader.new)
        (take (count_given result) (drop filled slice.new)) }
    ensures within { filled + count_given result ≤ length slice.new }
    ensures end { result ≡ Ok 0 → IsAtEnd (R.remaining reader.new) }
    ensures fault { IfErr result (λ fault. fault ≡ WireFault.ReadFault) }
    ensures same { IfOk result (λ _. reads.new ≡ reads.old) }
    ensures noted { OnErr result (reads.new ≡ true) }
{
    reads.read(reader, &mut slice[filled..])
}

// Fills a slice. Returns how many bytes came. They are fewer than the slice has only where the input has ended. It
// never asks for more bytes than the slice has.
pub(crate) fn fill<R: Read>(
    reads: &mut Reads,
    reader: &mut R,
    slice: &mut [u8],
) -> Result<usize, WireFault>
    ensures taken { IfOk result (λ count.
        Consumes (R.remaining reader.old) (R.remaining reader.new) (take count slice.new)) }
    ensures within { IfOk result (λ count. count ≤ length slice.new) }
    ensures ended { IfOk result (λ count. count < length slice.new → IsAtEnd (R.remaining reader.new)) }
    ensures part { OnErr result (TakesFewer (R.remaining reader.old) (R.remaining reader.new) (length slice.new)) }
    ensures fault { IfErr result (λ fault. fault ≡ WireFault.ReadFault) }
    ensures same { IfOk result (λ _. reads.new ≡ reads.old) }
    ensures noted { OnErr result (reads.new ≡ true) }
{
    let mut filled = 0;
    for _ in 0..slice.len() {
        if filled == slice.len() {
            return Ok(filled);
        }
        match read_behind(reads, reader, slice, filled)? {
            0 => return Ok(filled),
            count => filled += count,
        }
    }
    Ok(filled)
}

// Fills a slice. Returns false where the input ended before the slice was full.
pub(crate) fn fill_whole<R: Read>(
    reads: &mut Reads,
    reader: &mut R,
    slice: &mut [u8],
) -> Result<bool, WireFault>
    ensures whole { IfOk result (ReadsWhole (R.remaining reader.old) (R.remaining reader.new) slice.new) }
    ensures part { OnErr result (TakesFewer (R.remaining reader.old) (R.remaining reader.new) (length slice.new)) }
    ensures fault { IfErr result (λ fault. fault ≡ WireFault.ReadFault) }
    ensures same { IfOk result (λ _. reads.new ≡ reads.old) }
    ensures noted { OnErr result (reads.new ≡ true) }
{
    let count = fill(reads, reader, slice)?;
    Ok(count == slice.len())
}

// Reads `count` bytes, at most 24. They take no memory. None where the input ends before.
pub(crate) fn read_few<R: Read>(
    memory: &Memory,
    reads: &mut Reads,
    reader: &mut R,
    count: usize,
) -> Result<Option<Bytes>, WireFault>
    requires { count ≤ INLINE_BYTES }
    ensures bytes { IfOk result (ReadsBytes (R.remaining reader.old) (R.remaining reader.new) count) }
    ensures part { OnErr result (TakesFewer (R.remaining reader.old) (R.remaining reader.new) count) }
    ensures fault { IfErr result (λ fault. fault ≡ WireFault.ReadFault) }
    ensures same { IfOk result (λ _. reads.new ≡ reads.old) }
    ensures noted { OnErr result (reads.new ≡ true) }
{
    let mut room = [0; INLINE_BYTES];
    let slice = &mut room[..count];
    if !fill_whole(reads, reader, slice)? {
        return Ok(None);
    }
    Ok(Some(memory.few(slice)))
}

// Reads the data that a header counts, where they are more than 24 bytes. The memory for all of them is taken before
// the first is read. None where the input ends before.
fn read_many<R: Read>(
    memory: &Memory,
    reads: &mut Reads,
    reader: &mut R,
    header: Header,
) -> Result<Option<Bytes>, WireFault>
    requires head { MayBeHeader header }
    requires many { INLINE_BYTES < header.payload }
    ensures bytes { IfOk result (ReadsBytes (R.remaining reader.old) (R.remaining reader.new) header.payload) }
    ensures fault { IfErr result (MissesBytes (R.remaining reader.old) (R.remaining reader.new) header.payload) }
    ensures same { IfOk result (λ _. reads.new ≡ reads.old) }
    ensures noted { IfErr result (NotesFault reads.old reads.new) }
{
    let mut room = memory.room(header)?;
    if !fill_whole(reads, reader, room.as_mut_slice())? {
        return Ok(None);
    }
    Ok(Some(Bytes::from_vec(room)))
}

// Reads the data that a header counts. None where the input ends before. Data of more than 24 bytes take memory: for
// all their bytes, and for no more.
pub(crate) fn read_data<R: Read>(
    memory: &Memory,
    reads: &mut Reads,
    reader: &mut R,
    header: Header,
) -> Result<Option<Bytes>, WireFault>
    requires { MayBeHeader header }
    ensures bytes { IfOk result (ReadsBytes (R.remaining reader.old) (R.remaining reader.new) header.payload) }
    ensures fault { IfErr result (MissesBytes (R.remaining reader.old) (R.remaining reader.new) header.payload) }
    ensures same { IfOk result (λ _. reads.new ≡ reads.old) }
    ensures noted { IfErr result (NotesFault reads.old reads.new) }
{
    let count = header.payload as usize;
    if count <= INLINE_BYTES {
        return read_few(memory, reads, reader, count);
    }
    read_many(memory, reads, reader, header)
}

// Reads the header of a frame.
pub(crate) fn read_header<R: Read>(
    reads: &mut Reads,
    reader: &mut R,
) -> Result<Found<Header>, WireFault>
    ensures header { IfOk result (ReadsHeader (R.remaining reader.old) (R.remaining reader.new)) }
    ensures part { OnErr result (TakesFewer (R.remaining reader.old) (R.remaining reader.new) HEADER_BYTES) }
    ensures fault { IfErr result (λ fault. fault ≡ WireFault.ReadFault) }
    ensures same { IfOk result (λ _. reads.new ≡ reads.old) }
    ensures noted { OnErr result (reads.new ≡ true) }
{
    let mut bytes = [0; HEADER_BYTES];
    let count = fill(reads, reader, &mut bytes)?;
    if count == 0 {
        return Ok(Found::Ended);
    }
    if count < HEADER_BYTES {
        return Ok(Found::Refused);
    }
    match Header::read(&bytes) {
        Some(header) => Ok(Found::Frame(header)),
        None => Ok(Found::Refused),
    }
}
