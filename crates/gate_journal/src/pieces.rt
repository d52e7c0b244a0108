//! Giving a body to a decoder in pieces. Where the decoder does not need to see more than 65,536 of the next bytes,
//! these are not read.
ghost use Rattle.std.specs.Prelude.{◌≡◌, ◌<◌, ◌≤◌, ℕ, List, [], length, slice_index_or, IfOk, IfErr, false};
ghost use Rattle.tape_disk.specs.Disk.{Keeps};
ghost use Rattle.gate_journal.specs.Answers.{NoneFailed};
ghost use Rattle.gate_journal.specs.Crash.{Unwritten};
ghost use Rattle.gate_journal.specs.Decoding.{TakesPiece};
ghost use Rattle.gate_journal.specs.Inner.Decoding.{IsNotRead};
ghost use Rattle.gate_journal.specs.Reads.{OnlyReads};
ghost use Rattle.gate_journal.specs.Inner.Pieces.{DecodesBody, IsSoFar, TakesNext};
ghost use Rattle.gate_journal.specs.declared.pieces.TheConstants.{PIECE_BYTES};

use crate::decoders::Decodes;
use crate::decoding::of_opening;
use crate::error::OpenError;
use crate::journal::Journal;
use crate::noted::NotedBytes;
use tape_disk::Disk;

/// How many bytes of a body are read at once, at most. If the decoder does not need to see the next bytes, and these
/// are more than this number, they are passed over.
pub(crate) const PIECE_BYTES: usize = 65_536;

/// How many bytes are read at most in the piece after bytes that were passed over.
pub(crate) const JUMP_BYTES: usize = 4_096;

// How many bytes of a body were taken so far, how many are read next at most, and the bytes so far.
#[derive(Drop)]
struct SoFar {
    from: usize,
    wide: usize,
    bytes: NotedBytes,
}

// Gives the body of frame `frame` to the decoder. Returns false where the body is bad.
pub(crate) fn decode_body<D: Disk, T: Decodes>(
    journal: &mut Journal<D>,
    frame: usize,
    decoder: &mut T,
    buffer: &mut [u8],
) -> Result<bool, OpenError>
    requires fine { journal.old.failed ≡ false }
    requires frame { frame < length journal.old.extents }
    requires room { 1 ≤ length buffer.old }
    ensures disk { Keeps (D.state journal.old.disk) (D.state journal.new.disk) }
    ensures same { (journal.new.extents ≡ journal.old.extents)
        × (journal.new.front ≡ journal.old.front)
        × (journal.new.reserved_extents ≡ journal.old.reserved_extents) }
    ensures unwritten { (D.state journal.old.disk).honest →
        Unwritten (D.state journal.old.disk) (D.state journal.new.disk)
        × (journal.new.bodies ≡ journal.old.bodies) }
    ensures ok { IfOk result (λ good. (journal.new.failed ≡ false)
        × NoneFailed (D.state journal.old.disk) (D.state journal.new.disk)) }
    ensures decodes { IfOk result (λ good. DecodesBody T.has_read T.refuses good decoder.old decoder.new
        (slice_index_or journal.old.extents frame (0, 0)) (D.state journal.old.disk).honest
        (slice_index_or journal.old.bodies frame [])) }
    ensures refused { IfErr result (λ error.
        IsNotRead error (D.state journal.old.disk) (D.state journal.new.disk)) }
    ensures reads { OnlyReads D.effect journal.old.disk journal.new.disk }
{
    let (at, size) = journal.body_at(frame);
    decoder.begin_body();
    let mut so_far = SoFar {
        from: 0,
        wide: PIECE_BYTES,
        bytes: NotedBytes::none(),
    };
    while so_far.from < size as usize {
        if !take_next(journal, frame, decoder, buffer, &mut so_far)? {
            return Ok(false);
        }
    }
    Ok(decoder.end_body(at, &so_far.bytes))
}

// Gives the next bytes of the body to the decoder, or passes over them. Returns false where the body is bad.
fn take_next<D: Disk, T: Decodes>(
    journal: &mut Journal<D>,
    frame: usize,
    decoder: &mut T,
    buffer: &mut [u8],
    so_far: &mut SoFar,
) -> Result<bool, OpenError>
    requires fine { journal.old.failed ≡ false }
    requires frame { frame < length journal.old.extents }
    requires room { 1 ≤ length buffer.old }
    requires so_far { IsSoFar so_far.old (slice_index_or journal.old.extents frame (0, 0)).1
        (D.state journal.old.disk).honest (slice_index_or journal.old.bodies frame []) }
    requires more { so_far.old.from < (slice_index_or journal.old.extents frame (0, 0)).1 }
    requires within { (start : T) × T.is_within start decoder.old
        (slice_index_or journal.old.extents frame (0, 0)).0 so_far.old.bytes.bytes }
    ensures disk { Keeps (D.state journal.old.disk) (D.state journal.new.disk) }
    ensures same { (journal.new.extents ≡ journal.old.extents)
        × (journal.new.front ≡ journal.old.front)
        × (journal.new.reserved_extents ≡ journal.old.reserved_extents) }
    ensures unwritten { (D.state journal.old.disk).honest →
        Unwritten (D.state journal.old.disk) (D.state journal.new.disk)
        × (journal.new.bodies ≡ journal.old.bodies) }
    ensures ok { IfOk result (λ good. (journal.new.failed ≡ false)
        × NoneFailed (D.state journal.old.disk) (D.state journal.new.disk)) }
    ensures takes { IfOk result (λ good. TakesNext T.has_read T.refuses T.is_within good
        decoder.old decoder.new so_far.old so_far.new
        (slice_index_or journal.old.extents frame (0, 0)) (D.state journal.old.disk).honest
        (slice_index_or journal.old.bodies frame [])) }
    ensures refused { IfErr result (λ error.
        IsNotRead error (D.state journal.old.disk) (D.state journal.new.disk)) }
    ensures reads { OnlyReads D.effect journal.old.disk journal.new.disk }
{
    if decoder.unseen() > PIECE_BYTES {
        pass_over(journal, frame, decoder, so_far)
    } else {
        read_on(journal, frame, decoder, buffer, so_far)
    }
}

// Passes over the bytes that the decoder does not need to see, which are more than 65,536. Returns false where the body
// is bad.
fn pass_over<D: Disk, T: Decodes>(
    journal: &Journal<D>,
    frame: usize,
    decoder: &mut T,
    so_far: &mut SoFar,
) -> Result<bool, OpenError>
    requires frame { frame < length journal.now.extents }
    requires unseen { PIECE_BYTES < T.unseen decoder.old }
    requires so_far { IsSoFar so_far.old (slice_index_or journal.now.extents frame (0, 0)).1
        (D.state journal.now.disk).honest (slice_index_or journal.now.bodies frame []) }
    requires more { so_far.old.from < (slice_index_or journal.now.extents frame (0, 0)).1 }
    requires within { (start : T) × T.is_within start decoder.old
        (slice_index_or journal.now.extents frame (0, 0)).0 so_far.old.bytes.bytes }
    ensures takes { IfOk result (λ good. TakesNext T.has_read T.refuses T.is_within good
        decoder.old decoder.new so_far.old so_far.new
        (slice_index_or journal.now.extents frame (0, 0)) (D.state journal.now.disk).honest
        (slice_index_or journal.now.bodies frame [])) }
    ensures refused { IfErr result (λ error. error ≡ OpenError.NoMemory) }
{
    let (at, size) = journal.body_at(frame);
    let from = so_far.from;
    let count = decoder.unseen().min(size as usize - from);
    let good = decoder.pass(at, count)?;
    so_far.bytes = so_far.bytes.with_unread(journal, frame, from, count);
    so_far.from = from + count;
    so_far.wide = JUMP_BYTES;
    Ok(good)
}

// Reads the next bytes of the body and gives them to the decoder. Those that it does not need to see are at most
// 65,536. Returns false where the body is bad.
fn read_on<D: Disk, T: Decodes>(
    journal: &mut Journal<D>,
    frame: usize,
    decoder: &mut T,
    buffer: &mut [u8],
    so_far: &mut SoFar,
) -> Result<bool, OpenError>
    requires fine { journal.old.failed ≡ false }
    requires frame { frame < length journal.old.extents }
    requires room { 1 ≤ length buffer.old }
    requires unseen { T.unseen decoder.old ≤ PIECE_BYTES }
    requires so_far { IsSoFar so_far.old (slice_index_or journal.old.extents frame (0, 0)).1
        (D.state journal.old.disk).honest (slice_index_or journal.old.bodies frame []) }
    requires more { so_far.old.from < (slice_index_or journal.old.extents frame (0, 0)).1 }
    requires within { (start : T) × T.is_within start decoder.old
        (slice_index_or journal.old.extents frame (0, 0)).0 so_far.old.bytes.bytes }
    ensures disk { Keeps (D.state journal.old.disk) (D.state journal.new.disk) }
    ensures same { (journal.new.extents ≡ journal.old.extents)
        × (journal.new.front ≡ journal.old.front)
        × (journal.new.reserved_extents ≡ journal.old.reserved_extents) }
    ensures unwritten { (D.state journal.old.disk).honest →
        Unwritten (D.state journal.old.disk) (D.state journal.new.disk)
        × (journal.new.bodies ≡ journal.old.bodies) }
    ensures ok { IfOk result (λ good. (journal.new.failed ≡ false)
        × NoneFailed (D.state journal.old.disk) (D.state journal.new.disk)) }
    ensures takes { IfOk result (λ good. TakesNext T.has_read T.refuses T.is_within good
        decoder.old decoder.new so_far.old so_far.new
        (slice_index_or journal.old.extents frame (0, 0)) (D.state journal.old.disk).honest
        (slice_index_or journal.old.bodies frame [])) }
    ensures refused { IfErr result (λ error.
        IsNotRead error (D.state journal.old.disk) (D.state journal.new.disk)) }
    ensures reads { OnlyReads D.effect journal.old.disk journal.new.disk }
{
    let (at, size) = journal.body_at(frame);
    let from = so_far.from;
    let most = so_far.wide.min(size as usize - from);
    let count = most.min(buffer.len());
    match journal.read_body(at + from as u64, &mut buffer[..count]) {
        Ok(()) => {}
        Err(error) => return Err(of_opening(error)),
    }
    let good = decoder.feed(at, &buffer[..count])?;
    so_far.bytes = so_far.bytes.with(&buffer[..count]);
    so_far.from = from + count;
    so_far.wide = PIECE_BYTES;
    Ok(good)
}
