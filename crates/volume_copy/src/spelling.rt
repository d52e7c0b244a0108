//! Spells the frames of a copy, one after another. It takes no memory.
ghost use Rattle.std.specs.Prelude.{◌≡◌, ◌≢◌, ◌≤◌, ◌+◌, ◌-◌, [], ◌∷◌, ◌++◌, ℕ, List, IfErr, IfNone, IfOk, IfSome, OnOk, length, take, vec_capacity, vec_len};
ghost use Rattle.change_records.specs.Records.{spell_head};
ghost use Rattle.volume_copy.specs.declared.entries.Entry.{Entry};
ghost use Rattle.vtl_base.specs.declared.limits.TheConstants.{COPY_BODY};
ghost use Rattle.volume_copy.specs.Entries.{entries_from, entry_size};
ghost use Rattle.volume_copy.specs.Frames.{NoMoreFits};
ghost use Rattle.volume_copy.specs.Spelling.{IsBlockRead, SpellsEntry, SpellsFrame, record_head};

use crate::blocks::ReadsBlocks;
use crate::cursor::{Ahead, Cursor};
use crate::entries::Entry;
use byteorder::{BigEndian, ByteOrder};
use change_records::Record;
use object_index::Index;
use volume_core::Catalog;
use vtl_base::layout::{BLOCK, ERASE, MARKS, RECORD_HEAD, RECORD_NUMBER, RECORD_OBJECT};
use vtl_base::limits::COPY_BODY;
use vtl_base::{DevFault, ObjNo, PartNo};

/// Appends the body of the frame that begins at `start` to `buffer`, and returns the position after that frame.
/// `reader` reads the blocks from the places that `index` has for them. An entry must follow `start`, and `buffer` must
/// have free capacity for 4,194,304 bytes. The error is the reader's; `buffer` may then have any bytes.
pub fn spell_frame<R: ReadsBlocks>(
    start: Cursor,
    index: &Index,
    reader: &mut R,
    buffer: &mut Vec<u8>,
) -> Result<Cursor, DevFault>
    requires some { entries_from index.now start.part start.at ≢ [] }
    requires room { vec_len buffer.old + COPY_BODY ≤ vec_capacity buffer.old }
    ensures room { vec_capacity buffer.old ≤ vec_capacity buffer.new }
    ensures reads { OnOk result (R.reads reader.old reader.new) }
    ensures ok { IfOk result (λ behind. (frame : List Entry) × (body : List ℕ)
        × (buffer.new.items ≡ buffer.old.items ++ body)
        × SpellsFrame (R.honest reader.old) (R.lies reader.old) frame
        (entries_from index.now behind.part behind.at)
        (entries_from index.now start.part start.at) body) }
    ensures err { IfErr result (λ fault. R.fails reader.old fault reader.new) }
{
    // Called for the proof: the index is within the limits of a volume.
    let _ = index.parts();
    let mut cursor = start;
    let mut bytes = 0;
    while let Some(ahead) = fitting(cursor, index, bytes) {
        put_entry(ahead.entry, reader, buffer)?;
        bytes += ahead.entry.item.size();
        cursor = ahead.behind;
    }
    Ok(cursor)
}

// The next entry of a copy. None at the end of the copy, or where the entry does not fit after the first `bytes` bytes
// of a frame.
fn fitting(cursor: Cursor, index: &Index, bytes: usize) -> Option<Ahead>
    requires { bytes ≤ COPY_BODY }
    ensures next { IfSome result (λ ahead. entries_from index.now cursor.part cursor.at
        ≡ ahead.entry ∷ entries_from index.now ahead.behind.part ahead.behind.at) }
    ensures fits { IfSome result (λ ahead. bytes + entry_size ahead.entry ≤ COPY_BODY) }
    ensures none { IfNone result
        (NoMoreFits entry_size bytes (entries_from index.now cursor.part cursor.at)) }
{
    let ahead = cursor.next(index)?;
    if ahead.entry.item.size() <= COPY_BODY - bytes {
        Some(ahead)
    } else {
        None
    }
}

// Appends the record of an entry to the buffer.
fn put_entry<R: ReadsBlocks>(
    entry: Entry,
    reader: &mut R,
    buffer: &mut Vec<u8>,
) -> Result<(), DevFault>
    requires room { vec_len buffer.old + entry_size entry ≤ vec_capacity buffer.old }
    ensures room { vec_capacity buffer.old ≤ vec_capacity buffer.new }
    ensures reads { OnOk result (R.reads reader.old reader.new) }
    ensures ok { OnOk result ((bytes : List ℕ) × (buffer.new.items ≡ buffer.old.items ++ bytes)
        × SpellsEntry (R.honest reader.old) (R.lies reader.old) entry bytes) }
    ensures err { IfErr result (λ fault. R.fails reader.old fault reader.new) }
{
    put(buffer, &head_of(entry.item));
    match entry.item {
        Record::Put { length, .. } => put_block(entry.place, length, reader, buffer),
        Record::Marks { .. } | Record::Erase { .. } => Ok(()),
    }
}

// Reads the block of `size` bytes that lies at `place`, and appends it to the buffer.
fn put_block<R: ReadsBlocks>(
    place: u64,
    size: u32,
    reader: &mut R,
    buffer: &mut Vec<u8>,
) -> Result<(), DevFault>
    requires room { vec_len buffer.old + size ≤ vec_capacity buffer.old }
    ensures room { vec_capacity buffer.old ≤ vec_capacity buffer.new }
    ensures reads { OnOk result (R.reads reader.old reader.new) }
    ensures ok { OnOk result ((block : List ℕ) × (buffer.new.items ≡ buffer.old.items ++ block)
        × IsBlockRead (R.honest reader.old) (R.lies reader.old) place size block) }
    ensures err { IfErr result (λ fault. R.fails reader.old fault reader.new) }
{
    let from = buffer.len();
    let Ok(()) = buffer.resize(from + size as usize, 0) else {
        unreachable!()
    };
    read_behind(place, from, reader, buffer)
}

// Reads the block that lies at `place` over all bytes after the first `from`.
fn read_behind<R: ReadsBlocks>(
    place: u64,
    from: usize,
    reader: &mut R,
    bytes: &mut [u8],
) -> Result<(), DevFault>
    requires from { from ≤ length bytes.old }
    ensures reads { OnOk result (R.reads reader.old reader.new) }
    ensures ok { OnOk result ((block : List ℕ) × (bytes.new ≡ take from bytes.old ++ block)
        × IsBlockRead (R.honest reader.old) (R.lies reader.old) place
        (length bytes.old - from) block) }
    ensures err { IfErr result (λ fault. R.fails reader.old fault reader.new) }
{
    reader.read(place, &mut bytes[from..])
}

// Appends bytes to the buffer.
fn put(buffer: &mut Vec<u8>, bytes: &[u8])
    requires { vec_len buffer.old + length bytes.now ≤ vec_capacity buffer.old }
    ensures items { buffer.new.items ≡ buffer.old.items ++ bytes.now }
    ensures len { vec_len buffer.new ≡ vec_len buffer.old + length bytes.now }
    ensures room { vec_capacity buffer.old ≤ vec_capacity buffer.new }
{
    let Ok(()) = buffer.extend_from_slice(bytes) else {
        unreachable!()
    };
}

// The head of a record.
fn head_of(item: Record) -> [u8; RECORD_HEAD]
    ensures { result ≡ record_head item }
{
    match item {
        Record::Put { part, at, length } => head(BLOCK, part, at, length),
        Record::Marks { part, at, count } => head(MARKS, part, at, count),
        Record::Erase { part, at } => head(ERASE, part, at, 0),
    }
}

// The head of a record of this kind.
fn head(kind: u8, part: PartNo, at: ObjNo, number: u32) -> [u8; RECORD_HEAD]
    ensures { result ≡ spell_head kind part at number }
{
    let mut head = [0; RECORD_HEAD];
    head[0] = kind;
    head[1] = part;
    BigEndian::write_u32(&mut head[RECORD_OBJECT..], at);
    BigEndian::write_u32(&mut head[RECORD_NUMBER..], number);
    head
}
