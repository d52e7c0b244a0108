//! Spells changes in bytes, and reads the changes that bytes spell.
ghost use Rattle.std.specs.Prelude.{◌≡◌, ◌≤◌, ◌<◌, ◌+◌, ◌++◌, ◌∷◌, [], IfOk, IfErr, OnOk, OnErr, length, vec_len, vec_capacity};
ghost use Rattle.std.specs.Int.{to_be_bytes, w32};
ghost use Rattle.change_records.specs.Records.{IsRecord, NotDecoded, SpellsAll, spell_change, spell_head};

use crate::records::{Record, RecordError};
use byteorder::{BigEndian, ByteOrder};
use std::alloc::{AllocError, Global};
use volume_core::Change;
use vtl_base::layout::{BLOCK, ERASE, MARKS, RECORD_HEAD, RECORD_NUMBER, RECORD_OBJECT};
use vtl_base::{NoMemory, ObjNo, PartNo};

/// Appends the spelling of a change to `into`. Allocates memory only where the capacity of `into` is too small. If
/// memory then runs out, the bytes in `into` are as before.
pub fn encode_change(change: &Change, into: &mut Vec<u8>) -> Result<(), NoMemory>
    requires { IsRecord change.now }
    ensures ok { OnOk result (into.new.items ≡ into.old.items ++ spell_change change.now) }
    ensures err { OnErr result (into.new.items ≡ into.old.items) }
    ensures memory { OnErr result
        (vec_capacity into.old < vec_len into.old + length (spell_change change.now)) }
    ensures room { vec_capacity into.old ≤ vec_capacity into.new }
{
    into.reserve(Record::of(change).size())?;
    let (head, block) = spelled_parts(change);
    into.extend_from_slice(&head)?;
    into.extend_from_slice(block)?;
    Ok(())
}

/// The spelling of a change in two parts: the 10 bytes of its record's head, and the bytes after them. These are the
/// bytes of the block, borrowed and not copied; there are none for filemarks and for an erase.
pub fn spelled_parts(change: &Change) -> ([u8; RECORD_HEAD], &[u8])
    requires { IsRecord change.now }
    ensures { result.0 ++ result.1.now ≡ spell_change change.now }
{
    match change {
        Change::Put { part, at, block } => {
            let bytes = block.as_slice();
            (head(BLOCK, *part, *at, bytes.len() as u32), bytes)
        }
        Change::Marks { part, at, count } => (head(MARKS, *part, *at, *count), &[]),
        Change::Erase { part, at } => (head(ERASE, *part, *at, 0), &[]),
    }
}

// The head of a record.
fn head(kind: u8, part: PartNo, at: ObjNo, number: u32) -> [u8; RECORD_HEAD]
    ensures { result ≡ spell_head kind part at number }
{
    let mut head = [0; RECORD_HEAD];
    head[0] = kind;
    head[1] = part;
    BigEndian::write_u32(&mut head[RECORD_OBJECT..], at);
    BigEndian::write_u32(&mut head[RECORD_NUMBER..], number);
    head
}

/// The list of changes that `bytes` spell, with a copy of each block. Empty `bytes` spell the empty list. The error is
/// `BadRecord`, with the place of the first record that is wrong or not whole, or `NoMemory` where memory runs out.
pub fn decode_changes(alloc: Global, bytes: &[u8]) -> Result<Vec<Change>, RecordError>
    ensures ok { IfOk result (λ changes. SpellsAll bytes.now changes.items) }
    ensures err { IfErr result (λ error. NotDecoded bytes.now error) }
{
    let mut changes = Vec::new(alloc);
    let mut at = 0;
    while at < bytes.len() {
        let rest = &bytes[at..];
        let Some(item) = Record::read(rest) else {
            return Err(RecordError::BadRecord { at });
        };
        let change = item.change(alloc, rest)?;
        changes.reserve(1)?;
        changes.push_reserved(change);
        at += item.size();
    }
    Ok(changes)
}
