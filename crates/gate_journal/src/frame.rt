//! The body of a frame, or its beginning, in the buffer that is written to the disk.
ghost use Rattle.std.specs.Prelude.{◌≡◌, ◌≤◌, ◌<◌, ◌+◌, ◌^◌, [], ◌∷◌, ◌++◌, length, take, drop, max, slice_index, OnOk, OnErr, vec_len, vec_capacity};
ghost use Rattle.tape_disk.specs.Disk.{DiskState, Only, Passes};
ghost use Rattle.tape_disk.specs.Moments.{LeavesOnly};
ghost use Rattle.std.specs.Int.{to_be_bytes, w32};
ghost use Rattle.gate_journal.specs.Cuts.{CutsFirst};
ghost use Rattle.gate_journal.specs.Followed.{FrameHasRoom, KeepsRoom, followed};
ghost use Rattle.gate_journal.specs.Side.{IsBody};
ghost use Rattle.gate_journal.specs.Spelled.{body_taken};
ghost use Rattle.gate_journal.specs.Inner.Writing.{BehindOrGated, opened, tail_of};
ghost use Rattle.vtl_base.specs.declared.layout.TheConstants.{LENGTH_BYTES};

use crate::body_parts::BodyParts;
use crate::gathering::{extend, write_frame};
use byteorder::{BigEndian, ByteOrder};
use std::alloc::{AllocError, Global};
use std::marker::Model;
use tape_disk::Disk;
use vtl_base::DevFault;
use vtl_base::layout::LENGTH_BYTES;

/// How many bytes stand around a body in its buffer: 4 for its length before it, and 1 for the next gate after it.
pub(crate) const AROUND: usize = LENGTH_BYTES + 1;

/// The body of a frame, or the beginning of one where parts follow (`BodyParts`), in the buffer that is written to the
/// disk. In the buffer, 4 bytes for the body's length come before the body, and 1 byte for the next gate comes after
/// it. A `Frame` is reused for many bodies.
#[derive(Drop, Debug)]
pub struct Frame {
    // Empty, or the bytes of the length and the body.
    bytes: Vec<u8>,
}

impl Model for Frame {
    ghost use Rattle.std.specs.Prelude.{◌≤◌, ◌<◌, ◌+◌, ◌-◌, drop, vec_len, vec_capacity};
    ghost use Rattle.vtl_base.specs.declared.layout.TheConstants.{LENGTH_BYTES};
    ghost use Rattle.gate_journal.specs.Spelled.{SpelledBody, spelled_code};

    ghost Value = { SpelledBody };

    ghost coded = { spelled_code };

    ghost view = { λ a. record {
      body = drop LENGTH_BYTES a.bytes.items;
      room = vec_capacity a.bytes - (LENGTH_BYTES + 1);
    } };

    ghost invariant = { λ a. (LENGTH_BYTES + 1 < vec_capacity a.bytes → LENGTH_BYTES ≤ vec_len a.bytes)
        × (LENGTH_BYTES < vec_len a.bytes → vec_len a.bytes < vec_capacity a.bytes) };
}

impl Frame {
    /// Creates a frame with no body and no room for one. The call allocates nothing.
    pub fn new(alloc: Global) -> Frame
        ensures body { result.body ≡ [] }
        ensures room { result.room ≡ 0 }
    {
        Frame {
            bytes: Vec::new(alloc),
        }
    }

    /// The length of the longest body for which the frame has memory, in bytes.
    pub fn room(&self) -> usize
        ensures { result ≡ self.now.room }
    {
        self.bytes.capacity().saturating_sub(AROUND)
    }

    /// The bytes of the body.
    pub fn body(&self) -> &[u8]
        ensures { result.now ≡ self.now.body }
    {
        if self.bytes.len() < LENGTH_BYTES {
            return &[];
        }
        &self.bytes[LENGTH_BYTES..]
    }

    /// Removes the body. The memory stays reserved.
    pub fn clear(&mut self)
        ensures { self.new ≡ body_taken self.old }
    {
        self.bytes.truncate(LENGTH_BYTES);
    }

    /// Removes the body, and reserves memory for a body of `body` bytes and for the 5 bytes around it. If less is
    /// reserved so far, exactly that much is requested. After an error the body is removed too, and the room is as
    /// before.
    pub fn reserve(&mut self, body: usize) -> Result<(), AllocError>
        ensures body { self.new.body ≡ [] }
        ensures grows { self.old.room ≤ self.new.room }
        ensures ok { OnOk result (body ≤ self.new.room) }
        ensures exact { OnOk result (self.new.room ≡ max self.old.room body) }
        ensures err { OnErr result ((self.old.room < body) × (self.new.room ≡ self.old.room)) }
    {
        self.clear();
        if body <= self.room() {
            return Ok(());
        }
        let Some(bytes) = body.checked_add(AROUND) else {
            return Err(AllocError);
        };
        self.bytes.reserve_exact(bytes - self.bytes.len())?;
        put_length(&mut self.bytes);
        Ok(())
    }

    /// Appends `bytes` to the body. The room of the frame must be enough for the longer body. The call allocates
    /// nothing.
    pub fn extend_reserved(&mut self, bytes: &[u8])
        requires { length self.old.body + length bytes.now ≤ self.old.room }
        ensures body { self.new.body ≡ self.old.body ++ bytes.now }
        ensures room { self.old.room ≤ self.new.room }
    {
        if bytes.is_empty() {
            return;
        }
        extend(&mut self.bytes, bytes);
    }

    // How many bytes the body has with the parts behind it.
    pub(crate) fn size_with<P: BodyParts>(&self, parts: &P) -> u32
        requires { IsBody (followed self.now.body (P.parts parts.now)) }
        ensures { result ≡ length (followed self.now.body (P.parts parts.now)) }
    {
        (self.body().len() + parts.size()) as u32
    }

    // Removes what stands after the gate at place `end`, writes the length, the body with the parts behind it and the
    // next gate, closed, there, and then opens the gate at `end`. At Ok the disk ends with the next gate. The body is
    // removed from the frame, after a fault too.
    pub(crate) fn write_behind<D: Disk, P: BodyParts>(
        &mut self,
        disk: &mut D,
        end: u64,
        parts: &P,
    ) -> Result<(), DevFault>
        requires body { IsBody (followed self.old.body (P.parts parts.now)) }
        requires fits { FrameHasRoom (P.parts parts.now) (length (followed self.old.body (P.parts parts.now)))
            self.old.room }
        requires room { end + AROUND + 1 + length (followed self.old.body (P.parts parts.now)) < 2 ^ 64 }
        requires gate { (D.state disk.old).honest → end < length (D.state disk.old).seen }
        requires sure { (D.state disk.old).honest →
            Only (D.state disk.old).seen (D.state disk.old).may_leave }
        ensures frame { (self.new.body ≡ []) × KeepsRoom (P.parts parts.now) self.old.room self.new.room }
        ensures passes { Passes (D.state disk.old) (D.state disk.new) result }
        ensures any_moment { (D.state disk.old).honest →
            LeavesOnly (D.state disk.old) (D.state disk.new)
            (BehindOrGated (take end (D.state disk.old).seen)
            (slice_index (D.state disk.old).seen end) (tail_of (followed self.old.body (P.parts parts.now)))) }
        ensures opened { (D.state disk.old).honest → OnOk result
            (((D.state disk.new).seen
            ≡ opened (take end (D.state disk.old).seen) (tail_of (followed self.old.body (P.parts parts.now))))
            × Only (D.state disk.new).seen (D.state disk.new).may_leave) }
        ensures first { (D.state disk.old).honest → end + 1 < length (D.state disk.old).seen →
            CutsFirst D.effect (end + 1) disk.old }
    {
        let size = self.size_with(parts);
        put_size(&mut self.bytes, size);
        let written = write_frame(disk, end, &mut self.bytes, parts);
        put_length(&mut self.bytes);
        written
    }
}

// Makes a buffer, which has room for them, hold four bytes for a length and nothing else.
fn put_length(bytes: &mut Vec<u8>)
    requires { LENGTH_BYTES ≤ vec_capacity bytes.old }
    ensures bytes { bytes.new.items ≡ 0 ∷ 0 ∷ 0 ∷ 0 ∷ [] }
    ensures room { vec_capacity bytes.new ≡ vec_capacity bytes.old }
{
    bytes.clear();
    bytes.push_reserved(0);
    bytes.push_reserved(0);
    bytes.push_reserved(0);
    bytes.push_reserved(0);
}

// Puts the length of a body into the four bytes before it.
fn put_size(bytes: &mut Vec<u8>, size: u32)
    requires { LENGTH_BYTES ≤ length bytes.old.items }
    ensures bytes { bytes.new.items ≡ to_be_bytes w32 size ++ drop LENGTH_BYTES bytes.old.items }
    ensures room { vec_capacity bytes.new ≡ vec_capacity bytes.old }
{
    BigEndian::write_u32(bytes, size);
}

unsafe impl Send for Frame {}
