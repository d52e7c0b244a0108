//! Writing a copy on the side that does not count, after the first ten bytes of that side. These are not written, so
//! its gate stays as it is.
ghost use Rattle.std.specs.Prelude.{◌≡◌, ◌+◌, ◌-◌, ◌*◌, ◌<◌, ◌≤◌, [], ◌∷◌, ◌++◌, ℕ, List, length, take, OnOk, IfOk, IfErr, Result, vec_capacity, vec_len};
ghost use Rattle.std.specs.List.{flat_map};
ghost use Rattle.tape_disk.specs.Disk.{Keeps, Only, Passes};
ghost use Rattle.tape_disk.specs.Moments.{LeavesOnly};
ghost use Rattle.vtl_base.specs.declared.faults.DevFault.{DevFault};
ghost use Rattle.gate_journal.specs.Heads.{Head, IsCopied};
ghost use Rattle.gate_journal.specs.Side.{IsHeading, frame, heading_of};
ghost use Rattle.cartridge_sides.specs.declared.which.Which.{Which};
ghost use Rattle.cartridge_sides.specs.Copying.{HasCopied, HasFrames, IsCopyBody, KeepsFront, NotCopied, WasGiven, said_of};
ghost use Rattle.cartridge_sides.specs.Passes.{ReadsClosed, SidesStandFor};
ghost use Rattle.gate_journal.specs.Heads.{spell_side_head};
ghost use Rattle.vtl_base.specs.declared.limits.TheConstants.{COPY_BODY};
ghost use Rattle.vtl_base.specs.declared.layout.TheConstants.{BEGUN_BYTES, FRAME_HEAD, LONGEST_FRONT, OPEN};

use crate::spelling::{put_head, put_length};
use gate_journal::{Copied, Header};
use tape_disk::Disk;
use vtl_base::DevFault;
use vtl_base::layout::{BEGUN_BYTES, CLOSED, OPEN};

/// A source of the bodies of a copy, which supplies them one after another.
pub trait GivesBodies {
    // The first source gave this body, and is then the second.
    ghost gives: { Self → List ℕ → Self → Type 0 };

    // A device below the first source failed, and it is then the second.
    ghost fails: { Self → DevFault → Self → Type 0 };

    /// Appends the next body, of 1 to 4,194,304 bytes, to `buffer`, which must have room for 4,194,304 bytes more. An
    /// error is the fault of a device that the source reads.
    fn give(&mut self, buffer: &mut Vec<u8>) -> Result<(), DevFault>
        requires { vec_len buffer.old + COPY_BODY ≤ vec_capacity buffer.old }
        ensures room { vec_capacity buffer.old ≤ vec_capacity buffer.new }
        ensures ok { OnOk result ((body : List ℕ) × IsCopyBody body
            × (buffer.new.items ≡ buffer.old.items ++ body) × gives self.old body self.new) }
        ensures err { IfErr result (λ fault. fails self.old fault self.new) };
}

/// Writes a copy on `spare`, the side that does not count, after its first ten bytes. The copy is a head, made from
/// `header` and `copied`, as many frames as its base, and a closed gate. The bodies come from `source` one at a time,
/// through `buffer`, which must have room for 4,194,309 bytes. At Ok, where the disk is honest, a crash leaves the
/// whole copy. Suppose that before the call the disk is honest, the gate of `spare` is closed, and a crash would leave
/// exactly what reads return. Then the pair stands for the same as before at every moment of the call, and after a
/// fault of the disk or of the source.
pub fn write_copy<D: Disk, S: GivesBodies>(
    spare: &mut D,
    header: &Header,
    copied: Copied,
    source: &mut S,
    buffer: &mut Vec<u8>,
) -> Result<(), DevFault>
    requires header { IsHeading (heading_of header.now) }
    requires room { COPY_BODY + FRAME_HEAD ≤ vec_capacity buffer.old }
    ensures disk { Keeps (D.state spare.old) (D.state spare.new) }
    ensures ok { OnOk result (HasCopied S.gives (said_of header.now copied)
        source.old source.new (D.state spare.old) (D.state spare.new)) }
    ensures err { IfErr result (λ fault. NotCopied S.gives S.fails fault
        source.old source.new (D.state spare.old) (D.state spare.new)) }
    ensures any_moment { (D.state spare.old).honest → ReadsClosed (D.state spare.old).seen →
        Only (D.state spare.old).seen (D.state spare.old).may_leave →
        (which : Which) (head : Head) (bodies : List (List ℕ)) (counts : List ℕ) →
        SidesStandFor which head bodies counts (D.state spare.old).seen →
        LeavesOnly (D.state spare.old) (D.state spare.new) (SidesStandFor which head bodies counts) }
{
    let at = write_head(spare, header, copied, buffer)?;
    let end = write_frames(spare, at, copied.base, source, buffer)?;
    write_end(spare, end)
}

// Cuts the disk after its first ten bytes, and writes the head there. Returns the place after the head.
fn write_head<D: Disk>(
    spare: &mut D,
    header: &Header,
    copied: Copied,
    buffer: &mut Vec<u8>,
) -> Result<u64, DevFault>
    requires header { IsHeading (heading_of header.now) }
    requires room { LONGEST_FRONT - BEGUN_BYTES ≤ vec_capacity buffer.old }
    ensures passes { Passes (D.state spare.old) (D.state spare.new) result }
    ensures room { vec_capacity buffer.old ≤ vec_capacity buffer.new }
    ensures front { (D.state spare.old).honest →
        KeepsFront (D.state spare.old) (D.state spare.new) }
    ensures end { IfOk result (λ at. at ≤ LONGEST_FRONT) }
    ensures written { (D.state spare.old).honest → IfOk result (λ at.
        ((D.state spare.new).seen
        ≡ take BEGUN_BYTES (D.state spare.old).seen ++ spell_side_head (said_of header.now copied))
        × (at ≡ length (D.state spare.new).seen)) }
{
    put_head(buffer, header, copied);
    let at = spare.len().min(BEGUN_BYTES as u64);
    spare.cut(at)?;
    put_behind(spare, at, buffer)?;
    Ok(at + buffer.len() as u64)
}

// Writes `count` frames at place `at`, the end of the disk. Returns the place after them.
fn write_frames<D: Disk, S: GivesBodies>(
    spare: &mut D,
    at: u64,
    count: u32,
    source: &mut S,
    buffer: &mut Vec<u8>,
) -> Result<u64, DevFault>
    requires place { at ≤ LONGEST_FRONT }
    requires room { COPY_BODY + FRAME_HEAD ≤ vec_capacity buffer.old }
    requires end { (D.state spare.old).honest → at ≡ length (D.state spare.old).seen }
    ensures disk { Keeps (D.state spare.old) (D.state spare.new) }
    ensures ok { IfOk result (λ end. (bodies : List (List ℕ)) × HasFrames S.gives count bodies end
        source.old source.new (D.state spare.old) (D.state spare.new)) }
    ensures err { IfErr result (λ fault. NotCopied S.gives S.fails fault
        source.old source.new (D.state spare.old) (D.state spare.new)) }
    ensures front { (D.state spare.old).honest →
        KeepsFront (D.state spare.old) (D.state spare.new) }
{
    let mut end = at;
    for _i in 0..count {
        end = write_frame(spare, end, source, buffer)?;
    }
    Ok(end)
}

// Writes the next frame at place `at`, the end of the disk. Returns the place after the frame.
fn write_frame<D: Disk, S: GivesBodies>(
    spare: &mut D,
    at: u64,
    source: &mut S,
    buffer: &mut Vec<u8>,
) -> Result<u64, DevFault>
    requires place { at < 36028797018963968 }
    requires room { COPY_BODY + FRAME_HEAD ≤ vec_capacity buffer.old }
    requires end { (D.state spare.old).honest → at ≡ length (D.state spare.old).seen }
    ensures disk { Keeps (D.state spare.old) (D.state spare.new) }
    ensures room { vec_capacity buffer.old ≤ vec_capacity buffer.new }
    ensures ok { IfOk result (λ end. (body : List ℕ) × WasGiven S.gives body at end
        source.old source.new (D.state spare.old) (D.state spare.new)) }
    ensures err { IfErr result (λ fault. NotCopied S.gives S.fails fault
        source.old source.new (D.state spare.old) (D.state spare.new)) }
    ensures front { (D.state spare.old).honest →
        KeepsFront (D.state spare.old) (D.state spare.new) }
{
    buffer.clear();
    put_before_body(buffer);
    source.give(buffer)?;
    put_length(buffer);
    put_behind(spare, at, buffer)?;
    Ok(at + buffer.len() as u64)
}

// Puts an open gate and four bytes for a length into an empty buffer.
fn put_before_body(buffer: &mut Vec<u8>)
    requires none { buffer.old.items ≡ [] }
    requires room { FRAME_HEAD ≤ vec_capacity buffer.old }
    ensures items { buffer.new.items ≡ OPEN ∷ 0 ∷ 0 ∷ 0 ∷ 0 ∷ [] }
    ensures len { vec_len buffer.new ≡ FRAME_HEAD }
    ensures room { vec_capacity buffer.new ≡ vec_capacity buffer.old }
{
    buffer.push_reserved(OPEN);
    buffer.push_reserved(0);
    buffer.push_reserved(0);
    buffer.push_reserved(0);
    buffer.push_reserved(0);
}

// Writes a closed gate at place `end`, the end of the disk, and syncs. At Ok a crash leaves exactly what reads return.
fn write_end<D: Disk>(spare: &mut D, end: u64) -> Result<(), DevFault>
    requires end { (D.state spare.old).honest → end ≡ length (D.state spare.old).seen }
    ensures passes { Passes (D.state spare.old) (D.state spare.new) result }
    ensures front { (D.state spare.old).honest →
        KeepsFront (D.state spare.old) (D.state spare.new) }
    ensures sure { (D.state spare.old).honest → OnOk result
        (((D.state spare.new).seen ≡ (D.state spare.old).seen ++ 0 ∷ [])
        × Only (D.state spare.new).seen (D.state spare.new).may_leave) }
{
    put_behind(spare, end, &[CLOSED])?;
    spare.sync()
}

// Writes the bytes at place `at`, the end of the disk, and does not sync.
fn put_behind<D: Disk>(spare: &mut D, at: u64, bytes: &[u8]) -> Result<(), DevFault>
    requires end { (D.state spare.old).honest → at ≡ length (D.state spare.old).seen }
    ensures passes { Passes (D.state spare.old) (D.state spare.new) result }
    ensures front { (D.state spare.old).honest →
        KeepsFront (D.state spare.old) (D.state spare.new) }
    ensures written { (D.state spare.old).honest → OnOk result
        ((D.state spare.new).seen ≡ (D.state spare.old).seen ++ bytes.now) }
{
    spare.write_at(at, bytes)
}
