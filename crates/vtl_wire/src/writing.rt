//! Writes bytes: all of them, or a beginning.
ghost use Rattle.std.specs.Prelude.{◌≡◌, ◌++◌, IfErr, OnOk, OnErr};
ghost use Rattle.std.specs.Io.KnownBytes.{Appends, Keeps};
ghost use Rattle.vtl_wire.specs.Frames.{spell_header};
ghost use Rattle.vtl_wire.specs.Writes.{AppendsFront};

use crate::faults::WireFault;
use crate::headers::Header;
use crate::interruptions::is_interrupted;
use std::io::Write;

// Writes all of these bytes. Where a write fails, a beginning of them is written. An interrupted write is made again.
// Nothing is flushed.
pub(crate) fn write_bytes<W: Write>(writer: &mut W, bytes: &[u8]) -> Result<(), WireFault>
    ensures ok { OnOk result (Appends (W.contents writer.old) (W.contents writer.new) bytes.now) }
    ensures err { OnErr result (AppendsFront (W.contents writer.old) (W.contents writer.new) bytes.now) }
    ensures fault { IfErr result (λ fault. fault ≡ WireFault.WriteFault) }
{
    let mut written = 0;
    for _ in 0..u64::MAX {
        if written == bytes.len() {
            return Ok(());
        }
        match writer.write(&bytes[written..]) {
            Ok(0) => return Err(WireFault::WriteFault),
            Ok(count) => written += count,
            Err(e) if is_interrupted(e.kind()) => {}
            Err(_) => return Err(WireFault::WriteFault),
        }
    }
    Err(WireFault::WriteFault)
}

// Writes `first`, and then `second`.
pub(crate) fn write_both<W: Write>(
    writer: &mut W,
    first: &[u8],
    second: &[u8],
) -> Result<(), WireFault>
    ensures ok { OnOk result (Appends (W.contents writer.old) (W.contents writer.new) (first.now ++ second.now)) }
    ensures err { OnErr result
        (AppendsFront (W.contents writer.old) (W.contents writer.new) (first.now ++ second.now)) }
    ensures fault { IfErr result (λ fault. fault ≡ WireFault.WriteFault) }
{
    write_bytes(writer, first)?;
    write_bytes(writer, second)
}

// Writes a header, then `front`, then `payload`.
pub(crate) fn write_frame<W: Write>(
    writer: &mut W,
    header: Header,
    front: &[u8],
    payload: &[u8],
) -> Result<(), WireFault>
    ensures ok { OnOk result (Appends (W.contents writer.old) (W.contents writer.new)
        (spell_header header ++ (front.now ++ payload.now))) }
    ensures err { OnErr result (AppendsFront (W.contents writer.old) (W.contents writer.new)
        (spell_header header ++ (front.now ++ payload.now))) }
    ensures fault { IfErr result (λ fault. fault ≡ WireFault.WriteFault) }
{
    write_bytes(writer, &header.bytes())?;
    write_both(writer, front, payload)
}

// Flushes what was written.
pub(crate) fn flush<W: Write>(writer: &mut W) -> Result<(), WireFault>
    ensures keeps { Keeps (W.contents writer.old) (W.contents writer.new) }
    ensures fault { IfErr result (λ fault. fault ≡ WireFault.WriteFault) }
{
    match writer.flush() {
        Ok(()) => Ok(()),
        Err(_) => Err(WireFault::WriteFault),
    }
}
