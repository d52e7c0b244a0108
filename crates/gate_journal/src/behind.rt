//! Frames behind the end of a side: they count for nothing, and no stop leaves any.
ghost use Rattle.std.specs.Prelude.{◌≡◌, ◌<◌, length};
ghost use Rattle.std.specs.Int.{to_be_bytes, w32};
ghost use Rattle.tape_disk.specs.Disk.{Keeps};
ghost use Rattle.gate_journal.specs.Behind.{FindsBehind};
ghost use Rattle.gate_journal.specs.Crash.{Unwritten};
ghost use Rattle.gate_journal.specs.Reads.{OnlyReads};
ghost use Rattle.gate_journal.specs.Inner.Behind.{FindsHidden};

use crate::gates::last_gates;
use byteorder::{BigEndian, ByteOrder};
use tape_disk::Disk;
use vtl_base::DevFault;
use vtl_base::layout::{FRAME_HEAD, LENGTH_BYTES, OPEN};
use vtl_base::limits::MAX_BODY;

/// Looks for frames behind the end of the side on the disk, of either kind: a whole frame behind its end gate, and an
/// open gate behind that frame. A stop leaves no open gate there. Returns the place of the end gate, in bytes from the
/// start of the side, if they are there. Returns None if they are not, and where the disk holds no side or a damaged
/// one. The call only reads the disk, does not sync it, and allocates nothing.
pub fn frames_behind<D: Disk>(disk: &mut D) -> Result<Option<u64>, DevFault>
    ensures disk { Keeps (D.state disk.old) (D.state disk.new) }
    ensures unwritten { (D.state disk.old).honest →
        Unwritten (D.state disk.old) (D.state disk.new) }
    ensures reads { OnlyReads D.effect disk.old disk.new }
    ensures answer { FindsBehind result (D.state disk.old) (D.state disk.new) }
{
    let Some(gates) = last_gates(disk)? else {
        return Ok(None);
    };
    if hides_frames(disk, gates.end)? {
        Ok(Some(gates.end))
    } else {
        Ok(None)
    }
}

// Whether the gate at place `at` would begin a whole frame with an open gate behind it, if it were open itself.
fn hides_frames<D: Disk>(disk: &mut D, at: u64) -> Result<bool, DevFault>
    requires { (D.state disk.old).honest → at < length (D.state disk.old).seen }
    ensures disk { Keeps (D.state disk.old) (D.state disk.new) }
    ensures unwritten { (D.state disk.old).honest →
        Unwritten (D.state disk.old) (D.state disk.new) }
    ensures reads { OnlyReads D.effect disk.old disk.new }
    ensures answer { FindsHidden result at (D.state disk.old) (D.state disk.new) }
{
    let len = disk.len().saturating_sub(at);
    if len < FRAME_HEAD {
        return Ok(false);
    }
    let mut bytes = [0; LENGTH_BYTES];
    disk.read_at(at + 1, &mut bytes)?;
    let size = number_in(&bytes);
    if size == 0 || size > MAX_BODY || u64::from(size) + FRAME_HEAD >= len {
        return Ok(false);
    }
    let mut gate = [0];
    disk.read_at(at + FRAME_HEAD + u64::from(size), &mut gate)?;
    Ok(gate[0] == OPEN)
}

// The number in four bytes.
fn number_in(bytes: &[u8; LENGTH_BYTES]) -> u32
    ensures { bytes.now ≡ to_be_bytes w32 result }
{
    BigEndian::read_u32(bytes)
}
