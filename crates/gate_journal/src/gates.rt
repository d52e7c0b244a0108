//! The last gates of a side. After a failed sync they may not be on the device, so `file_disk` looks for them.
ghost use Rattle.std.specs.Prelude.{◌≤◌, length};
ghost use Rattle.tape_disk.specs.Disk.{Keeps};
ghost use Rattle.gate_journal.specs.Crash.{Unwritten};
ghost use Rattle.gate_journal.specs.Gates.{FindsGates};
ghost use Rattle.gate_journal.specs.Reads.{OnlyReads};
ghost use Rattle.gate_journal.specs.Inner.Gates.{FindsLast, FindsWhole};

use crate::error::JournalError;
use crate::fronts::base_in;
use crate::reading::{find_start, read_mark};
use tape_disk::Disk;
use vtl_base::DevFault;
use vtl_base::layout::FRAME_HEAD;

/// The last gates of a side: the place of each, in bytes from the start of the side.
#[derive(Clone, Copy, PartialEq, Eq, Debug)]
pub struct Gates {
    /// The place of the last open gate: that of the last frame, or the side's own gate where it has no frame.
    pub last: u64,
    /// The place of the end gate, the closed gate after the last frame.
    pub end: u64,
}

/// Finds the last gates of the side on the disk; the side may be of either kind. Returns None where the disk holds no
/// side, or a damaged one. The call only reads the disk, does not sync it, and allocates nothing.
pub fn last_gates<D: Disk>(disk: &mut D) -> Result<Option<Gates>, DevFault>
    ensures disk { Keeps (D.state disk.old) (D.state disk.new) }
    ensures unwritten { (D.state disk.old).honest →
        Unwritten (D.state disk.old) (D.state disk.new) }
    ensures reads { OnlyReads D.effect disk.old disk.new }
    ensures answer { FindsGates result (D.state disk.old) (D.state disk.new) }
{
    match find_gates(disk) {
        Ok(gates) => Ok(Some(gates)),
        // Bytes that are no side have no gates.
        Err(JournalError::NotOurs) => Ok(None),
        Err(JournalError::Damaged { .. }) => Ok(None),
        Err(JournalError::Device(fault)) => Err(fault),
        Err(JournalError::SideFull) => unreachable!(),
        Err(JournalError::Failed) => unreachable!(),
        Err(JournalError::NoMemory) => unreachable!(),
    }
}

// The last gates of the side on the disk, or why it holds none.
fn find_gates<D: Disk>(disk: &mut D) -> Result<Gates, JournalError>
    ensures disk { Keeps (D.state disk.old) (D.state disk.new) }
    ensures unwritten { (D.state disk.old).honest →
        Unwritten (D.state disk.old) (D.state disk.new) }
    ensures reads { OnlyReads D.effect disk.old disk.new }
    ensures answer { FindsWhole result (D.state disk.old) (D.state disk.new) }
{
    let front = find_start(disk)?;
    walk_frames(disk, front.size as u64, base_in(front.copied))
}

// Finds the last gates of a side whose first frame has its gate at place `start`. With fewer than `base` frames the
// side is damaged.
fn walk_frames<D: Disk>(disk: &mut D, start: u64, base: u32) -> Result<Gates, JournalError>
    requires { (D.state disk.old).honest → start ≤ length (D.state disk.old).seen }
    ensures disk { Keeps (D.state disk.old) (D.state disk.new) }
    ensures unwritten { (D.state disk.old).honest →
        Unwritten (D.state disk.old) (D.state disk.new) }
    ensures reads { OnlyReads D.effect disk.old disk.new }
    ensures answer { FindsLast result start base (D.state disk.old) (D.state disk.new) }
{
    let len = disk.len();
    if start >= len {
        return Err(JournalError::Damaged { at: start });
    }
    let mut last = 0;
    let mut frames = 0;
    let mut at = start;
    while let Some(size) = read_mark(disk, at, len)? {
        last = at;
        frames += 1;
        at += FRAME_HEAD + u64::from(size);
    }
    if frames < u64::from(base) {
        return Err(JournalError::Damaged { at });
    }
    Ok(Gates { last, end: at })
}
