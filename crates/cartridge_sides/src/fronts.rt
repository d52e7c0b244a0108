//! The first bytes of a disk, by which it is decided which side counts.
ghost use Rattle.std.specs.Prelude.{◌≡◌, ◌<◌, ◌≤◌, length, take, IfOk};
ghost use Rattle.tape_disk.specs.Disk.{Passes};
ghost use Rattle.gate_journal.specs.Crash.{Unwritten};
ghost use Rattle.gate_journal.specs.Reads.{OnlyReads};
ghost use Rattle.vtl_base.specs.declared.layout.TheConstants.{LONGEST_FRONT};

use tape_disk::Disk;
use vtl_base::DevFault;
use vtl_base::layout::LONGEST_FRONT;

// Reads the first bytes of the disk into the buffer, 75 or as many as there are, and returns how many.
pub(crate) fn read_front<D: Disk>(disk: &mut D, bytes: &mut [u8]) -> Result<usize, DevFault>
    requires { length bytes.old ≡ LONGEST_FRONT }
    ensures passes { Passes (D.state disk.old) (D.state disk.new) result }
    ensures unwritten { (D.state disk.old).honest → Unwritten (D.state disk.old) (D.state disk.new) }
    ensures reads { OnlyReads D.effect disk.old disk.new }
    ensures inside { IfOk result (λ len. len ≤ LONGEST_FRONT) }
    ensures front { (D.state disk.old).honest →
        IfOk result (λ len. take len bytes.new ≡ take LONGEST_FRONT (D.state disk.old).seen) }
{
    let len = front_len(disk.len());
    disk.read_at(0, &mut bytes[..len])?;
    Ok(len)
}

// How many bytes are read of a disk of this length.
fn front_len(size: u64) -> usize
    ensures all { size < LONGEST_FRONT → result ≡ size }
    ensures front { LONGEST_FRONT ≤ size → result ≡ LONGEST_FRONT }
{
    if size < LONGEST_FRONT as u64 {
        size as usize
    } else {
        LONGEST_FRONT
    }
}
