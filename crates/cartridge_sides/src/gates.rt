//! Reading and overwriting one gate of a side.
ghost use Rattle.std.specs.Prelude.{◌≡◌, ◌<◌, [], ◌∷◌, length, slice_index, OnOk, IfOk};
ghost use Rattle.tape_disk.specs.Disk.{Only, Passes, Smeared, overwritten};
ghost use Rattle.tape_disk.specs.Moments.{LeavesOnly};
ghost use Rattle.gate_journal.specs.Crash.{Unwritten};

use tape_disk::Disk;
use vtl_base::DevFault;
use vtl_base::layout::CLOSED;

// The byte at place `at`; 00h, a closed gate, where the disk ends before that place.
pub(crate) fn read_gate<D: Disk>(disk: &mut D, at: u64) -> Result<u8, DevFault>
    ensures passes { Passes (D.state disk.old) (D.state disk.new) result }
    ensures unwritten { (D.state disk.old).honest → Unwritten (D.state disk.old) (D.state disk.new) }
    ensures gate { (D.state disk.old).honest → IfOk result (λ gate. gate ≡ slice_index (D.state disk.old).seen at) }
{
    if disk.len() <= at {
        return Ok(CLOSED);
    }
    let mut gate = [0];
    disk.read_at(at, &mut gate)?;
    Ok(gate[0])
}

// Overwrites the gate at place `at` with the byte `gate`, and syncs. At Ok a crash leaves exactly what reads return.
// Where the disk ends before that place, nothing is written.
pub(crate) fn write_gate<D: Disk>(disk: &mut D, at: u64, gate: u8) -> Result<(), DevFault>
    ensures passes { Passes (D.state disk.old) (D.state disk.new) result }
    ensures any_moment { (D.state disk.old).honest → at < length (D.state disk.old).seen →
        Only (D.state disk.old).seen (D.state disk.old).may_leave →
        LeavesOnly (D.state disk.old) (D.state disk.new) (Smeared at 1 (D.state disk.old).seen) }
    ensures written { (D.state disk.old).honest → at < length (D.state disk.old).seen → OnOk result
        (((D.state disk.new).seen ≡ overwritten at (gate ∷ []) (D.state disk.old).seen)
        × Only (D.state disk.new).seen (D.state disk.new).may_leave) }
{
    if disk.len() <= at {
        return Ok(());
    }
    disk.write_at(at, &[gate])?;
    disk.sync()
}
