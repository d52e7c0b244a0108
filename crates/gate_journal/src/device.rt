//! The calls of the disk that make a side: it is cut off, written and synced, its gate is opened, and it is synced.
ghost use Rattle.std.specs.Prelude.{◌≡◌, ◌<◌, ◌≤◌, [], ◌∷◌, length, drop, OnOk};
ghost use Rattle.tape_disk.specs.Disk.{DiskState, Only, Passes, Smeared, overwritten};
ghost use Rattle.tape_disk.specs.Moments.{LeavesOnly};
ghost use Rattle.gate_journal.specs.Side.{OPEN};
ghost use Rattle.gate_journal.specs.Inner.Writing.{Touched};

use tape_disk::Disk;
use vtl_base::DevFault;
use vtl_base::layout::OPEN;

// Writes the bytes at place `at`, and syncs. At Ok a crash leaves exactly what reads return.
fn store_at<D: Disk>(disk: &mut D, at: u64, bytes: &[u8]) -> Result<(), DevFault>
    requires { (D.state disk.old).honest → at ≤ length (D.state disk.old).seen }
    ensures passes { Passes (D.state disk.old) (D.state disk.new) result }
    ensures any_moment { (D.state disk.old).honest →
        LeavesOnly (D.state disk.old) (D.state disk.new)
        (Touched at (length bytes.now) (D.state disk.old).may_leave) }
    ensures stored { (D.state disk.old).honest → OnOk result
        (((D.state disk.new).seen ≡ overwritten at bytes.now (D.state disk.old).seen)
        × Only (D.state disk.new).seen (D.state disk.new).may_leave) }
{
    disk.write_at(at, bytes)?;
    disk.sync()
}

// Opens the gate at place `at`. Before the call a crash must leave exactly what reads return.
fn open_gate<D: Disk>(disk: &mut D, at: u64) -> Result<(), DevFault>
    requires gate { (D.state disk.old).honest → at < length (D.state disk.old).seen }
    requires sure { (D.state disk.old).honest →
        Only (D.state disk.old).seen (D.state disk.old).may_leave }
    ensures passes { Passes (D.state disk.old) (D.state disk.new) result }
    ensures any_moment { (D.state disk.old).honest →
        LeavesOnly (D.state disk.old) (D.state disk.new)
        (Smeared at 1 (D.state disk.old).seen) }
    ensures opened { (D.state disk.old).honest → OnOk result
        (((D.state disk.new).seen ≡ overwritten at (OPEN ∷ []) (D.state disk.old).seen)
        × Only (D.state disk.new).seen (D.state disk.new).may_leave) }
{
    store_at(disk, at, &[OPEN])
}

// Makes the disk hold exactly these bytes, and then opens the gate that is the first of them.
pub(crate) fn write_new<D: Disk>(disk: &mut D, bytes: &[u8]) -> Result<(), DevFault>
    requires { 0 < length bytes.now }
    ensures passes { Passes (D.state disk.old) (D.state disk.new) result }
    ensures written { (D.state disk.old).honest → OnOk result
        (((D.state disk.new).seen ≡ OPEN ∷ drop 1 bytes.now)
        × Only (D.state disk.new).seen (D.state disk.new).may_leave) }
{
    disk.cut(0)?;
    store_at(disk, 0, bytes)?;
    open_gate(disk, 0)
}
