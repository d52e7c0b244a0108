//! The ten bytes of a prepared side: a closed gate, the mark of a cartridge's side, and a closed pair gate.
ghost use Rattle.std.specs.Prelude.{◌≡◌, OnOk};
ghost use Rattle.tape_disk.specs.Disk.{Only, Passes};
ghost use Rattle.tape_disk.specs.Moments.{LeavesOnly};
ghost use Rattle.gate_journal.specs.Side.{CLOSED};
ghost use Rattle.cartridge_sides.specs.Pairs.{begun};

use tape_disk::Disk;
use vtl_base::DevFault;
use vtl_base::layout::{BEGUN_BYTES, CARTRIDGE_MARK, CLOSED, MARK_PLACE, PAIR_GATE};

// The ten bytes, with closed gates.
fn closed_start() -> [u8; BEGUN_BYTES]
    ensures { result ≡ begun CLOSED CLOSED }
{
    let mut bytes = [CLOSED; BEGUN_BYTES];
    bytes[MARK_PLACE..PAIR_GATE].copy_from_slice(&CARTRIDGE_MARK);
    bytes
}

// Makes the disk hold exactly the ten bytes with closed gates. At Ok a crash leaves exactly these.
pub(crate) fn write_start<D: Disk>(disk: &mut D) -> Result<(), DevFault>
    ensures passes { Passes (D.state disk.old) (D.state disk.new) result }
    ensures time { (D.state disk.old).honest →
        LeavesOnly (D.state disk.old) (D.state disk.new) (λ image. Unit {0}) }
    ensures written { (D.state disk.old).honest → OnOk result
        (((D.state disk.new).seen ≡ begun CLOSED CLOSED)
        × Only (D.state disk.new).seen (D.state disk.new).may_leave) }
{
    disk.cut(0)?;
    disk.write_at(0, &closed_start())?;
    disk.sync()
}
