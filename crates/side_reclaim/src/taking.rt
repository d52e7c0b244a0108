//! Writing a copy on the side that does not count, and opening its gate: the copy counts from then on.
ghost use Rattle.std.specs.Prelude.{◌≡◌, ◌+◌, ◌≤◌, List, ℕ, IfErr, OnOk, vec_capacity};
ghost use Rattle.tape_disk.specs.Disk.{Keeps};
ghost use Rattle.tape_disk.specs.Moments.{LeavesOnly};
ghost use Rattle.gate_journal.specs.Heads.{Head};
ghost use Rattle.gate_journal.specs.Side.{IsHeading, heading_of};
ghost use Rattle.cartridge_sides.specs.declared.which.Which.{Which};
ghost use Rattle.vtl_base.specs.declared.limits.TheConstants.{COPY_BODY};
ghost use Rattle.cartridge_sides.specs.Copying.{NotCopied};
ghost use Rattle.side_reclaim.specs.Taking.{HasTaken, MayTake, WithOrWithoutCopy};
ghost use Rattle.vtl_base.specs.declared.layout.TheConstants.{FRAME_HEAD};

use cartridge_sides::{GivesBodies, open_copy, write_copy};
use gate_journal::{Copied, Header};
use tape_disk::Disk;
use vtl_base::DevFault;

/// Writes a copy to `spare`, the side that does not count, and opens the gate of that side: after Ok the copy counts.
/// The head of the copy is made from `header` and `copied`. Its bodies come from `source`, through `buffer`, which must
/// have a capacity of at least 4,194,309 bytes. At every moment, and after a fault of the disk or of the source, each
/// pair of images that a crash may leave stands for the same as before, or for the copy.
pub fn copy_over<D: Disk, S: GivesBodies>(
    spare: &mut D,
    header: &Header,
    copied: Copied,
    source: &mut S,
    buffer: &mut Vec<u8>,
) -> Result<(), DevFault>
    requires header { IsHeading (heading_of header.now) }
    requires room { COPY_BODY + FRAME_HEAD ≤ vec_capacity buffer.old }
    ensures disk { Keeps (D.state spare.old) (D.state spare.new) }
    ensures ok { OnOk result ((copies : List (List ℕ)) × HasTaken S.gives header.now copied copies
        source.old source.new (D.state spare.old) (D.state spare.new)) }
    ensures err { IfErr result (λ fault. NotCopied S.gives S.fails fault
        source.old source.new (D.state spare.old) (D.state spare.new)) }
    ensures any_moment { (D.state spare.old).honest →
        (which : Which) (head : Head) (bodies : List (List ℕ)) (counts : List ℕ) →
        MayTake header.now copied which head bodies counts (D.state spare.old) →
        LeavesOnly (D.state spare.old) (D.state spare.new)
        (WithOrWithoutCopy S.gives copied.base source.old source.new which head bodies counts) }
{
    write_copy(spare, header, copied, source, buffer)?;
    open_copy(spare)
}
