//! Copies a volume to the side that does not count. From then on that side counts.
ghost use Rattle.std.specs.Prelude.{◌≡◌, ◌⊎◌, ◌+◌, ◌≤◌, List, ℕ, OnOk, vec_capacity};
ghost use Rattle.volume_core.specs.Volume.{Part};
ghost use Rattle.tape_disk.specs.TwoDisks.{AreHonest, EachOfTwo, KeepsDisks, TwoLeave, seen_of_two};
ghost use Rattle.gate_journal.specs.Heads.{Head};
ghost use Rattle.gate_journal.specs.Side.{IsHeading, heading_of};
ghost use Rattle.vtl_base.specs.declared.limits.TheConstants.{COPY_BODY};
ghost use Rattle.cartridge_sides.specs.Choosing.{FaultsOfOne};
ghost use Rattle.side_reclaim.specs.Ready.{GivesSide, IsReady};
ghost use Rattle.volume_reclaim.specs.Reclaiming.{GivesCopy, KeepsBesideCopy, MayReclaim, two_by};
ghost use Rattle.vtl_base.specs.declared.layout.TheConstants.{FRAME_HEAD};

use crate::blocks::Blocks;
use crate::source::Source;
use cartridge_sides::Which;
use gate_journal::{Copied, Header};
use object_index::Index;
use side_reclaim::{copy_over, make_ready};
use tape_disk::Disk;
use volume_copy::Cursor;
use vtl_base::DevFault;

/// The two disks after a reclaim, and its result: Ok, or the fault of one of the disks.
#[derive(Drop)]
pub struct Ended<D> {
    pub first: D,
    pub second: D,
    pub result: Result<(), DevFault>,
}

/// Copies a cartridge's volume from `which`, the side that counts, to the other side, which counts from then on.
/// `index` must have the places of the volume's blocks, `header` must be the heading of the side that counts, `copied`
/// the next epoch and how many frames the copy has, and `buffer` must have room for 4,194,309 bytes. The rest holds
/// where both disks are honest (keep the promises of a disk). At every moment, and after a fault of either disk, each
/// pair of images that a crash may leave stands for the same head and frames as before, or for the copy. At Ok the
/// side that counted before is still open, and is unchanged from byte 10 on; on the other side nothing follows the
/// copy. Over any disks, the call allocates no memory.
pub fn reclaim_volume<D: Disk>(
    which: Which,
    first: D,
    second: D,
    header: &Header,
    copied: Copied,
    index: Index,
    buffer: Vec<u8>,
) -> Ended<D>
    requires header { IsHeading (heading_of header.now) }
    requires room { COPY_BODY + FRAME_HEAD ≤ vec_capacity buffer }
    ensures disks { KeepsDisks D.state (record { first = first; second = second })
        (record { first = result.first; second = result.second }) }
    ensures faults { FaultsOfOne result.result (D.state first) (D.state result.first)
        (D.state second) (D.state result.second) }
    ensures ok { AreHonest D.state (record { first = first; second = second }) →
        (head : Head) (bodies : List (List ℕ)) (volume : List Part) →
        MayReclaim D.state (record { first = first; second = second }) which header.now copied index
        head bodies volume → OnOk result.result
        (EachOfTwo D.state (record { first = result.first; second = result.second })
        (GivesCopy which head volume)) }
    ensures sides { AreHonest D.state (record { first = first; second = second }) →
        (head : Head) (bodies : List (List ℕ)) (volume : List Part) →
        MayReclaim D.state (record { first = first; second = second }) which header.now copied index
        head bodies volume → OnOk result.result
        (EachOfTwo D.state (record { first = result.first; second = result.second })
        (KeepsBesideCopy which head volume
        (seen_of_two D.state (record { first = first; second = second })))) }
    ensures any_moment { AreHonest D.state (record { first = first; second = second }) →
        (head : Head) (bodies : List (List ℕ)) (volume : List Part) →
        MayReclaim D.state (record { first = first; second = second }) which header.now copied index
        head bodies volume →
        TwoLeave D.state (record { first = first; second = second })
        (record { first = result.first; second = result.second })
        (λ images. GivesSide which head bodies images ⊎ GivesCopy which head volume images) }
{
    let mut first = first;
    let mut second = second;
    match make_ready(which, &mut first, &mut second) {
        Ok(()) => match which {
            Which::First => {
                let done = copy_sides(which, first, second, header, copied, index, buffer);
                Ended {
                    first: done.counts,
                    second: done.spare,
                    result: done.result,
                }
            }
            Which::Second => {
                let done = copy_sides(which, second, first, header, copied, index, buffer);
                Ended {
                    first: done.spare,
                    second: done.counts,
                    result: done.result,
                }
            }
        },
        Err(fault) => Ended {
            first,
            second,
            result: Err(fault),
        },
    }
}

// The disks of both sides after a copy, and whether it was written.
#[derive(Drop)]
struct Copying<D> {
    counts: D,
    spare: D,
    result: Result<(), DevFault>,
}

// Copies the volume of an index to the side that does not count, where both disks are ready.
fn copy_sides<D: Disk>(
    which: Which,
    counts: D,
    spare: D,
    header: &Header,
    copied: Copied,
    index: Index,
    buffer: Vec<u8>,
) -> Copying<D>
    requires header { IsHeading (heading_of header.now) }
    requires room { COPY_BODY + FRAME_HEAD ≤ vec_capacity buffer }
    ensures disks { KeepsDisks D.state (record { first = counts; second = spare })
        (record { first = result.counts; second = result.spare }) }
    ensures faults { FaultsOfOne result.result (D.state counts) (D.state result.counts)
        (D.state spare) (D.state result.spare) }
    ensures ok { AreHonest D.state (two_by which counts spare) →
        (head : Head) (bodies : List (List ℕ)) (volume : List Part) →
        MayReclaim D.state (two_by which counts spare) which header.now copied index
        head bodies volume → IsReady D.state (two_by which counts spare) which → OnOk result.result
        (EachOfTwo D.state (two_by which result.counts result.spare) (GivesCopy which head volume)) }
    ensures sides { AreHonest D.state (two_by which counts spare) →
        (head : Head) (bodies : List (List ℕ)) (volume : List Part) →
        MayReclaim D.state (two_by which counts spare) which header.now copied index
        head bodies volume → IsReady D.state (two_by which counts spare) which → OnOk result.result
        (EachOfTwo D.state (two_by which result.counts result.spare)
        (KeepsBesideCopy which head volume (seen_of_two D.state (two_by which counts spare)))) }
    ensures any_moment { AreHonest D.state (two_by which counts spare) →
        (head : Head) (bodies : List (List ℕ)) (volume : List Part) →
        MayReclaim D.state (two_by which counts spare) which header.now copied index
        head bodies volume → IsReady D.state (two_by which counts spare) which →
        TwoLeave D.state (two_by which counts spare) (two_by which result.counts result.spare)
        (λ images. GivesSide which head bodies images ⊎ GivesCopy which head volume images) }
{
    // Read for the proof: the clauses speak of the side that counts.
    let _ = which;
    let mut spare = spare;
    let mut buffer = buffer;
    let mut source = Source {
        blocks: Blocks { disk: counts },
        index,
        cursor: Cursor::start(),
    };
    let result = copy_over(&mut spare, header, copied, &mut source, &mut buffer);
    let Source { blocks, .. } = source;
    Copying {
        counts: blocks.disk,
        spare,
        result,
    }
}
