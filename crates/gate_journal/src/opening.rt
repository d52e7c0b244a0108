//! Opening a side.
ghost use Rattle.std.specs.Prelude.{◌≡◌, Some, false, IfOk, IfErr};
ghost use Rattle.tape_disk.specs.Disk.{Keeps, Only};
ghost use Rattle.tape_disk.specs.Moments.{LeavesOnly};
ghost use Rattle.gate_journal.specs.Side.{StandsFor};
ghost use Rattle.gate_journal.specs.Answers.{NoneFailed, NotOpened, NotOpenedAs, disk_after};
ghost use Rattle.gate_journal.specs.Reads.{OnlyOpenings, SyncsFirst};
ghost use Rattle.gate_journal.specs.Inner.Asked.{IsAsked, NotOpenedAsked};

use crate::frame::Frame;
use crate::reading::{Frames, ReadFront, read_side};
use crate::{Journal, Refused, SideKind};
use std::alloc::Global;
use tape_disk::Disk;

impl<D: Disk> Journal<D> {
    /// Opens the side on the disk. The call begins with a sync, and writes nothing: at every moment of the call, a
    /// crash leaves only what it might have left before. At Ok, and after `NotOurs`, `Damaged` and `NoMemory`, a crash
    /// leaves exactly the bytes that reads returned before the call.
    pub fn open(alloc: Global, disk: D) -> Result<Journal<D>, Refused<D>>
        ensures disk { Keeps (D.state disk) (D.state (disk_after result)) }
        ensures ok { IfOk result (λ journal. (journal.failed ≡ false)
            × NoneFailed (D.state disk) (D.state journal.disk)
            × ((D.state disk).honest → StandsFor journal.front journal.bodies (D.state disk).seen
            × Only (D.state disk).seen (D.state journal.disk).may_leave)) }
        ensures refused { IfErr result (λ refused.
            NotOpened refused.error (D.state disk) (D.state refused.disk)) }
        ensures any_moment { (D.state disk).honest →
            LeavesOnly (D.state disk) (D.state (disk_after result)) (D.state disk).may_leave }
        ensures reads { OnlyOpenings D.effect disk (disk_after result) }
        ensures begins { SyncsFirst D.effect disk (disk_after result) }
    {
        Self::open_asked(alloc, disk, None)
    }

    /// Opens the side on the disk as `open` does, if it is of kind `kind`. For a side of the other kind the error is
    /// `NotOurs`, even where the side is damaged, since the front is read before any frame.
    pub fn open_as(alloc: Global, disk: D, kind: SideKind) -> Result<Journal<D>, Refused<D>>
        ensures disk { Keeps (D.state disk) (D.state (disk_after result)) }
        ensures ok { IfOk result (λ journal. (journal.front.head.heading.kind ≡ kind) × (journal.failed ≡ false)
            × NoneFailed (D.state disk) (D.state journal.disk)
            × ((D.state disk).honest → StandsFor journal.front journal.bodies (D.state disk).seen
            × Only (D.state disk).seen (D.state journal.disk).may_leave)) }
        ensures refused { IfErr result (λ refused.
            NotOpenedAs kind refused.error (D.state disk) (D.state refused.disk)) }
        ensures any_moment { (D.state disk).honest →
            LeavesOnly (D.state disk) (D.state (disk_after result)) (D.state disk).may_leave }
        ensures reads { OnlyOpenings D.effect disk (disk_after result) }
        ensures begins { SyncsFirst D.effect disk (disk_after result) }
    {
        Self::open_asked(alloc, disk, Some(kind))
    }

    // Opens the side on the disk as `open` does, if it is of kind `asked`; None asks for a side of either kind.
    fn open_asked(alloc: Global, disk: D, asked: Option<SideKind>) -> Result<Journal<D>, Refused<D>>
        ensures disk { Keeps (D.state disk) (D.state (disk_after result)) }
        ensures ok { IfOk result (λ journal. IsAsked asked journal.front.head.heading.kind
            × (journal.failed ≡ false) × NoneFailed (D.state disk) (D.state journal.disk)
            × ((D.state disk).honest → StandsFor journal.front journal.bodies (D.state disk).seen
            × Only (D.state disk).seen (D.state journal.disk).may_leave)) }
        ensures refused { IfErr result (λ refused.
            NotOpenedAsked asked refused.error (D.state disk) (D.state refused.disk)) }
        ensures any_moment { (D.state disk).honest →
            LeavesOnly (D.state disk) (D.state (disk_after result)) (D.state disk).may_leave }
        ensures reads { OnlyOpenings D.effect disk (disk_after result) }
        ensures begins { SyncsFirst D.effect disk (disk_after result) }
    {
        let mut disk = disk;
        match read_side(alloc, &mut disk, asked) {
            Ok((front, frames)) => {
                let ReadFront {
                    header,
                    copied,
                    pair,
                    ..
                } = front;
                let Frames { extents, end } = frames;
                Ok(Journal {
                    disk,
                    header,
                    copied,
                    pair,
                    extents,
                    buffer: Frame::new(alloc),
                    reserved_extents: 0,
                    end,
                    failed: false,
                })
            }
            Err(error) => Err(Refused { error, disk }),
        }
    }
}
