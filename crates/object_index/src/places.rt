//! Objects and where they lie.
ghost use Rattle.std.specs.Prelude.{◌≡◌, ◌<◌, ◌-◌, ◌^◌, length};
ghost use Rattle.volume_core.specs.Volume.{kind_of};
ghost use Rattle.object_index.specs.Places.{blank, filled, objects_of_run};
ghost use Rattle.object_index.specs.Inner.Tables.{AddsRun};

use change_records::Record;
use volume_core::Kind;
use vtl_base::ObjNo;

/// An object of a partition: a filemark, or a block of `length` bytes that lies at `place`, a number such as an offset
/// on a disk.
#[derive(Clone, Copy, PartialEq, Eq, Debug)]
pub enum Placed {
    Block { place: u64, length: u32 },
    Mark,
}

/// Objects that need at most one entry in an index: a block, or `count` consecutive filemarks.
#[derive(Clone, Copy, PartialEq, Eq, Debug)]
pub enum Run {
    Block { place: u64, length: u32 },
    Marks { count: u32 },
}

impl Placed {
    /// Whether the object is a block or a filemark.
    pub fn kind(self) -> Kind
        ensures { result ≡ kind_of (filled blank self) }
    {
        match self {
            Placed::Block { .. } => Kind::Block,
            Placed::Mark => Kind::Mark,
        }
    }
}

impl Run {
    // The run that a record adds, with its block at `place`; None for an erase, which adds nothing.
    pub(crate) fn of(item: Record, place: u64) -> Option<Run>
        requires { place < 2 ^ 64 - 1 }
        ensures { AddsRun item place result }
    {
        match item {
            Record::Put { length, .. } => Some(Run::Block { place, length }),
            Record::Marks { count, .. } => Some(Run::Marks { count }),
            Record::Erase { .. } => None,
        }
    }

    /// How many objects the run has.
    pub fn count(self) -> ObjNo
        ensures { result ≡ length (objects_of_run self) }
    {
        match self {
            Run::Block { .. } => 1,
            Run::Marks { count } => count,
        }
    }
}
