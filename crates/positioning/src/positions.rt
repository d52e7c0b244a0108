//! Positions, and the result of a motion.
use vtl_base::{ObjNo, PartNo};

/// The position on a tape where the next command works: before object `obj` of partition `part`. At the end of data
/// `obj` is how many objects the partition has (SSC-4, logical position).
#[derive(Clone, Copy, PartialEq, Eq, Debug)]
pub struct Pos {
    pub part: PartNo,
    pub obj: ObjNo,
}

/// Why a motion ended where it did (SSC-4, SPACE(6) and LOCATE(10)).
#[derive(Clone, Copy, PartialEq, Eq, Debug)]
pub enum Stop {
    /// The motion was completed.
    Done,
    /// A motion over blocks met a filemark.
    AtMark,
    /// The motion met the end of data.
    AtEnd,
    /// The motion met the beginning of the partition.
    AtStart,
}

/// Where a motion ended, why it ended there, and how much was left of its count.
#[derive(Clone, Copy, PartialEq, Eq, Debug)]
pub struct Moved {
    pub pos: Pos,
    pub stop: Stop,
    /// How many of the blocks or filemarks that were to be passed were not; 0 for LOCATE (SSC-4, INFORMATION of
    /// SPACE(6)).
    pub left: u32,
}
