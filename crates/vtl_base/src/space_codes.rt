//! The codes of SPACE.

/// What SPACE counts, as the field CODE of its command block says (SSC-4, SPACE(6)). This decides the kind of motion.
#[derive(Clone, Copy, PartialEq, Eq, Debug)]
pub enum SpaceCode {
    Blocks,
    Filemarks,
    /// Nothing is counted: the motion goes to the end of data.
    EndOfData,
}
