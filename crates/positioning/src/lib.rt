//! The position of the next command on a tape, where SPACE and LOCATE end, and the data of READ POSITION.
#![tactic(auto)]

pub mod laws;
mod motions;
mod positions;
mod reports;
mod walks;

pub use motions::{locate, space};
pub use positions::{Moved, Pos, Stop};
pub use reports::{is_near_end, report};
pub use vtl_base::SpaceCode;
