//! Drives over disks, slots, and moves of cartridges between them; and what is left on the disks at whatever moment a
//! drive is stopped.
#![tactic(auto)]

mod answering;
mod apart;
pub mod bays;
mod finishing;
pub mod held;
pub mod laws;
pub mod lent;
mod moves;
pub mod parked;
pub mod runs;

pub use answering::{answer, take_turn};
pub use bays::{Bay, NotOn};
pub use finishing::Unwritten;
pub use held::{Held, Inventory};
pub use lent::move_lent;
pub use moves::drive_of;
pub use parked::Parked;
pub use runs::run_held;
pub use vtl_script::run_script;
