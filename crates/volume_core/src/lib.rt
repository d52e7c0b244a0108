//! Objects on a tape, volumes and their changes, and what a medium is.
#![tactic(auto)]

pub mod changes;
pub mod media;
mod object_list;
pub mod objects;
mod partitions;
pub mod plain;
pub mod refusals;
pub mod volumes;

pub use changes::{Change, Demand, Refusal};
pub use media::{Catalog, Medium, MediumError, NotAccepted, Turn};
pub use objects::{Kind, Object};
pub use plain::PlainMedium;
pub use refusals::{refusal, refusal_for};
pub use volumes::{ApplyError, NotApplied, Volume, are_capacities, is_in_early_zone};
