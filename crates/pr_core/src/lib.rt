//! Persistent reservations: who is registered, who holds a reservation, and what each order does to them.
#![tactic(auto)]

pub mod attns;
pub mod keepers;
pub mod laws;
mod machine;
mod preempting;
mod reads;
mod registering;
pub mod reservations;
mod reserving;
mod rows;
pub mod states;

pub use attns::Attns;
pub use keepers::{Keeper, KeeperError, NoKeeper};
pub use reservations::Reservations;
pub use states::{PrAnswer, PrState, Reservation};
