//! Two ledgers whose totals are always equal, one of the bays and one of the hosts, and a book of moves.
#![tactic(auto)]

mod books;
pub mod gathering;
pub mod moves;
pub mod parties;
pub mod shares;
pub mod tally;

pub use gathering::{Gathering, SeatsMissing};
pub use moves::{MoveBook, Moves};
pub use parties::Parties;
pub use shares::PartyShare;
pub use tally::Tally;
