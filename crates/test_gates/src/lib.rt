//! What tests open a library with: a gate of a flusher, and what is required of drives and hosts.
#![tactic(auto)]

mod opening;

use library::Gate;
pub use opening::{Unfit, count_fresh, hosts};
use volume_core::Turn;

/// A gate that is always open, and does nothing.
#[derive(Clone, Copy, Debug, Drop)]
pub struct OpenGate;

impl Gate for OpenGate {
    fn before_turn(&self) -> bool {
        true
    }

    fn in_turn(&self) {}

    fn after_turn(&self, _turn: Turn) {}
}
