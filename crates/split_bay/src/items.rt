//! What goes through a drive's ring.
use crate::noted::NotedBeginning;
use volume_core::Change;

/// What the hosts' half of a bay sends to the disk's half.
#[derive(Drop)]
pub enum Item {
    /// A change that the hosts' half accepted.
    Sent(Change),
    /// A span begins: both halves are held, and all that was sent before is received.
    Begins(NotedBeginning),
}
