//! Sends an item from one thread to another, through a ring.
ghost use Rattle.std.specs.Prelude.{◌≡◌, ◌∷◌, ◌++◌, []};
ghost use Rattle.rtrb.specs.Ring.{SameProducer, sent};

use crate::bells::Bell;
use rtrb::{Producer, PushError};
use std::sync::Wait;

/// Pushes an item into `ring`; where the ring is full, waits for room first. `bell` rings when there is more room.
pub(crate) fn push_waiting<T, R: Wait>(rt: &R, bell: &Bell, ring: &mut Producer<T>, item: T)
    ensures same { SameProducer ring.old ring.new }
    ensures sent { sent ring.new ≡ sent ring.old ++ item ∷ [] }
{
    let mut item = item;
    for _ in rt.forever() {
        let count = bell.count(rt);
        match ring.push(item) {
            Ok(()) => return,
            Err(PushError::Full(back)) => item = back,
        }
        bell.wait(rt, count);
    }
    unreachable!()
}
