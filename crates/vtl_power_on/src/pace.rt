//! How soon a drive's flusher, the thread that stores what its buffer holds, takes its next turn.
ghost use Rattle.std.specs.Prelude.{◌≡◌};
ghost use Rattle.vtl_power_on.specs.Pace.{rest_of};

use library::Gate;
use std::thread;
use std::time::{Clock, Duration};
use volume_core::Turn;
use vtl_base::limits::{BUFFER_BYTES, MAX_BLOCK};

// A turn that stored this many changes may have stored a full buffer: so many of the longest blocks fill it.
const MUCH: usize = BUFFER_BYTES / MAX_BLOCK as usize;

// How long a flusher rests where its turn stored less, in milliseconds.
const REST: u64 = 2;

/// Returns how many milliseconds a flusher rests after a turn: 2 after a turn that stored some changes, but fewer than
/// 4, and 0 after any other turn. After a turn that stored nothing, or failed, the flusher waits for a change anyway.
pub fn rest_after(turn: Turn) -> u64
    ensures { result ≡ rest_of turn }
{
    match turn {
        Turn::Stored(changes) if changes < MUCH => REST,
        _ => 0,
    }
}

/// The gate of every flusher of the program: it always lets the next turn begin. After a turn that stored some changes,
/// but fewer than 4, the flusher rests 2 milliseconds before the next one, so that changes gather meanwhile.
#[derive(Clone, Copy)]
pub struct Pace<'a, R> {
    /// The runtime, by whose clock a flusher rests.
    pub rt: &'a R,
}

impl<'a, R: Clock> Gate for Pace<'a, R> {
    fn before_turn(&self) -> bool {
        true
    }

    fn in_turn(&self) {}

    fn after_turn(&self, turn: Turn) {
        let rest = rest_after(turn);
        if rest > 0 {
            thread::sleep(self.rt, Duration::from_millis(rest));
        }
    }
}
