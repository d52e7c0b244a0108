//! What the reader of a round has seen of the other threads.
ghost use Rattle.std.specs.Prelude.{◌≡◌};

use crate::bells::Bells;
use std::sync::Wait;
use std::time::Clock;

/// What the reader of a round has seen: whether not all threads have begun, and whether a write has failed. Only the
/// two calls below set this, each from the bells alone.
#[derive(Drop)]
pub(crate) struct Seen {
    late: bool,
    stopped: bool,
}

impl Seen {
    /// Waits for the threads of the round as `Bells::have_begun` does, and notes whether not all of them have begun.
    pub(crate) fn begin<R: Wait + Clock>(rt: &R, bells: &Bells) -> Seen {
        Seen {
            late: !bells.have_begun(rt),
            stopped: false,
        }
    }

    /// Whether not all threads had begun.
    pub(crate) fn are_late(&self) -> bool
        ensures { result ≡ self.now.late }
    {
        self.late
    }

    /// Looks whether a write has failed, and notes it.
    pub(crate) fn look(&mut self, bells: &Bells) -> bool
        ensures stopped { result ≡ self.new.stopped }
        ensures late { self.new.late ≡ self.old.late }
    {
        self.stopped = bells.is_stopped();
        self.stopped
    }
}
