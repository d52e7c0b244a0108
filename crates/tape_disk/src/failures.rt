//! The failures of a disk.
ghost use Rattle.std.specs.Prelude.{◌≡◌, ◌+◌, ◌-◌, ◌^◌, min, ℕ};

use crate::count::Count;
use vtl_base::DevFault;

/// The count of a disk's failures. The count has no bound; the number that a fault reports stops at 2^64 - 1.
#[derive(Drop)]
pub struct Failures {
    known: u64,
    pub(crate) count: Count,
    ghost counted: { known ≡ min count.value (2 ^ 64 - 1) },
}

impl Failures {
    ghost use Rattle.tape_disk.specs.Failures.{failure_count};

    /// Returns a count of 0 failures.
    pub fn none() -> Failures
        ensures { failure_count result ≡ 0 }
    {
        Failures {
            known: 0,
            count: Count::new(),
        }
    }

    /// Counts one more failure, and returns a fault that reports the new count, or 2^64 - 1 where the count is greater.
    pub fn rise(&mut self) -> DevFault
        ensures count { failure_count self.new ≡ failure_count self.old + 1 }
        ensures reported { result.failures ≡ min (failure_count self.new) (2 ^ 64 - 1) }
    {
        let Failures { known, count } = self;
        *count = count.after();
        *known = known.saturating_add(1);
        DevFault { failures: *known }
    }

    pub(crate) fn copy(&self) -> Failures
        ensures { failure_count result ≡ failure_count self.now }
    {
        Failures {
            known: self.known,
            count: self.count.copy(),
        }
    }
}
