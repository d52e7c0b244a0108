//! A count of the steps of a search.
ghost use Rattle.std.specs.Prelude.{◌≡◌, ◌≤◌};
ghost use Rattle.vtl_base.specs.Steps.{ticked};

use std::marker::Model;

/// A count of the steps that a search took. It stops at 2^64 - 1. A contract sees this number.
#[derive(Drop)]
pub struct Steps {
    count: u64,
}

impl Model for Steps {
    ghost use Rattle.std.specs.Prelude.{ℕ};

    ghost Value = { ℕ };

    ghost view = { λ s. s.count };
}

impl Steps {
    /// A count of 0 steps.
    pub fn new() -> Self
        ensures { result ≡ 0 }
    {
        Steps { count: 0 }
    }

    /// Counts one more step.
    pub fn tick(&mut self)
        ensures count { self.new ≡ ticked self.old }
        ensures grows { self.old ≤ self.new }
    {
        self.count = self.count.saturating_add(1);
    }

    /// How many steps were counted, at most 2^64 - 1.
    pub fn count(&self) -> u64
        ensures { result ≡ self.now }
    {
        self.count
    }
}
