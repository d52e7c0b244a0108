//! A count without a bound, which takes no bytes: only proofs see it.
ghost use Rattle.std.specs.Prelude.{◌≡◌, ◌+◌, ℕ};

use std::marker::{Model, PhantomData};

/// How often something happened.
#[derive(Drop)]
pub(crate) struct Count {
    marker: PhantomData<()>,
    pub ghost value: { ℕ },
}

impl Model for Count {
    ghost use base.Fml.{ftrue};

    ghost also_owns = { λ _. ftrue };
}

impl Count {
    pub(crate) fn new() -> Count
        ensures { result.value ≡ 0 }
    {
        start(&0)
    }

    /// Returns a count that is greater by one.
    pub(crate) fn after(&self) -> Count
        ensures { result.value ≡ self.now.value + 1 }
    {
        like(self)
    }

    pub(crate) fn copy(&self) -> Count
        ensures { result.value ≡ self.now.value }
    {
        like(self)
    }
}

fn start(_any: &u64) -> Count
    ensures { result.value ≡ 0 }
{
    Count {
        marker: PhantomData,
    }
}

fn like(_count: &Count) -> Count
    ghost number: { ℕ }
    ensures { result.value ≡ number }
{
    Count {
        marker: PhantomData,
    }
}

unsafe impl Send for Count {}
