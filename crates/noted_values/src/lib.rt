//! A value that only proofs see, and that takes no memory.
#![tactic(auto)]

ghost use Rattle.std.specs.Prelude.{◌≡◌};

use std::marker::{Model, PhantomData};

/// A value that only proofs see, and that takes no memory. The type `N` says of which kind it is: contracts see it
/// as they would see an `N` (`Model`). No value of type `N` itself is needed.
pub struct NotedValue<N> {
    marker: PhantomData<N>,
    pub ghost value: { N } by { N.code },
}

impl<N> Model for NotedValue<N> {
    ghost use base.Fml.{ftrue};

    ghost Value = { N };

    ghost coded = { N.code };

    ghost view = { λ n. n.value };

    ghost also_owns = { λ _. ftrue };
}

impl<N> Drop for NotedValue<N> {
    fn drop(self) {
        let Self { marker: _ } = self;
    }
}

/// Returns a noted value. The caller's proof names it, in terms of what `_from` refers to, which no code reads.
pub fn note<N, A>(_from: &A) -> NotedValue<N>
    ghost value: { N }
    ensures { result ≡ value }
{
    NotedValue {
        marker: PhantomData,
    }
}

/// Returns a noted value. The caller's proof names it, in terms of what `_from` and `_with` refer to, which no code
/// reads.
pub fn note_both<N, A, B>(_from: &A, _with: &B) -> NotedValue<N>
    ghost value: { N }
    ensures { result ≡ value }
{
    note(&0u8)
}

unsafe impl<N> Send for NotedValue<N> {}
