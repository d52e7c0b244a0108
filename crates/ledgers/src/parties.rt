//! A ledger, and the number of its parties.
ghost use Rattle.std.specs.Prelude.{ℕ};

use std::marker::Brand;
use std::sync::ledger::Ledger;

/// A ledger with one part for each of its parties, which are bays or hosts. `all` is the number of parties; it is
/// stated here, since the invariant of a type cannot name a ledger's `parts` (own).
pub trait Parties: Ledger {
    /// How many parties there are, each with one part.
    ghost all: { ℕ };
}

impl Parties for Brand {
    ghost all = { 0 };
}
