//! The bytes of a body, up to the length of the longest state.
ghost use Rattle.std.specs.Prelude.{◌≡◌, ◌+◌, ◌<◌, ◌++◌, [], length, true, false};
ghost use Rattle.vtl_base.specs.declared.layout.TheConstants.{STATE_BYTES};

use std::marker::Model;
use vtl_base::layout::STATE_BYTES;

// The bytes of a body so far. A contract sees them as a list.
#[derive(Drop)]
pub(crate) struct StateBody {
    bytes: [u8; STATE_BYTES],
    filled: usize,
}

impl Model for StateBody {
    ghost use Rattle.std.specs.Prelude.{List, ℕ, ◌≤◌, take};
    ghost use Rattle.vtl_base.specs.declared.layout.TheConstants.{STATE_BYTES};

    ghost Value = { List ℕ };

    ghost view = { λ b. take b.filled b.bytes };

    ghost invariant = { λ b. b.filled ≤ STATE_BYTES };
}

impl StateBody {
    pub(crate) fn new() -> Self
        ensures { result ≡ [] }
    {
        StateBody {
            bytes: [0; STATE_BYTES],
            filled: 0,
        }
    }

    // Takes the next bytes. Returns false where these are more than a state has.
    pub(crate) fn add(&mut self, piece: &[u8]) -> bool
        ensures added { result ≡ true → self.new ≡ self.old ++ piece.now }
        ensures long { result ≡ false → STATE_BYTES < length self.old + length piece.now }
    {
        if piece.len() > STATE_BYTES - self.filled {
            return false;
        }
        let filled = self.filled;
        self.bytes[filled..filled + piece.len()].copy_from_slice(piece);
        self.filled = filled + piece.len();
        true
    }

    pub(crate) fn bytes(&self) -> &[u8]
        ensures { result.now ≡ self.now }
    {
        &self.bytes[..self.filled]
    }
}
