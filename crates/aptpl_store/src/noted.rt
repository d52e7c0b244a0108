//! Notes of what a side holds, for proofs alone. They take no memory: only the disk has the saved states.
ghost use Rattle.std.specs.Prelude.{◌≡◌};
ghost use Rattle.aptpl_store.specs.NotedStates.{NotedStates, no_notes, with_state, with_torn_state};

use noted_values::{NotedValue, note};
use pr_core::Reservations;
use std::marker::Model;

/// The kind under which the notes of a side are noted. No value of this type is made.
pub(crate) struct StatesNote {}

impl Model for StatesNote {
    ghost use Rattle.aptpl_store.specs.NotedStates.{NotedStates, no_notes};
    ghost use Rattle.aptpl_store.specs.Codes.{noted_states_code};

    ghost Value = { NotedStates };

    ghost coded = { noted_states_code };

    ghost view = { λ _. no_notes };
}

/// The notes of a side: the states that were saved, and the one whose save failed, if there is one.
#[derive(Drop)]
pub(crate) struct Noted {
    pub notes: NotedValue<StatesNote>,
}

impl Noted {
    /// The notes of a side with no frames.
    pub(crate) fn none() -> Noted
        ensures { result.notes ≡ no_notes }
    {
        Noted { notes: note(&0u8) }
    }

    /// The notes with one more state.
    pub(crate) fn with_state(&self, state: &Reservations) -> Noted
        ensures { result.notes ≡ with_state self.now.notes state.now }
    {
        Noted {
            notes: note(&(self, state)),
        }
    }

    /// The notes, with this state as the one whose save failed: the side may have it or not.
    pub(crate) fn with_torn_state(&self, state: &Reservations) -> Noted
        ensures { result.notes ≡ with_torn_state self.now.notes state.now }
    {
        Noted {
            notes: note(&(self, state)),
        }
    }
}
