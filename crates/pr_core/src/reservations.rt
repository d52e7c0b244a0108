//! The reservations of a drive.
ghost use Rattle.std.specs.Prelude.{◌≡◌, ◌≤◌, ◌↔◌, ◌||◌, not, is_some, length, take, IfOk, IfSome, IsOk, IsSome};
ghost use Rattle.pr_core.specs.Sound.{IsSound};
ghost use Rattle.pr_core.specs.States.{empty_state, is_allowed, power_loss};
ghost use Rattle.pr_core.specs.Orders.{Orders};
ghost use Rattle.pr_core.specs.Saves.{differ_at, is_same_reservation, needs_save};
ghost use Rattle.pr_core.specs.Reads.{keys_read, reservation_read};

use crate::attns::Attns;
use crate::reads::{keys_read, reservation_read};
use crate::reserving::is_same_type;
use crate::rows::any;
use crate::states::{PrAnswer, PrState, Reservation};
use scsi_lists::PrOut;
use std::alloc::Global;
use std::marker::Model;
use vtl_base::{Bytes, Nexus, NoMemory};

/// The registrations and the reservation of a drive. A contract sees them as a state that meets the rules that
/// `Reservations::of` names.
#[derive(Clone, Copy)]
pub struct Reservations {
    state: PrState,
}

impl Model for Reservations {
    ghost use Rattle.pr_core.specs.declared.states.PrState.{PrState};
    ghost use Rattle.pr_core.specs.Sound.{IsSound};

    ghost Value = { PrState };

    ghost view = { λ reservations. reservations.state };

    ghost invariant = { λ reservations. IsSound reservations.state };

    ghost inverse = { λ state. record { state = state } };
}

impl Reservations {
    /// No registration and no reservation.
    pub fn empty() -> Self
        ensures { result ≡ empty_state }
    {
        Reservations {
            state: PrState::empty(),
        }
    }

    /// The reservations that `state` describes; None where it breaks one of three rules. A reservation of type 7 or 8
    /// names no holder, and at least one nexus is registered. A reservation of another type names a holder, which is
    /// registered. No key is 0.
    pub fn of(state: PrState) -> Option<Self>
        ensures sound { IsSome result ↔ IsSound state }
        ensures value { IfSome result (λ reservations. reservations ≡ state) }
    {
        if state.is_known(0) || !state.is_held_rightly() {
            return None;
        }
        Some(Reservations { state })
    }

    /// The state, for reading.
    pub fn state(&self) -> &PrState
        ensures state { result.now ≡ self.now }
        ensures sound { IsSound self.now }
    {
        &self.state
    }

    /// Carries out an order of a nexus. Returns the answer, and the unit attention conditions that the order
    /// establishes for each nexus. It allocates nothing.
    pub fn pr_out(&mut self, nexus: Nexus, order: &PrOut) -> (PrAnswer, Attns)
        ensures { Orders self.old nexus order.now result.0 result.1 self.new }
    {
        let outcome = self.state.ordered(nexus, order);
        self.state = outcome.state;
        (outcome.answer, outcome.established)
    }

    /// Whether the commands of a nexus are let through (own, one rule for all types). True where there is no
    /// reservation, where the nexus holds the reservation, or where the reservation has one of the types 5 to 8 and the
    /// nexus is registered.
    pub fn allowed(&self, nexus: Nexus) -> bool
        ensures { result ≡ is_allowed self.now nexus }
    {
        self.state.allows(nexus)
    }

    /// Whether there is a reservation.
    pub fn is_held(&self) -> bool
        ensures { result ≡ is_some self.now.reservation }
    {
        self.state.reservation.is_some()
    }

    /// Whether these reservations have to be saved in place of `old`: true where the two differ in registrations,
    /// reservation or APTPL.
    pub fn needs_save(&self, old: &Reservations) -> bool
        ensures { result ≡ needs_save old.now self.now }
    {
        self.state.needs_save(&old.state)
    }

    /// Returns the first `room` bytes of the data of READ KEYS: PRGENERATION, the length of the rest in bytes, and the
    /// keys in the order of the nexus numbers. A result of at most 24 bytes is always Ok, and nothing is allocated for
    /// it. For a longer one, `NoMemory` is returned if memory runs out.
    pub fn read_keys(&self, alloc: Global, room: usize) -> Result<Bytes, NoMemory>
        ensures bytes { IfOk result (λ bytes. bytes ≡ take room (keys_read self.now)) }
        ensures few { length (take room (keys_read self.now)) ≤ 24 → IsOk result }
    {
        keys_read(alloc, &self.state, room)
    }

    /// Returns the first `room` bytes of the data of READ RESERVATION: PRGENERATION, the length of the rest in bytes,
    /// and the reservation, if there is one. The result has at most 24 bytes, so it allocates nothing and is always Ok.
    pub fn read_reservation(&self, alloc: Global, room: usize) -> Result<Bytes, NoMemory>
        ensures bytes { IfOk result (λ bytes. bytes ≡ take room (reservation_read self.now)) }
        ensures few { length (take room (reservation_read self.now)) ≤ 24 → IsOk result }
    {
        reservation_read(alloc, &self.state, room)
    }

    /// The reservations after a loss of power. Where APTPL is set, only PRGENERATION changes: it becomes 0. Where APTPL
    /// is not set, the result is that of `empty`.
    pub fn power_loss(&self) -> Self
        ensures { result ≡ power_loss self.now }
    {
        Reservations {
            state: self.state.power_loss(),
        }
    }
}

// Whether two reservations are the same.
fn is_same_reservation(one: &Option<Reservation>, other: &Option<Reservation>) -> bool
    ensures { result ≡ is_same_reservation one.now other.now }
{
    match (one, other) {
        (None, None) => true,
        (Some(one), Some(other)) => {
            is_same_type(one.kind, other.kind) && one.holder == other.holder
        }
        _ => false,
    }
}

impl PrState {
    // Whether the key of a nexus differs from that in an older state.
    fn differs_at(&self, old: &PrState, nexus: Nexus) -> bool
        ensures { result ≡ differ_at old.now self.now nexus }
    {
        self.key_of(nexus) != old.key_of(nexus)
    }

    fn needs_save(&self, old: &PrState) -> bool
        ensures { result ≡ needs_save old.now self.now }
    {
        any(|nexus| self.differs_at(old, nexus))
            || !is_same_reservation(&old.reservation, &self.reservation)
            || self.aptpl != old.aptpl
    }
}
