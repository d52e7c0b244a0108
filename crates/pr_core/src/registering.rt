//! REGISTER, REGISTER AND IGNORE EXISTING KEY, and unregistering.
ghost use Rattle.std.specs.Prelude.{◌≡◌, ◌==◌, None, length};
ghost use Rattle.vtl_base.specs.declared.limits.TheConstants.{NEXUSES};
ghost use Rattle.scsi_attention.specs.AttentionSets.{no_attentions};
ghost use Rattle.pr_core.specs.Sets.{Shows};
ghost use Rattle.pr_core.specs.States.{key_of};
ghost use Rattle.pr_core.specs.Effects.{Brings, with_key};
ghost use Rattle.pr_core.specs.Register.{ends_without, left_without, register, register_and_ignore, registers, shows_key, established_without, unregisters};

use crate::attns::Attns;
use crate::machine::{Outcome, raised};
use crate::rows::row_of;
use crate::states::{PrAnswer, PrState, Reservation, is_for_all, is_for_registrants_only};
use scsi_attention::Attention;
use vtl_base::Nexus;

// Whether two nexuses are the same.
fn is_same(nexus: Nexus, other: Nexus) -> bool
    ensures { result ≡ (other == nexus) }
{
    other.number() == nexus.number()
}

impl PrState {
    pub(crate) fn register(&self, nexus: Nexus, key: u64, new_key: u64, aptpl: bool) -> Outcome
        requires { length self.now.keys ≡ NEXUSES }
        ensures { Brings (register self.now nexus key new_key aptpl) result.answer result.established result.state }
    {
        if !self.shows_key(nexus, key) {
            return self.stays(PrAnswer::Conflict);
        }
        self.register_and_ignore(nexus, new_key, aptpl)
    }

    pub(crate) fn register_and_ignore(&self, nexus: Nexus, new_key: u64, aptpl: bool) -> Outcome
        requires { length self.now.keys ≡ NEXUSES }
        ensures { Brings (register_and_ignore self.now nexus new_key aptpl) result.answer result.established
            result.state }
    {
        if new_key != 0 {
            return self.registers(nexus, new_key, aptpl);
        }
        match self.key_of(nexus) {
            Some(_) => self.unregisters(nexus, aptpl),
            None => self.stays(PrAnswer::Good),
        }
    }

    fn registers(&self, nexus: Nexus, key: u64, aptpl: bool) -> Outcome
        ensures { Brings (registers self.now nexus key aptpl) result.answer result.established result.state }
    {
        Outcome {
            answer: PrAnswer::Good,
            state: PrState {
                keys: self.with_key(nexus, key),
                reservation: self.reservation,
                aptpl,
                generation: raised(self.generation),
            },
            established: Attns::none(),
        }
    }

    // Whether `key` is the one that a nexus is registered with, or is 0 where the nexus is not registered.
    fn shows_key(&self, nexus: Nexus, key: u64) -> bool
        ensures { result ≡ shows_key (key_of self.now nexus) key }
    {
        match self.key_of(nexus) {
            Some(own) => own == key,
            None => key == 0,
        }
    }

    // The key of `other` after `nexus` is registered with `key`; None where it has none.
    fn key_with(&self, nexus: Nexus, key: u64, other: Nexus) -> Option<u64>
        ensures { result ≡ with_key self.now nexus key other }
    {
        if is_same(nexus, other) {
            Some(key)
        } else {
            self.key_of(other)
        }
    }

    // The registrations after a nexus is registered with a key.
    fn with_key(&self, nexus: Nexus, key: u64) -> [Option<u64>; 64]
        ensures { Shows None result (with_key self.now nexus key) }
    {
        row_of(None, |other| self.key_with(nexus, key, other))
    }

    // Whether this reservation ends when a nexus unregisters.
    fn ends_without(&self, held: &Reservation, nexus: Nexus) -> bool
        ensures { result ≡ ends_without held.now self.now nexus }
    {
        if is_for_all(held.kind) {
            !self.has_others(nexus)
        } else {
            held.holder == Some(nexus)
        }
    }

    // The reservation after a nexus unregisters.
    fn left_without(&self, nexus: Nexus) -> Option<Reservation>
        ensures { result ≡ left_without self.now.reservation self.now nexus }
    {
        let held = self.reservation.as_ref()?;
        if self.ends_without(held, nexus) {
            None
        } else {
            self.reservation
        }
    }

    // The conditions for each nexus when one unregisters.
    fn established_without(&self, nexus: Nexus) -> Attns
        ensures { Shows no_attentions result (established_without self.now.reservation self.now nexus) }
    {
        let Some(held) = &self.reservation else {
            return Attns::none();
        };
        if is_for_registrants_only(held.kind) && self.ends_without(held, nexus) {
            self.establishes_for_others(nexus, Attention::ReservationsReleased)
        } else {
            Attns::none()
        }
    }

    fn unregisters(&self, nexus: Nexus, aptpl: bool) -> Outcome
        ensures { Brings (unregisters self.now nexus aptpl) result.answer result.established result.state }
    {
        let removed = row_of(false, |other| is_same(nexus, other));
        Outcome {
            answer: PrAnswer::Good,
            state: PrState {
                keys: self.without(&removed),
                reservation: self.left_without(nexus),
                aptpl,
                generation: raised(self.generation),
            },
            established: self.established_without(nexus),
        }
    }
}
