//! PREEMPT, by a registered nexus.
ghost use Rattle.std.specs.Prelude.{◌≡◌, ◌&&◌, false, length};
ghost use Rattle.vtl_base.specs.declared.limits.TheConstants.{NEXUSES};
ghost use Rattle.scsi_attention.specs.AttentionSets.{no_attentions};
ghost use Rattle.pr_core.specs.Sets.{Shows, minus, row_at};
ghost use Rattle.pr_core.specs.States.{others};
ghost use Rattle.pr_core.specs.Effects.{Brings};
ghost use Rattle.pr_core.specs.Preempt.{is_key_of_holder, preempt, preempt_registrants, preempt_zero, preempted_by, takes_over_as, established_by_preemption, released_by_type};

use crate::attns::{Attns, only};
use crate::machine::{Outcome, is_in, raised};
use crate::reserving::is_same_type;
use crate::rows::row_of;
use crate::states::{PrAnswer, PrState, Reservation, is_for_all};
use scsi_attention::{Attention, AttnSet};
use scsi_lists::PrType;
use vtl_base::Nexus;

// The conditions that a preemption establishes for a nexus: registrations preempted where it is in `removed`, else
// reservations released where it is in `released`, else none.
fn preemption_establishes(removed: &[bool; 64], released: &[bool; 64], nexus: Nexus) -> AttnSet
    ensures { result ≡ established_by_preemption (row_at false removed.now) (row_at false released.now) nexus }
{
    if is_in(removed, nexus) {
        only(Attention::RegistrationsPreempted)
    } else if is_in(released, nexus) {
        only(Attention::ReservationsReleased)
    } else {
        AttnSet::empty()
    }
}

// The conditions that a preemption establishes for each nexus.
fn established_by_preemption(removed: &[bool; 64], released: &[bool; 64]) -> Attns
    ensures { (gone freed : _) → Shows false removed.now gone → Shows false released.now freed
        → Shows no_attentions result (established_by_preemption gone freed) }
{
    Attns::from_row(row_of(AttnSet::empty(), |nexus| {
        preemption_establishes(removed, released, nexus)
    }))
}

impl PrState {
    pub(crate) fn preempt(&self, nexus: Nexus, key: u64, kind: Option<PrType>) -> Outcome
        requires { length self.now.keys ≡ NEXUSES }
        ensures { Brings (preempt self.now nexus key kind) result.answer result.established result.state }
    {
        if key == 0 {
            return self.preempt_zero(nexus, kind);
        }
        if !self.is_known(key) {
            return self.stays(PrAnswer::Conflict);
        }
        let Some(held) = &self.reservation else {
            return self.preempt_registrants(nexus, key);
        };
        if self.is_key_of_holder(held, key) {
            let removed = self.preempted_by(nexus, key);
            self.takes_over(nexus, &removed, held.kind, kind)
        } else {
            self.preempt_registrants(nexus, key)
        }
    }

    // PREEMPT with the key 0.
    fn preempt_zero(&self, nexus: Nexus, kind: Option<PrType>) -> Outcome
        requires { length self.now.keys ≡ NEXUSES }
        ensures { Brings (preempt_zero self.now.reservation self.now nexus kind)
            result.answer result.established result.state }
    {
        let Some(held) = &self.reservation else {
            return self.stays(PrAnswer::BadKey);
        };
        if is_for_all(held.kind) {
            let removed = self.others(nexus);
            self.takes_over(nexus, &removed, held.kind, kind)
        } else {
            self.stays(PrAnswer::BadKey)
        }
    }

    // The registrations of other nexuses with the key are removed, and the reservation stays.
    fn preempt_registrants(&self, nexus: Nexus, key: u64) -> Outcome
        ensures { Brings (preempt_registrants self.now nexus key) result.answer result.established result.state }
    {
        let removed = self.preempted_by(nexus, key);
        Outcome {
            answer: PrAnswer::Good,
            state: PrState {
                keys: self.without(&removed),
                reservation: self.reservation,
                aptpl: self.aptpl,
                generation: raised(self.generation),
            },
            established: established_by_preemption(&removed, &[false; 64]),
        }
    }

    // Removes the registrations of the nexuses in `removed`. The requester gets a reservation of type `kind` in place
    // of the one of type `was`. Where `kind` is None, nothing changes.
    fn takes_over(
        &self,
        nexus: Nexus,
        removed: &[bool; 64],
        was: PrType,
        kind: Option<PrType>,
    ) -> Outcome
        requires { length self.now.keys ≡ NEXUSES }
        ensures { (set : _) → Shows false removed.now set
            → Brings (takes_over_as kind self.now nexus set was) result.answer result.established result.state }
    {
        let Some(kind) = kind else {
            return self.stays(PrAnswer::BadType);
        };
        let released = self.released_by_type(nexus, removed, was, kind);
        Outcome {
            answer: PrAnswer::Good,
            state: PrState {
                keys: self.without(removed),
                reservation: Some(Reservation::made_by(nexus, kind)),
                aptpl: self.aptpl,
                generation: raised(self.generation),
            },
            established: established_by_preemption(removed, &released),
        }
    }

    // Whether the release is reported to `other`: the type changed, and `other` is a registered nexus that is neither
    // the requester nor removed.
    fn is_released_by_type(
        &self,
        nexus: Nexus,
        removed: &[bool; 64],
        changed: bool,
        other: Nexus,
    ) -> bool
        ensures { result ≡ (changed && minus (others self.now nexus) (row_at false removed.now) other) }
    {
        changed && self.is_other(nexus, other) && !is_in(removed, other)
    }

    // The nexuses other than the requester that stay registered; none where the type does not change.
    fn released_by_type(
        &self,
        nexus: Nexus,
        removed: &[bool; 64],
        was: PrType,
        kind: PrType,
    ) -> [bool; 64]
        ensures { (set : _) → Shows false removed.now set
            → Shows false result (released_by_type self.now nexus set was kind) }
    {
        let changed = !is_same_type(was, kind);
        row_of(
            false,
            |other| self.is_released_by_type(nexus, removed, changed, other),
        )
    }

    // The other registered nexuses.
    fn others(&self, nexus: Nexus) -> [bool; 64]
        ensures { Shows false result (others self.now nexus) }
    {
        row_of(false, |other| self.is_other(nexus, other))
    }

    // Whether `other` is registered with a key and is not the requester.
    fn is_preempted(&self, nexus: Nexus, key: u64, other: Nexus) -> bool
        ensures { result ≡ preempted_by self.now nexus key other }
    {
        self.has_key(key, other) && other != nexus
    }

    // The nexuses registered with a key, without the requester.
    fn preempted_by(&self, nexus: Nexus, key: u64) -> [bool; 64]
        ensures { Shows false result (preempted_by self.now nexus key) }
    {
        row_of(false, |other| self.is_preempted(nexus, key, other))
    }

    // Whether a key is that of the single holder of the reservation; false under types 7 and 8, which have none.
    fn is_key_of_holder(&self, held: &Reservation, key: u64) -> bool
        ensures { result ≡ is_key_of_holder held.now self.now key }
    {
        match held.holder {
            Some(holder) => !is_for_all(held.kind) && self.has_key(key, holder),
            None => false,
        }
    }
}
