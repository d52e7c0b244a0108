//! RESERVE, RELEASE and CLEAR, by a registered nexus.
ghost use Rattle.std.specs.Prelude.{◌≡◌, length};
ghost use Rattle.vtl_base.specs.declared.limits.TheConstants.{NEXUSES};
ghost use Rattle.scsi_attention.specs.AttentionSets.{no_attentions};
ghost use Rattle.pr_core.specs.Sets.{Shows};
ghost use Rattle.pr_core.specs.States.{made_by};
ghost use Rattle.pr_core.specs.Effects.{Brings};
ghost use Rattle.pr_core.specs.Reserve.{clear, is_same_type, makes, release, release_held, reserve, established_by_release};

use crate::attns::Attns;
use crate::machine::{Outcome, raised};
use crate::states::{PrAnswer, PrState, Reservation, is_for_all, is_for_registrants};
use scsi_attention::Attention;
use scsi_lists::PrType;
use vtl_base::Nexus;

pub(crate) fn is_same_type(one: PrType, other: PrType) -> bool
    ensures { result ≡ is_same_type one other }
{
    one.number() == other.number()
}

impl Reservation {
    // The reservation that a nexus makes.
    pub(crate) fn made_by(nexus: Nexus, kind: PrType) -> Self
        ensures { result ≡ made_by nexus kind }
    {
        Reservation {
            kind,
            holder: if is_for_all(kind) { None } else { Some(nexus) },
        }
    }
}

impl PrState {
    pub(crate) fn reserve(&self, nexus: Nexus, kind: PrType) -> Outcome
        requires { length self.now.keys ≡ NEXUSES }
        ensures { Brings (reserve self.now nexus kind) result.answer result.established result.state }
    {
        let Some(held) = &self.reservation else {
            return self.makes(Reservation::made_by(nexus, kind));
        };
        if self.holds_this(held, nexus) && is_same_type(held.kind, kind) {
            self.stays(PrAnswer::Good)
        } else {
            self.stays(PrAnswer::Conflict)
        }
    }

    // A reservation is made, and nothing else changes.
    fn makes(&self, made: Reservation) -> Outcome
        requires { length self.now.keys ≡ NEXUSES }
        ensures { Brings (makes made self.now) result.answer result.established result.state }
    {
        let generation = self.generation;
        Outcome {
            answer: PrAnswer::Good,
            state: PrState {
                keys: self.keys,
                reservation: Some(made),
                aptpl: self.aptpl,
                generation,
            },
            established: Attns::none(),
        }
    }

    pub(crate) fn release(&self, nexus: Nexus, kind: PrType) -> Outcome
        requires { length self.now.keys ≡ NEXUSES }
        ensures { Brings (release self.now nexus kind) result.answer result.established result.state }
    {
        let Some(held) = &self.reservation else {
            return self.stays(PrAnswer::Good);
        };
        if self.holds_this(held, nexus) {
            self.release_held(held, nexus, kind)
        } else {
            self.stays(PrAnswer::Good)
        }
    }

    // A holder releases its reservation.
    fn release_held(&self, held: &Reservation, nexus: Nexus, kind: PrType) -> Outcome
        requires { length self.now.keys ≡ NEXUSES }
        ensures { Brings (release_held held.now self.now nexus kind) result.answer result.established result.state }
    {
        if !is_same_type(held.kind, kind) {
            return self.stays(PrAnswer::BadRelease);
        }
        Outcome {
            answer: PrAnswer::Good,
            state: PrState {
                keys: self.keys,
                reservation: None,
                aptpl: self.aptpl,
                generation: self.generation,
            },
            established: self.established_by_release(held, nexus),
        }
    }

    // The conditions for each nexus when this reservation is released.
    fn established_by_release(&self, held: &Reservation, nexus: Nexus) -> Attns
        ensures { Shows no_attentions result (established_by_release held.now self.now nexus) }
    {
        if is_for_registrants(held.kind) {
            self.establishes_for_others(nexus, Attention::ReservationsReleased)
        } else {
            Attns::none()
        }
    }

    pub(crate) fn clear(&self, nexus: Nexus) -> Outcome
        ensures { Brings (clear self.now nexus) result.answer result.established result.state }
    {
        let aptpl = self.aptpl;
        Outcome {
            answer: PrAnswer::Good,
            state: PrState {
                keys: [None; 64],
                reservation: None,
                aptpl,
                generation: raised(self.generation),
            },
            established: self.establishes_for_others(nexus, Attention::ReservationsPreempted),
        }
    }
}
