//! What each order does to a state.
ghost use Rattle.std.specs.Prelude.{◌≡◌, None, false, length};
ghost use Rattle.vtl_base.specs.declared.limits.TheConstants.{NEXUSES};
ghost use Rattle.scsi_attention.specs.AttentionSets.{no_attentions};
ghost use Rattle.pr_core.specs.Sets.{Shows, row_at};
ghost use Rattle.pr_core.specs.States.{others};
ghost use Rattle.pr_core.specs.Effects.{Brings, raised, stays, establishes, keys_without};
ghost use Rattle.pr_core.specs.Orders.{Orders};

use crate::attns::{Attns, only};
use crate::rows::{place_of, row_of};
use crate::states::{PrAnswer, PrState};
use scsi_attention::{Attention, AttnSet};
use scsi_lists::PrOut;
use vtl_base::Nexus;

// The outcome of an order: its answer, the next state, and the conditions for each nexus.
#[derive(Clone, Copy)]
pub(crate) struct Outcome {
    pub(crate) answer: PrAnswer,
    pub(crate) state: PrState,
    pub(crate) established: Attns,
}

pub(crate) fn raised(generation: u32) -> u32
    ensures { result ≡ raised generation }
{
    generation.wrapping_add(1)
}

impl PrState {
    // Carries out an order of a nexus.
    pub(crate) fn ordered(&self, nexus: Nexus, order: &PrOut) -> Outcome
        requires { length self.now.keys ≡ NEXUSES }
        ensures { Orders self.now nexus order.now result.answer result.established result.state }
    {
        match *order {
            PrOut::Register {
                key,
                new_key,
                aptpl,
            } => self.register(nexus, key, new_key, aptpl),
            PrOut::RegisterAndIgnoreExistingKey { new_key, aptpl } => {
                self.register_and_ignore(nexus, new_key, aptpl)
            }
            PrOut::Reserve { key, kind } if self.has_key(key, nexus) => self.reserve(nexus, kind),
            PrOut::Release { key, kind } if self.has_key(key, nexus) => self.release(nexus, kind),
            PrOut::Clear { key } if self.has_key(key, nexus) => self.clear(nexus),
            PrOut::Preempt {
                key,
                preempted,
                kind,
            } if self.has_key(key, nexus) => self.preempt(nexus, preempted, kind),
            PrOut::Reserve { .. }
            | PrOut::Release { .. }
            | PrOut::Clear { .. }
            | PrOut::Preempt { .. } => self.stays(PrAnswer::Conflict),
        }
    }

    // Nothing changes, and no condition is established.
    pub(crate) fn stays(&self, answer: PrAnswer) -> Outcome
        requires { length self.now.keys ≡ NEXUSES }
        ensures { Brings (stays answer self.now) result.answer result.established result.state }
    {
        Outcome {
            answer,
            state: *self,
            established: Attns::none(),
        }
    }

    // The conditions for `other`, where `attention` is established for the registered nexuses other than `nexus`.
    fn established_for(&self, nexus: Nexus, attention: Attention, other: Nexus) -> AttnSet
        ensures { result ≡ establishes (others self.now nexus) attention other }
    {
        if self.is_other(nexus, other) {
            only(attention)
        } else {
            AttnSet::empty()
        }
    }

    // This condition for the registered nexuses other than `nexus`.
    pub(crate) fn establishes_for_others(&self, nexus: Nexus, attention: Attention) -> Attns
        ensures { Shows no_attentions result (establishes (others self.now nexus) attention) }
    {
        Attns::from_row(row_of(AttnSet::empty(), |other| {
            self.established_for(nexus, attention, other)
        }))
    }

    // The key of a nexus; None where the nexus is not registered or is one of those removed.
    fn key_left(&self, removed: &[bool; 64], nexus: Nexus) -> Option<u64>
        ensures { result ≡ keys_without self.now (row_at false removed.now) nexus }
    {
        if is_in(removed, nexus) {
            None
        } else {
            self.key_of(nexus)
        }
    }

    // The registrations without those of the removed nexuses.
    pub(crate) fn without(&self, removed: &[bool; 64]) -> [Option<u64>; 64]
        ensures { (set : _) → Shows false removed.now set → Shows None result (keys_without self.now set) }
    {
        row_of(None, |nexus| self.key_left(removed, nexus))
    }
}

// Whether a nexus is in a set.
pub(crate) fn is_in(set: &[bool; 64], nexus: Nexus) -> bool
    ensures { result ≡ row_at false set.now nexus }
{
    match place_of(nexus) {
        Some(place) => set[place],
        None => false,
    }
}
