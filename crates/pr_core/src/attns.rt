//! The unit attention conditions that an order establishes for each nexus.
ghost use Rattle.std.specs.Prelude.{◌≡◌, length};
ghost use Rattle.vtl_base.specs.declared.limits.TheConstants.{NEXUSES};
ghost use Rattle.scsi_attention.specs.AttentionSets.{no_attentions};
ghost use Rattle.pr_core.specs.Sets.{Shows, row_at};
ghost use Rattle.pr_core.specs.Effects.{only, establishes_none};

use crate::rows::place_of;
use scsi_attention::{Attention, AttnSet};
use std::marker::Model;
use vtl_base::Nexus;

/// The unit attention conditions that an order establishes: one `AttnSet` for each nexus. A contract sees the list of
/// these sets, in the order of the nexus numbers.
#[derive(Clone, Copy)]
pub struct Attns {
    sets: [AttnSet; 64],
}

impl Model for Attns {
    ghost use Rattle.std.specs.Prelude.{◌≡◌, List, length};
    ghost use Rattle.vtl_base.specs.declared.limits.TheConstants.{NEXUSES};
    ghost use Rattle.scsi_attention.specs.AttentionSets.{AttentionSet};

    ghost Value = { List AttentionSet };

    ghost view = { λ attns. attns.sets };

    ghost invariant = { λ attns. length attns.sets ≡ NEXUSES };

    ghost inverse = { λ sets. record { sets = sets } };
}

// The set with one condition.
pub(crate) fn only(attention: Attention) -> AttnSet
    ensures { result ≡ only attention }
{
    let mut set = AttnSet::empty();
    set.insert(attention);
    set
}

impl Attns {
    /// No condition for any nexus.
    pub fn none() -> Self
        ensures { Shows no_attentions result establishes_none }
    {
        Attns {
            sets: [AttnSet::empty(); 64],
        }
    }

    /// The conditions for one nexus.
    pub fn of(&self, nexus: Nexus) -> AttnSet
        ensures { result ≡ row_at no_attentions self.now nexus }
    {
        match place_of(nexus) {
            Some(place) => self.sets[place],
            None => AttnSet::empty(),
        }
    }

    /// The 64 sets of conditions, one for each nexus, in the order of the nexus numbers.
    pub fn sets(&self) -> &[AttnSet]
        ensures sets { result.now ≡ self.now }
        ensures all { length self.now ≡ NEXUSES }
    {
        &self.sets
    }

    // The conditions from a row with one set for each nexus.
    pub(crate) fn from_row(sets: [AttnSet; 64]) -> Self
        ensures { result ≡ sets }
    {
        Attns { sets }
    }
}
