//! The unit attention conditions of every nexus of a drive.
ghost use Rattle.std.specs.Prelude.{◌≡◌, replicate};
ghost use Rattle.scsi_attention.specs.Attentions.{attention_of, cleared, established_by, established_for_all, established_for_others};
ghost use Rattle.vtl_base.specs.declared.limits.TheConstants.{NEXUSES};

use crate::attention_sets::{Attention, AttnSet};
use std::marker::Model;
use vtl_base::Nexus;

/// The unit attention conditions that are established for each nexus: one `AttnSet` for each nexus. A contract sees the
/// list of these sets, in the order of the nexuses' numbers.
#[derive(Drop)]
pub struct Attentions {
    sets: [AttnSet; 64],
}

impl Model for Attentions {
    ghost use Rattle.std.specs.Prelude.{List};
    ghost use Rattle.scsi_attention.specs.AttentionSets.{AttentionSet};

    ghost Value = { List AttentionSet };

    ghost view = { λ attentions. attentions.sets };
}

impl Attentions {
    /// The same conditions, those in `set`, for each of the 64 nexuses.
    pub fn all(set: AttnSet) -> Self
        ensures { result ≡ replicate NEXUSES set }
    {
        Attentions { sets: [set; 64] }
    }

    /// The condition that is reported to this nexus next; None where none is established.
    pub fn first(&self, nexus: Nexus) -> Option<Attention>
        ensures { result ≡ attention_of self.now nexus }
    {
        self.sets[nexus.place()].first()
    }

    /// Clears this condition for this nexus; nothing else changes.
    pub fn clear(&mut self, nexus: Nexus, attention: Attention)
        ensures { self.new ≡ cleared self.old nexus attention }
    {
        let set = &mut self.sets[nexus.place()];
        set.remove(attention);
    }

    /// Establishes this condition for every nexus.
    pub fn establish_for_all(&mut self, attention: Attention)
        ensures { self.new ≡ established_for_all self.old attention }
    {
        insert_in_each(&mut self.sets, attention);
    }

    /// Establishes this condition for every nexus but this one.
    pub fn establish_for_others(&mut self, nexus: Nexus, attention: Attention)
        ensures { self.new ≡ established_for_others self.old nexus attention }
    {
        let own = self.sets[nexus.place()];
        self.establish_for_all(attention);
        self.sets[nexus.place()] = own;
    }

    /// Establishes further conditions for each nexus. `established` has one set for each nexus, in the order of the
    /// nexuses' numbers. A nexus without conditions in `established` keeps its set as it is.
    pub fn establish_each(&mut self, established: &[AttnSet])
        ensures { self.new ≡ established_by self.old established.now }
    {
        join_each(&mut self.sets, established);
    }
}

fn insert_in_each(sets: &mut [AttnSet], attention: Attention)
    ensures { sets.new ≡ established_for_all sets.old attention }
{
    for set in sets.iter_mut() {
        set.insert(attention);
    }
}

fn join_each(sets: &mut [AttnSet], established: &[AttnSet])
    ensures { sets.new ≡ established_by sets.old established.now }
{
    for place in 0..sets.len().min(established.len()) {
        sets[place] = sets[place].join(established[place]);
    }
}
