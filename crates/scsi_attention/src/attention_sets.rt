//! Unit attention conditions, and the set of those that are established for one nexus.
ghost use Rattle.std.specs.Prelude.{⊤, ◌≡◌, ◌==◌, ◌<◌, [], ◌∷◌, bit_and, codes};
ghost use Rattle.scsi_attention.specs.Inner.AttentionBits.{bit_of};
ghost use Rattle.scsi_attention.specs.AttentionSets.{contains, first_of, no_attentions, union, with_attention, without};

use bitflags::{Flag, Flags, bitflag_items};
use std::marker::Model;

/// A unit attention condition (SAM-5): an event that is reported to a host before its next command. The variants are in
/// the order in which they are reported (own).
#[derive(Clone, Copy, PartialEq, Eq, Debug)]
pub enum Attention {
    /// The drive was powered on.
    PowerOn,
    /// The medium may have been changed.
    MediumChanged,
    /// Another host removed the reservation and all registrations by CLEAR.
    ReservationsPreempted,
    /// Another host removed this host's registration by PREEMPT.
    RegistrationsPreempted,
    /// Another host released a reservation for registrants, or ended one by unregistering, or replaced one by a
    /// reservation of another type with PREEMPT.
    ReservationsReleased,
    /// Another host changed the mode parameters by MODE SELECT.
    ModeChanged,
}

const IN_ORDER: [Attention; 6] = [
    Attention::PowerOn,
    Attention::MediumChanged,
    Attention::ReservationsPreempted,
    Attention::RegistrationsPreempted,
    Attention::ReservationsReleased,
    Attention::ModeChanged,
];

// The conditions as bits.
#[derive(Clone, Copy, PartialEq, Eq, Debug)]
struct AttnFlags(u8);

bitflag_items! {
    impl AttnFlags: u8 {
        const POWER_ON = 0x01;
        const MEDIUM_CHANGED = 0x02;
        const RESERVATIONS_PREEMPTED = 0x04;
        const REGISTRATIONS_PREEMPTED = 0x08;
        const RESERVATIONS_RELEASED = 0x10;
        const MODE_CHANGED = 0x20;
    }
}

impl Flags for AttnFlags {
    type Bits = u8;

    ghost exact = { ⊤ };

    ghost table = { (codes "POWER_ON", 0x01) ∷ (codes "MEDIUM_CHANGED", 0x02)
        ∷ (codes "RESERVATIONS_PREEMPTED", 0x04) ∷ (codes "REGISTRATIONS_PREEMPTED", 0x08)
        ∷ (codes "RESERVATIONS_RELEASED", 0x10) ∷ (codes "MODE_CHANGED", 0x20) ∷ [] };

    ghost set_of = { λ flags. flags.0 };

    fn flags<'a>() -> &'a [Flag<AttnFlags>] {
        AttnFlags::FLAGS
    }

    fn bits(&self) -> u8 {
        self.0
    }

    fn from_bits_retain(bits: u8) -> AttnFlags {
        AttnFlags(bits)
    }
}

/// A set of unit attention conditions: those that are established for one nexus and not reported yet.
#[derive(Clone, Copy, PartialEq, Eq, Debug)]
pub struct AttnSet {
    flags: AttnFlags,
}

impl Model for AttnSet {
    ghost use Rattle.std.specs.Prelude.{◌<◌};
    ghost use Rattle.std.proofs.Common.{ap};
    ghost use Rattle.scsi_attention.specs.AttentionSets.{AttentionSet};
    ghost use Rattle.scsi_attention.specs.Inner.AttentionBits.{bits_of, bits_of-set_of_bits, set_of_bits};

    ghost Value = { AttentionSet };

    ghost view = { λ set. set_of_bits set.flags.0 };

    ghost invariant = { λ set. set.flags.0 < 64 };

    ghost inverse = { λ set. record { flags = record { 0 = bits_of set } } };

    ghost inverse_ok = { λ set fits. ap (λ bits. record { flags = record { 0 = bits } })
        (bits_of-set_of_bits set.flags.0 fits) };
}

impl Attention {
    fn flag(self) -> AttnFlags
        ensures { result.0 ≡ bit_of self }
    {
        match self {
            Attention::PowerOn => AttnFlags::POWER_ON,
            Attention::MediumChanged => AttnFlags::MEDIUM_CHANGED,
            Attention::ReservationsPreempted => AttnFlags::RESERVATIONS_PREEMPTED,
            Attention::RegistrationsPreempted => AttnFlags::REGISTRATIONS_PREEMPTED,
            Attention::ReservationsReleased => AttnFlags::RESERVATIONS_RELEASED,
            Attention::ModeChanged => AttnFlags::MODE_CHANGED,
        }
    }
}

impl AttnSet {
    /// The set without conditions.
    pub fn empty() -> Self
        ensures { result ≡ no_attentions }
    {
        AttnSet {
            flags: AttnFlags(0),
        }
    }

    /// Whether this condition is in the set.
    #[tactic(auto, using(crate::proofs::BitLemmas::contains_by_bits))]
    pub fn contains(&self, attention: Attention) -> bool
        ensures { result ≡ contains attention self.now }
    {
        self.flags.contains(attention.flag())
    }

    /// The condition of the set that is reported first; None where the set is empty.
    pub fn first(&self) -> Option<Attention>
        ensures { result ≡ first_of self.now }
    {
        IN_ORDER
            .iter()
            .copied()
            .find(|attention| self.contains(*attention))
    }

    /// Establishes this condition; the others stay.
    #[tactic(auto, using(crate::proofs::BitLemmas::with_by_bits, crate::proofs::BitLemmas::or_fits))]
    pub fn insert(&mut self, attention: Attention)
        ensures { self.new ≡ with_attention attention self.old }
    {
        self.flags.insert(attention.flag());
    }

    /// Clears this condition; the others stay.
    #[tactic(auto, using(crate::proofs::BitLemmas::without_by_bits, crate::proofs::BitLemmas::and_not_fits))]
    pub fn remove(&mut self, attention: Attention)
        ensures { self.new ≡ without attention self.old }
    {
        self.flags.remove(attention.flag());
    }

    /// The union of the two sets: the conditions that are in one of them or in both.
    #[tactic(auto, using(crate::proofs::BitLemmas::union_by_bits, crate::proofs::BitLemmas::both_fit))]
    pub fn join(self, other: AttnSet) -> AttnSet
        ensures { result ≡ union self other }
    {
        AttnSet {
            flags: self.flags.union(other.flags),
        }
    }
}
