//! The registrations and the reservation of a drive, as plain data.
ghost use Rattle.std.specs.Prelude.{◌≡◌};
ghost use Rattle.pr_core.specs.Sets.{is_some_in};
ghost use Rattle.pr_core.specs.Sound.{is_held_rightly};
ghost use Rattle.pr_core.specs.States.{has_key, is_allowed, is_for_all, is_for_registrants, is_for_registrants_only, is_registered, holds_this, key_of, others, power_loss, empty_state};

use crate::rows::{any, place_of};
use scsi_lists::PrType;
use vtl_base::Nexus;

/// A persistent reservation (SPC-4). A reservation of type 7 or 8 is held by every registered nexus, and `holder` is
/// None. A reservation of another type is held by the nexus in `holder`.
#[derive(Clone, Copy, PartialEq, Eq, Debug)]
pub struct Reservation {
    pub kind: PrType,
    pub holder: Option<Nexus>,
}

/// Registrations, reservation, APTPL and PRGENERATION (SPC-4), as plain data. The fields may have any values, even
/// those that break the rules that `Reservations::of` names.
#[derive(Clone, Copy)]
pub struct PrState {
    /// The key of each nexus, in the order of the nexus numbers; None where the nexus is not registered.
    pub keys: [Option<u64>; 64],
    pub reservation: Option<Reservation>,
    /// Whether registrations and reservation outlive a loss of power.
    pub aptpl: bool,
    /// PRGENERATION: how many orders raised it since power on, modulo 2^32. RESERVE and RELEASE do not raise it.
    pub generation: u32,
}

/// The answer to an order.
#[derive(Clone, Copy, PartialEq, Eq, Debug)]
pub enum PrAnswer {
    /// The order was carried out. It may have changed nothing.
    Good,
    /// RESERVATION CONFLICT. Nothing has changed.
    Conflict,
    /// PREEMPT would make a reservation, but no reservation can have the scope or type that it names (24/00). Nothing
    /// has changed.
    BadType,
    /// PREEMPT names the key 0, and there is no reservation of type 7 or 8 (26/00). Nothing has changed.
    BadKey,
    /// A holder of the reservation requests RELEASE with a type that is not that of the reservation (26/04). Nothing
    /// has changed.
    BadRelease,
}

pub(crate) fn is_for_all(kind: PrType) -> bool
    ensures { result ≡ is_for_all kind }
{
    matches!(
        kind,
        PrType::WriteExclusiveAllRegistrants | PrType::ExclusiveAccessAllRegistrants
    )
}

pub(crate) fn is_for_registrants_only(kind: PrType) -> bool
    ensures { result ≡ is_for_registrants_only kind }
{
    matches!(
        kind,
        PrType::WriteExclusiveRegistrantsOnly | PrType::ExclusiveAccessRegistrantsOnly
    )
}

pub(crate) fn is_for_registrants(kind: PrType) -> bool
    ensures { result ≡ is_for_registrants kind }
{
    is_for_registrants_only(kind) || is_for_all(kind)
}

impl PrState {
    pub(crate) fn key_of(&self, nexus: Nexus) -> Option<u64>
        ensures { result ≡ key_of self.now nexus }
    {
        self.keys[place_of(nexus)?]
    }

    pub(crate) fn is_registered(&self, nexus: Nexus) -> bool
        ensures { result ≡ is_registered self.now nexus }
    {
        self.key_of(nexus).is_some()
    }

    pub(crate) fn has_key(&self, key: u64, nexus: Nexus) -> bool
        ensures { result ≡ has_key self.now key nexus }
    {
        self.key_of(nexus) == Some(key)
    }

    // Whether `other` is registered and is not `nexus`.
    pub(crate) fn is_other(&self, nexus: Nexus, other: Nexus) -> bool
        ensures { result ≡ others self.now nexus other }
    {
        self.is_registered(other) && other != nexus
    }

    pub(crate) fn holds_this(&self, held: &Reservation, nexus: Nexus) -> bool
        ensures { result ≡ holds_this held.now self.now nexus }
    {
        if is_for_all(held.kind) {
            self.is_registered(nexus)
        } else {
            held.holder == Some(nexus)
        }
    }

    pub(crate) fn has_others(&self, nexus: Nexus) -> bool
        ensures { result ≡ is_some_in (others self.now nexus) }
    {
        any(|other| self.is_other(nexus, other))
    }

    pub(crate) fn has_registered(&self) -> bool
        ensures { result ≡ is_some_in (is_registered self.now) }
    {
        any(|other| self.is_registered(other))
    }

    pub(crate) fn is_known(&self, key: u64) -> bool
        ensures { result ≡ is_some_in (has_key self.now key) }
    {
        any(|other| self.has_key(key, other))
    }

    // Whether the commands of a nexus are let through.
    pub(crate) fn allows(&self, nexus: Nexus) -> bool
        ensures { result ≡ is_allowed self.now nexus }
    {
        match &self.reservation {
            Some(held) => {
                self.holds_this(held, nexus)
                    || is_for_registrants(held.kind) && self.is_registered(nexus)
            }
            None => true,
        }
    }

    // Whether the reservation, if there is one, has a valid holder.
    pub(crate) fn is_held_rightly(&self) -> bool
        ensures { result ≡ is_held_rightly self.now.reservation self.now }
    {
        match &self.reservation {
            None => true,
            Some(held) if is_for_all(held.kind) => held.holder.is_none() && self.has_registered(),
            Some(held) => match held.holder {
                Some(nexus) => self.is_registered(nexus),
                None => false,
            },
        }
    }

    // No registration and no reservation.
    pub(crate) fn empty() -> Self
        ensures { result ≡ empty_state }
    {
        PrState {
            keys: [None; 64],
            reservation: None,
            aptpl: false,
            generation: 0,
        }
    }

    // The state after a loss of power.
    pub(crate) fn power_loss(&self) -> Self
        ensures { result ≡ power_loss self.now }
    {
        if !self.aptpl {
            return PrState::empty();
        }
        let mut kept = *self;
        kept.generation = 0;
        kept
    }
}
