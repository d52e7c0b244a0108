//! What is left of a library that nothing uses any more.
ghost use Rattle.std.specs.Prelude.{◌≡◌};

use bay_moves::{Bay, Parked};
use element_slots::Slots;
use std::marker::Model;
use tape_disk::Disk;

/// The slots and drives of a library that has ended, or that was not opened. They can be looked at and let go, and no
/// call hands one out. So nothing calls their disks any more.
#[derive(Drop)]
pub struct Sealed<D: Disk> {
    slots: Slots<Parked<D>>,
    bays: Vec<Option<Bay<D>>>,
}

impl<D: Disk> Model for Sealed<D> {
    ghost use Rattle.bay_moves.specs.Elements.{HeldState};

    ghost Value = { HeldState D };

    ghost view = { λ s. record { slots = s.slots; bays = s.bays.items } };
}

impl<D: Disk + Drop> Sealed<D> {
    /// Seals these slots, and these drives, which stand from number 1 on, None where there is no drive.
    pub fn from_parts(bays: Vec<Option<Bay<D>>>, slots: Slots<Parked<D>>) -> Sealed<D>
        ensures { result ≡ record { slots = slots; bays = bays.items } }
    {
        Sealed { slots, bays }
    }

    /// The content of each slot, from the first on, or None where the slot is empty.
    pub fn slots(&self) -> &[Option<Parked<D>>]
        ensures { result.now ≡ self.now.slots }
    {
        self.slots.inventory()
    }

    /// The drives, from number 1 on, or None where there is no drive.
    pub fn bays(&self) -> &[Option<Bay<D>>]
        ensures { result.now ≡ self.now.bays }
    {
        self.bays.as_slice()
    }
}
