//! The contents of the element addresses of a library.
ghost use Rattle.std.specs.Prelude.{◌≡◌, ◌<◌, ◌+◌, ℕ, None, Some, slice_index_or, true};
ghost use Rattle.vtl_base.specs.declared.limits.TheConstants.{DRIVES, SLOTS};
ghost use Rattle.library.specs.Counts.{has_drive};
ghost use Rattle.library.specs.Keeps.{KeepsShelvedIn, KeepsSlots};
ghost use Rattle.library.specs.Seen.{is_place_seen, seen_at};

use crate::libraries::Library;
use bay_moves::Parked;
use element_slots::Slots;
use ledgers::Parties;
use split_bay::Rings;
use std::fmt::Debug;
use std::sync::Wait;
use tape_disk::Disk;
use vtl_base::limits::{DRIVES, SLOTS};

/// The content of an element address.
#[derive(Clone, Copy, PartialEq, Eq, Debug)]
pub enum Element {
    /// The address is that of a drive that is not configured.
    Missing,
    /// No cartridge is there.
    Empty,
    /// A cartridge is there. In a drive it may be loaded or not.
    Full,
}

/// The content of each element address of a library.
#[derive(Clone, Copy, Debug)]
pub struct Inventory {
    /// The slots, from address 1001 on.
    pub slots: [Element; 256],
    /// The drives, from number 1 on.
    pub drives: [Element; 16],
}

// The invariants of the cartridges in the slots as one fact, for the proof alone.
pub(crate) fn known_slots<D: Disk + Drop>(slots: &Slots<Parked<D>>)
    ensures { KeepsSlots D.state slots.now }
{
    let row = slots.inventory();
    for slot in row {
        known_slot(slot);
    }
}

// The same for the content of a slot, if it is full.
fn known_slot<D: Disk>(slot: &Option<Parked<D>>)
    ensures { KeepsShelvedIn D.state slot.now }
{
    if let Some(cartridge) = slot {
        cartridge.known();
    }
}

/// The content of each slot, from element address 1001 on.
pub fn seen_in_slots<D: Disk + Drop>(slots: &Slots<Parked<D>>) -> [Element; 256]
    ensures { (place : ℕ) → place < SLOTS
        → slice_index_or result place Element.Missing ≡ seen_at (slice_index_or slots.now place None) }
{
    let row = slots.inventory();
    let mut seen = [Element::Missing; 256];
    for place in 0..SLOTS as usize {
        seen[place] = match row[place] {
            Some(_) => Element::Full,
            None => Element::Empty,
        };
    }
    seen
}

impl<D: Disk + Drop, B: Parties + Rings, H: Parties> Library<D, B, H> {
    /// The content of each element address. The drives are looked at one after another, while the slots' lock is held.
    /// Nothing is moved meanwhile, so no cartridge is seen twice, and none is missed. The call allocates no memory.
    pub fn inventory<R: Wait>(&self, rt: &R) -> Inventory
        ensures drives { (number : ℕ) → number < DRIVES
            → is_place_seen (slice_index_or result.drives number Element.Missing) ≡ has_drive self.now (number + 1) }
        ensures slots { (place : ℕ) → place < SLOTS
            → is_place_seen (slice_index_or result.slots place Element.Missing) ≡ true }
    {
        let slots = self.slots.lock(rt);
        let mut drives = [Element::Missing; 16];
        for place in 0..DRIVES as usize {
            drives[place] = self.seen_in_drive(rt, place);
        }
        Inventory {
            slots: slots.seen(),
            drives,
        }
    }

    // The content of the drive in this place.
    fn seen_in_drive<R: Wait>(&self, rt: &R, place: usize) -> Element
        requires { place < DRIVES }
        ensures { is_place_seen result ≡ has_drive self.now (place + 1) }
    {
        match &self.bays[place] {
            Some(bay) => bay.front.lock(rt).seen(),
            None => Element::Missing,
        }
    }
}
