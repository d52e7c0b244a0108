//! All slots of a library, with their contents.
ghost use Rattle.std.specs.Prelude.{◌≡◌, ℕ, ◌<◌, None, Some, Option, option_map, IfOk, IfErr, OnOk, length};
ghost use Rattle.vtl_base.specs.declared.limits.TheConstants.{SLOTS};
ghost use Rattle.element_slots.specs.Slots.{Puts, held_at, is_slot, refusal_of_placing, refusal_of_taking};

use crate::error::{NotPlaced, SlotError};
use std::alloc::Global;
use std::marker::Model;
use vtl_base::limits::SLOTS;
use vtl_base::{NoMemory, SlotNo};

/// All slots of a library: 256, whatever is configured, with the element addresses 1001 to 1256. `new` makes all of
/// them at once, so no other call allocates memory.
#[derive(Drop)]
pub struct Slots<C> {
    places: Vec<Option<C>>,
}

impl<C> Model for Slots<C> {
    ghost use Rattle.std.specs.Prelude.{◌≡◌, List, Option, length};
    ghost use Rattle.std.specs.Coded.{coded_list, coded_option};
    ghost use Rattle.vtl_base.specs.declared.limits.TheConstants.{SLOTS};

    ghost Value = { List (Option C) };

    ghost coded = { coded_list (coded_option C.code) };

    ghost view = { λ s. s.places.items };

    ghost invariant = { λ s. length s.places.items ≡ SLOTS };
}

impl<C: Drop> Slots<C> {
    /// Makes all slots, each of them empty. An error is returned where memory runs out.
    pub fn new(alloc: Global) -> Result<Slots<C>, NoMemory>
        ensures empty { IfOk result (λ slots. (address : ℕ) → held_at slots address ≡ None) }
    {
        let mut places = Vec::new(alloc);
        places.reserve_exact(SLOTS as usize)?;
        for _ in 0..SLOTS {
            if places.push(None).is_err() {
                return Err(NoMemory);
            }
        }
        Ok(Slots { places })
    }

    /// Puts a value into the slot with this element address, which must be empty. Where it is full, or no slot has the
    /// address, the value is returned with the error, and nothing changes.
    pub fn place(&mut self, address: u32, value: C) -> Result<(), NotPlaced<C>>
        ensures ok { OnOk result ((refusal_of_placing self.old address ≡ None)
            × Puts address (Some value) self.old self.new) }
        ensures refused { IfErr result (λ refused.
            (refusal_of_placing self.old address ≡ Some refused.error)
            × (refused.value ≡ value) × (self.new ≡ self.old)) }
    {
        let Some(slot) = SlotNo::new(address) else {
            let error = SlotError::BadAddress;
            return Err(NotPlaced { error, value });
        };
        let place = &mut self.places[slot.place()];
        if place.is_some() {
            let error = SlotError::Full;
            return Err(NotPlaced { error, value });
        }
        *place = Some(value);
        Ok(())
    }

    /// Takes the value out of the slot with this element address. It is an error where no slot has the address, or
    /// where the slot is empty; nothing changes then.
    pub fn take(&mut self, address: u32) -> Result<C, SlotError>
        ensures ok { IfOk result (λ value. (refusal_of_taking self.old address ≡ None)
            × (held_at self.old address ≡ Some value) × Puts address None self.old self.new) }
        ensures refused { IfErr result (λ error.
            (refusal_of_taking self.old address ≡ Some error) × (self.new ≡ self.old)) }
    {
        let Some(slot) = SlotNo::new(address) else {
            return Err(SlotError::BadAddress);
        };
        match self.places[slot.place()].take() {
            Some(value) => Ok(value),
            None => Err(SlotError::Empty),
        }
    }

    /// The value in the slot with this element address; None where no slot has the address, or where the slot is empty.
    pub fn held(&self, address: u32) -> Option<&C>
        ensures { option_map (λ value. value.now) result ≡ held_at self.now address }
    {
        let slot = SlotNo::new(address)?;
        self.places[slot.place()].as_ref()
    }

    /// The contents of all 256 slots, in the order of their element addresses, from 1001 on; None for an empty slot.
    pub fn inventory(&self) -> &[Option<C>]
        ensures row { result.now ≡ self.now }
        ensures all { length result.now ≡ SLOTS }
    {
        &self.places
    }
}
