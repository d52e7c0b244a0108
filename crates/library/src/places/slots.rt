//! The slots, with the book of the moves, in a place that a lock is to guard. The slots are reached only through this.
ghost use Rattle.std.specs.Prelude.{◌≡◌, ◌<◌, ℕ, None, slice_index_or};
ghost use Rattle.vtl_base.specs.declared.limits.TheConstants.{SLOTS};
ghost use Rattle.library.specs.Seen.{seen_at};

use crate::inventories::{Element, seen_in_slots};
use bay_moves::Parked;
use element_slots::Slots;
use ledgers::{MoveBook, Parties};
use std::marker::Model;
use tape_disk::Disk;

/// The slots of a library, with the book of its moves. A contract sees both.
#[derive(Drop)]
pub struct SlotsPlace<D: Disk, H: Parties> {
    pub(super) slots: Slots<Parked<D>>,
    pub(super) book: MoveBook<H>,
}

impl<D: Disk, H: Parties> Model for SlotsPlace<D, H> {
    ghost use Rattle.library.specs.MovesAt.{SlotsState};

    ghost Value = { SlotsState D };

    ghost view = { λ p. record { slots = p.slots; moves = p.book } };
}

impl<D: Disk + Drop, H: Parties> SlotsPlace<D, H> {
    // These slots, with this book.
    pub(crate) fn new(slots: Slots<Parked<D>>, book: MoveBook<H>) -> SlotsPlace<D, H>
        ensures { result ≡ record { slots = slots; moves = book } }
    {
        SlotsPlace { slots, book }
    }

    // The content of each slot, from element address 1001 on.
    pub(crate) fn seen(&self) -> [Element; 256]
        ensures { (place : ℕ) → place < SLOTS
            → slice_index_or result place Element.Missing ≡ seen_at (slice_index_or self.now.slots place None) }
    {
        seen_in_slots(&self.slots)
    }

    // The slots.
    pub(crate) fn into_slots(self) -> Slots<Parked<D>>
        ensures { result ≡ self.slots }
    {
        self.slots
    }
}
