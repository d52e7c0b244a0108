//! Moves of cartridges between slots and drives that a caller lends.
ghost use Rattle.std.specs.Prelude.{◌≡◌, ◌≢◌, IfSome, None, Some, true, false, is_some};
ghost use Rattle.element_slots.specs.Slots.{Puts, held_at, is_slot};
ghost use Rattle.bay_moves.specs.Inner.Carried.{MovesLent, drive_end, end_beside, refusal_between, slot_end};
ghost use Rattle.bay_moves.specs.Lent.{InEach, IsDriveAddress, KeepsCount, back, lent};
ghost use Rattle.bay_moves.specs.Moves.{KeepsCartridges, MovesMedium};

use crate::bays::Bay;
use crate::moves::check;
use crate::parked::Parked;
use element_slots::Slots;
use scsi_sense::{Reply, Sense};
use std::alloc::Global;
use tape_disk::Disk;
use vtl_base::{Bytes, SlotNo};

// One end of a move: what decides whether a cartridge may leave it or come to it.
#[derive(Clone, Copy)]
pub(crate) struct End {
    // Whether there is such a slot or drive.
    pub(crate) known: bool,
    // Whether a reservation is held there.
    pub(crate) reserved: bool,
    // Whether there is a cartridge.
    pub(crate) full: bool,
}

// The end of a move at an address that names no drive.
fn slot_end<D: Disk + Drop>(slots: &Slots<Parked<D>>, address: u32) -> End
    ensures { result ≡ slot_end slots.now address }
{
    End {
        known: SlotNo::new(address).is_some(),
        reserved: false,
        full: slots.held(address).is_some(),
    }
}

// The end of a move at the address of this drive.
fn drive_end<D: Disk + Drop>(bay: &Bay<D>) -> End
    ensures { result ≡ drive_end bay.now }
{
    End {
        known: true,
        reserved: bay.held(),
        full: !bay.is_empty(),
    }
}

// The other end of a move out of this drive, where the addresses name no other drive.
fn end_beside<D: Disk + Drop>(slots: &Slots<Parked<D>>, bay: &Bay<D>, from: u32, to: u32) -> End
    ensures { result ≡ end_beside slots.now bay.now from to }
{
    if from == to {
        drive_end(bay)
    } else {
        slot_end(slots, to)
    }
}

// The reply to a refused move, by the first cause that holds; None where no cause holds.
fn refusal_between(alloc: Global, source: End, destination: End) -> Option<Reply>
    ensures { result ≡ refusal_between source destination }
{
    if !(source.known && destination.known) {
        return Some(check(alloc, Sense::invalid_element_address()));
    }
    if source.reserved || destination.reserved {
        return Some(Reply::conflict(alloc));
    }
    if !source.full {
        return Some(check(alloc, Sense::source_empty()));
    }
    if destination.full {
        return Some(check(alloc, Sense::destination_full()));
    }
    None
}

// Takes the cartridge out of a full slot.
fn take_held<D: Disk + Drop>(slots: &mut Slots<Parked<D>>, address: u32) -> Parked<D>
    requires slot { is_slot address ≡ true }
    requires full { is_some (held_at slots.old address) ≡ true }
    ensures out { held_at slots.old address ≡ Some result }
    ensures left { Puts address None slots.old slots.new }
{
    match slots.take(address) {
        Ok(cartridge) => cartridge,
        Err(_) => unreachable!(),
    }
}

// Puts a cartridge into an empty slot.
fn fill<D: Disk + Drop>(slots: &mut Slots<Parked<D>>, address: u32, cartridge: Parked<D>)
    requires slot { is_slot address ≡ true }
    requires empty { is_some (held_at slots.old address) ≡ false }
    ensures { Puts address (Some cartridge) slots.old slots.new }
{
    match slots.place(address, cartridge) {
        Ok(()) => {}
        Err(_) => unreachable!(),
    }
}

// A move between two slots.
fn between_slots<D: Disk + Drop>(
    alloc: Global,
    slots: &mut Slots<Parked<D>>,
    from: u32,
    to: u32,
) -> Reply
    ensures { MovesLent D.state from to slots.old None None result slots.new None None }
{
    if let Some(reply) = refusal_between(alloc, slot_end(slots, from), slot_end(slots, to)) {
        return reply;
    }
    let cartridge = take_held(slots, from);
    fill(slots, to, cartridge);
    Reply::good(Bytes::new(alloc))
}

// A move out of a drive, where the addresses name no other drive.
fn out_of_drive<D: Disk + Drop>(
    alloc: Global,
    slots: &mut Slots<Parked<D>>,
    source: &mut Bay<D>,
    from: u32,
    to: u32,
) -> Reply
    requires { IsDriveAddress from }
    ensures moved { MovesLent D.state from to slots.old (Some source.old) None result
        slots.new (Some source.new) None }
    ensures counted { source.new.accepted ≡ source.old.accepted }
{
    if let Some(reply) = refusal_between(
        alloc,
        drive_end(source),
        end_beside(slots, source, from, to),
    ) {
        return reply;
    }
    let cartridge = match source.unload() {
        Ok(cartridge) => cartridge,
        Err(reply) => return reply,
    };
    fill(slots, to, cartridge);
    Reply::good(Bytes::new(alloc))
}

// A move out of a slot into a drive.
fn into_drive<D: Disk + Drop>(
    alloc: Global,
    slots: &mut Slots<Parked<D>>,
    destination: &mut Bay<D>,
    from: u32,
    to: u32,
) -> Reply
    requires destination { IsDriveAddress to }
    requires apart { from ≢ to }
    ensures moved { MovesLent D.state from to slots.old None (Some destination.old) result
        slots.new None (Some destination.new) }
    ensures counted { destination.new.accepted ≡ destination.old.accepted }
{
    if let Some(reply) = refusal_between(alloc, slot_end(slots, from), drive_end(destination)) {
        return reply;
    }
    let cartridge = take_held(slots, from);
    match destination.load(cartridge) {
        Ok(()) => Reply::good(Bytes::new(alloc)),
        Err((cartridge, reply)) => {
            fill(slots, from, cartridge);
            reply
        }
    }
}

// A move out of a drive into another.
fn between_drives<D: Disk + Drop>(
    alloc: Global,
    slots: &mut Slots<Parked<D>>,
    source: &mut Bay<D>,
    destination: &mut Bay<D>,
    from: u32,
    to: u32,
) -> Reply
    requires source { IsDriveAddress from }
    requires destination { IsDriveAddress to }
    requires apart { from ≢ to }
    ensures moved { MovesLent D.state from to slots.old (Some source.old) (Some destination.old) result
        slots.new (Some source.new) (Some destination.new) }
    ensures counted_out { source.new.accepted ≡ source.old.accepted }
    ensures counted_in { destination.new.accepted ≡ destination.old.accepted }
{
    if let Some(reply) = refusal_between(alloc, drive_end(source), drive_end(destination)) {
        return reply;
    }
    let cartridge = match source.unload() {
        Ok(cartridge) => cartridge,
        Err(reply) => return reply,
    };
    match destination.load(cartridge) {
        Ok(()) => Reply::good(Bytes::new(alloc)),
        Err((cartridge, reply)) => {
            source.insert(cartridge);
            reply
        }
    }
}

/// Moves a cartridge from one element address to another, by the rules of `Held::move_medium` (own), for a caller that
/// lends the slots and drives. `source` is the drive at `from` and `destination` the drive at `to`; each is None where
/// its address is not that of a configured drive. Where both addresses name the same drive, it is lent as the source
/// alone. So a drive is lent only for an address from 1 to 16, and a destination only where the addresses differ.
///
/// Take any library that has these slots, these drives at these addresses, and places for 16 drives in all. The reply
/// and the outcome are those of `Held::move_medium` in that library. No drive counts a change in a move.
pub fn move_lent<D: Disk + Drop>(
    alloc: Global,
    slots: &mut Slots<Parked<D>>,
    source: Option<&mut Bay<D>>,
    destination: Option<&mut Bay<D>>,
    from: u32,
    to: u32,
) -> Reply
    requires source { IfSome source (λ bay. IsDriveAddress from) }
    requires destination { IfSome destination (λ bay. IsDriveAddress to × (from ≢ to)) }
    ensures answer { InEach from to slots.old (lent source.entry) (lent destination.entry)
        slots.new (back source.entry source.exit) (back destination.entry destination.exit)
        (λ old new. MovesMedium D.state old from to result new) }
    ensures keeps { InEach from to slots.old (lent source.entry) (lent destination.entry)
        slots.new (back source.entry source.exit) (back destination.entry destination.exit)
        (λ old new. KeepsCartridges D.state old from to result new) }
    ensures counted_out { KeepsCount (lent source.entry) (back source.entry source.exit) }
    ensures counted_in { KeepsCount (lent destination.entry) (back destination.entry destination.exit) }
{
    let Some(source) = source else {
        let Some(destination) = destination else {
            return between_slots(alloc, slots, from, to);
        };
        return into_drive(alloc, slots, destination, from, to);
    };
    let Some(destination) = destination else {
        return out_of_drive(alloc, slots, source, from, to);
    };
    between_drives(alloc, slots, source, destination, from, to)
}
