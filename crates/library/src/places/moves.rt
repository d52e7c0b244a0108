//! Moves of cartridges between two element addresses, each of which may be that of a locked drive.
ghost use Rattle.std.specs.Prelude.{◌≡◌, ◌≢◌, ◌+◌, Option, None, Some, IfSome, is_some};
ghost use Rattle.bay_moves.specs.Elements.{BayState};
ghost use Rattle.bay_moves.specs.Lent.{IsDriveAddress, KeepsCount};
ghost use Rattle.library.specs.Halves.{HoldsBoth};
ghost use Rattle.library.specs.Keeps.{KeepsAt};
ghost use Rattle.library.specs.MovesAt.{MovesEach};

use super::held::{join_held, known_drive, part_held};
use super::movers::Mover;
use super::slots::SlotsPlace;
use super::{BackPlace, FrontPlace};
use crate::inventories::known_slots;
use bay_moves::{Bay, Parked, move_lent};
use element_slots::Slots;
use ledgers::Parties;
use scsi_sense::Reply;
use split_bay::Rings;
use std::alloc::Global;
use std::sync::{MutexGuard, Wait};
use tape_disk::Disk;

/// A drive, while the locks of both its halves are held.
#[derive(Drop)]
pub(crate) struct LockedBay<'a, D: Disk, B: Parties + Rings> {
    pub(crate) front: MutexGuard<'a, FrontPlace<D, B>>,
    pub(crate) back: MutexGuard<'a, BackPlace<D, B>>,
}

// The invariant of a drive, if there is one.
fn known_at<D: Disk>(bay: &Option<Bay<D>>)
    ensures { KeepsAt D.state bay.now }
{
    if let Some(bay) = bay {
        known_drive(bay);
    }
}

// Moves a cartridge from the element address `from` to `to`. `source` and `destination` are the drives there, or None
// where there is no drive. A drive at both addresses is passed as the source alone.
fn move_known<D: Disk + Drop>(
    alloc: Global,
    slots: &mut Slots<Parked<D>>,
    source: &mut Option<Bay<D>>,
    destination: &mut Option<Bay<D>>,
    from: u32,
    to: u32,
) -> Reply
    requires source { IfSome source.old (λ bay. IsDriveAddress from) }
    requires destination { IfSome destination.old (λ bay. IsDriveAddress to × (from ≢ to)) }
    ensures moves { MovesEach D.state from to slots.old source.old destination.old result
        slots.new source.new destination.new }
    ensures source { KeepsCount source.old source.new }
    ensures destination { KeepsCount destination.old destination.new }
{
    let mut none = None;
    let mut nor = None;
    // The facts before and after the call, for the proof alone.
    known_slots(slots);
    known_at(source);
    known_at(destination);
    let reply = match (&mut *source, &mut *destination) {
        (Some(source), Some(destination)) => {
            move_lent(alloc, slots, Some(source), Some(destination), from, to)
        }
        (Some(source), None) => move_lent(alloc, slots, Some(source), none.as_mut(), from, to),
        (None, Some(destination)) => {
            move_lent(alloc, slots, none.as_mut(), Some(destination), from, to)
        }
        (None, None) => move_lent(alloc, slots, none.as_mut(), nor.as_mut(), from, to),
    };
    known_slots(slots);
    known_at(source);
    known_at(destination);
    drop(none);
    drop(nor);
    reply
}

// As `move_known`, where the destination may be a locked drive.
fn move_to<D: Disk + Drop, B: Parties + Rings, R: Wait>(
    source: &mut Option<Bay<D>>,
    destination: Option<LockedBay<'_, D, B>>,
    rt: &R,
    alloc: Global,
    slots: &mut Slots<Parked<D>>,
    from: u32,
    to: u32,
) -> Reply
    requires source { IfSome source.old (λ bay. IsDriveAddress from) }
    requires destination { IfSome destination (λ drive. IsDriveAddress to × (from ≢ to)) }
    ensures moves { (bay bay' : Option (BayState D)) × (is_some bay ≡ is_some destination.entry)
        × MovesEach D.state from to slots.old source.old bay result slots.new source.new bay' }
    ensures count { KeepsCount source.old source.new }
{
    match destination {
        Some(
            LockedBay {
                mut front,
                mut back,
            },
        ) => front.move_in(&mut back, source, rt, alloc, slots, from, to),
        None => {
            let mut none = None;
            let reply = move_known(alloc, slots, source, &mut none, from, to);
            drop(none);
            reply
        }
    }
}

// As `move_known`, where each of the two drives may be a locked one.
fn move_between<D: Disk + Drop, B: Parties + Rings, R: Wait>(
    source: Option<LockedBay<'_, D, B>>,
    destination: Option<LockedBay<'_, D, B>>,
    rt: &R,
    alloc: Global,
    slots: &mut Slots<Parked<D>>,
    from: u32,
    to: u32,
) -> Reply
    requires source { IfSome source (λ drive. IsDriveAddress from) }
    requires destination { IfSome destination (λ drive. IsDriveAddress to × (from ≢ to)) }
    ensures { (bay end bay' end' : Option (BayState D)) × (is_some bay ≡ is_some source.entry)
        × (is_some end ≡ is_some destination.entry)
        × MovesEach D.state from to slots.old bay end result slots.new bay' end' }
{
    match source {
        Some(
            LockedBay {
                mut front,
                mut back,
            },
        ) => front.move_out(&mut back, destination, rt, alloc, slots, from, to),
        None => {
            let mut none = None;
            let reply = move_to(&mut none, destination, rt, alloc, slots, from, to);
            drop(none);
            reply
        }
    }
}

/// Moves a cartridge from the element address `from` to `to`, for `mover`, and returns the reply to that. `source` and
/// `destination` are the drives there, with their locks held, or None where there is no drive. A drive at both
/// addresses is passed as the source alone. The move is entered first, whatever its reply is. No other call moves a
/// cartridge.
pub(crate) fn move_locked<D: Disk + Drop, B: Parties + Rings, H: Parties, R: Wait, M: Mover<H>>(
    source: Option<LockedBay<'_, D, B>>,
    destination: Option<LockedBay<'_, D, B>>,
    rt: &R,
    alloc: Global,
    slots: &mut SlotsPlace<D, H>,
    mover: &mut M,
    from: u32,
    to: u32,
) -> Reply
    requires source { IfSome source (λ drive. IsDriveAddress from) }
    requires destination { IfSome destination (λ drive. IsDriveAddress to × (from ≢ to)) }
    ensures moves { (bay end bay' end' : Option (BayState D)) × (is_some bay ≡ is_some source.entry)
        × (is_some end ≡ is_some destination.entry)
        × MovesEach D.state from to slots.old.slots bay end result slots.new.slots bay' end' }
    ensures book { slots.new.moves ≡ slots.old.moves + 1 }
    ensures mover { mover.new ≡ M.moved_once mover.old }
{
    mover.enter_move(rt, &mut slots.book);
    move_between(source, destination, rt, alloc, &mut slots.slots, from, to)
}

impl<D: Disk + Drop, B: Parties + Rings> FrontPlace<D, B> {
    // Moves a cartridge out of this drive, whose disk's half is `back`, as `move_locked` does.
    fn move_out<R: Wait>(
        &mut self,
        back: &mut BackPlace<D, B>,
        destination: Option<LockedBay<'_, D, B>>,
        rt: &R,
        alloc: Global,
        slots: &mut Slots<Parked<D>>,
        from: u32,
        to: u32,
    ) -> Reply
        requires source { IsDriveAddress from }
        requires destination { IfSome destination (λ drive. IsDriveAddress to × (from ≢ to)) }
        ensures { (bay bay' : BayState D) × (end end' : Option (BayState D))
            × (is_some end ≡ is_some destination.entry)
            × HoldsBoth D.state self.old back.old bay bay' self.new back.new
            × MovesEach D.state from to slots.old (Some bay) end result slots.new (Some bay') end' }
    {
        let (bay, ends) = join_held(rt, &mut self.half, &mut back.half);
        let mut source = Some(bay);
        let reply = move_to(&mut source, destination, rt, alloc, slots, from, to);
        let Some(bay) = source else { unreachable!() };
        part_held(bay, ends, &mut self.half, &mut back.half);
        reply
    }

    // Moves a cartridge into this drive, whose disk's half is `back`, as `move_locked` does. The halves of a drive at
    // the source are joined already.
    fn move_in<R: Wait>(
        &mut self,
        back: &mut BackPlace<D, B>,
        source: &mut Option<Bay<D>>,
        rt: &R,
        alloc: Global,
        slots: &mut Slots<Parked<D>>,
        from: u32,
        to: u32,
    ) -> Reply
        requires source { IfSome source.old (λ bay. IsDriveAddress from) }
        requires destination { IsDriveAddress to × (from ≢ to) }
        ensures moves { (bay bay' : BayState D) × HoldsBoth D.state self.old back.old bay bay' self.new back.new
            × MovesEach D.state from to slots.old source.old (Some bay) result slots.new source.new (Some bay') }
        ensures count { KeepsCount source.old source.new }
    {
        let (bay, ends) = join_held(rt, &mut self.half, &mut back.half);
        let mut destination = Some(bay);
        let reply = move_known(alloc, slots, source, &mut destination, from, to);
        let Some(bay) = destination else {
            unreachable!()
        };
        part_held(bay, ends, &mut self.half, &mut back.half);
        reply
    }
}
