//! Opening a library: the halves of its drives go behind their locks, and its hosts get their seats.
ghost use Rattle.std.specs.Prelude.{◌≡◌, ◌+◌, ◌<◌, ◌≤◌, [], is_some, nat_eq, length, map, All, IfOk, IfErr, vec_capacity};
ghost use Rattle.std.specs.List.{IsDistinct};
ghost use Rattle.vtl_base.specs.declared.limits.TheConstants.{DRIVES};
ghost use Rattle.ledgers.specs.Ledgers.{IsBlankOf};
ghost use Rattle.library.specs.Counts.{AcceptedNone, new_seat, one_if_there, places_filled, which_are_there};
ghost use Rattle.library.specs.RingRows.{AreRings};

use crate::libraries::Library;
use crate::places::{BackPlace, FrontPlace, Operator, Seat, SlotsPlace};
use crate::ring_rows::RingRow;
use crate::rows::Row;
use crate::sealed::Sealed;
use crate::shared::SharedBay;
use bay_moves::{Bay, Parked};
use element_slots::Slots;
use ledgers::{Parties, PartyShare, Tally};
use split_bay::{Ends, NewRing, Rings, part};
use std::alloc::Global;
use std::sync::Mutex;
use std::sync::atomic::AtomicBool;
use std::sync::ledger::Blank;
use tape_disk::Disk;
use vtl_base::limits::DRIVES;
use vtl_base::{DriveNo, Nexus};

/// The parts of a library that is not open yet.
#[derive(Drop)]
pub struct Unopened<'a, D: Disk> {
    /// A place for each drive number, from 1 to 16, with the drive if there is one.
    pub bays: Vec<Option<Bay<D>>>,
    /// A ring for each of these drives.
    pub rings: RingRow,
    pub slots: Slots<Parked<D>>,
    pub hosts: &'a [Nexus],
    /// A blank ledger with a party for each drive, and one with a party for each host.
    pub bay_ledger: Blank,
    pub host_ledger: Blank,
}

impl<D: Disk + Drop, B: Parties + Rings, H: Parties> Library<D, B, H> {
    /// Opens the library of these parts, and returns it with a seat for each host, in their order, and with the
    /// operator's token. No drive has accepted a change yet, and no host occurs twice. The library may have no drives,
    /// and no hosts. If memory runs out, slots and drives are returned, sealed.
    pub fn new(
        alloc: Global,
        parts: Unopened<'_, D>,
    ) -> Result<(Library<D, B, H>, Vec<Seat<H>>, Operator<H>), Sealed<D>>
        requires places { length parts.bays.items ≡ DRIVES }
        requires fresh { All (λ bay. AcceptedNone bay) parts.bays.items }
        requires rings { (which_are_there parts.rings ≡ which_are_there parts.bays.items)
            × AreRings B.ring parts.rings }
        requires hosts { IsDistinct nat_eq parts.hosts.now }
        requires bay_ledger { IsBlankOf parts.bay_ledger B.name B.parts B.all
            × (B.all ≡ places_filled parts.bays.items) }
        requires host_ledger { IsBlankOf parts.host_ledger H.name H.parts H.all × (H.all ≡ length parts.hosts.now) }
        ensures drives { IfOk result (λ opened. opened.0 ≡ which_are_there parts.entry.bays.items) }
        ensures seats { IfOk result (λ opened. opened.1.items ≡ map new_seat parts.entry.hosts.now) }
        ensures operator { IfOk result (λ opened. opened.2 ≡ 0) }
        ensures back { IfErr result
            (λ back. back ≡ record { slots = parts.entry.slots; bays = parts.entry.bays.items }) }
    {
        let Unopened {
            bays,
            rings,
            slots,
            hosts,
            bay_ledger,
            host_ledger,
        } = parts;
        let Ok(shared) = Vec::with_capacity(alloc, DRIVES as usize) else {
            return Err(Sealed::from_parts(bays, slots));
        };
        let Ok(seats) = Vec::with_capacity(alloc, hosts.len()) else {
            return Err(Sealed::from_parts(bays, slots));
        };
        let (mut tally, book, moves) = Tally::open(bay_ledger, host_ledger);
        let mut row = Row::of(bays);
        let shared = share_all(shared, &mut row, rings, &mut tally);
        let seats = seat_all(seats, hosts, &mut tally);
        let library = Library {
            alloc,
            bays: shared,
            slots: Mutex::new(SlotsPlace::new(slots, book)),
            tally: Mutex::new(tally),
            row: Mutex::new(row),
            closed: AtomicBool::new(false),
        };
        Ok((library, seats, Operator::of(moves)))
    }
}

// Puts the halves of each drive of a row behind locks, with its share.
fn share_all<D: Disk + Drop, B: Parties + Rings, H: Parties>(
    room: Vec<Option<SharedBay<D, B>>>,
    row: &mut Row<D>,
    rings: RingRow,
    tally: &mut Tally<B, H>,
) -> Vec<Option<SharedBay<D, B>>>
    requires room { (room.items ≡ []) × (DRIVES ≤ vec_capacity room) }
    requires fresh { All (λ bay. AcceptedNone bay) row.old }
    requires rings { (which_are_there rings ≡ which_are_there row.old) × AreRings B.ring rings }
    requires shares { places_filled row.old ≡ tally.old.bays_left }
    ensures drives { which_are_there result.items ≡ which_are_there row.old }
    ensures all { (length result.items ≡ DRIVES) × (places_filled result.items ≡ places_filled row.old) }
    ensures hosts { tally.new.hosts_left ≡ tally.old.hosts_left }
{
    row.known();
    let mut shared = room;
    let mut rings = rings;
    for place in 0..DRIVES {
        let at = place as usize;
        let number = number_at(place);
        let bay = share_one(row.take(at), number, rings.take(at), tally);
        shared.push(bay).unwrap();
    }
    shared
}

// The number of the drive in this place.
fn number_at(place: u8) -> DriveNo
    requires { place < DRIVES }
    ensures { result ≡ place + 1 }
{
    DriveNo::new(place + 1).unwrap()
}

// Puts the halves of a drive, if there is one, behind locks, with its share.
fn share_one<D: Disk + Drop, B: Parties + Rings, H: Parties>(
    bay: Option<Bay<D>>,
    number: DriveNo,
    ring: Option<NewRing>,
    tally: &mut Tally<B, H>,
) -> Option<SharedBay<D, B>>
    requires fresh { AcceptedNone bay }
    requires ring { (is_some ring ≡ is_some bay) × (B.ring number ≡ ring) }
    requires share { one_if_there bay ≤ tally.old.bays_left }
    ensures there { is_some result ≡ is_some bay }
    ensures left { tally.new.bays_left + one_if_there bay ≡ tally.old.bays_left }
    ensures hosts { tally.new.hosts_left ≡ tally.old.hosts_left }
{
    match bay {
        Some(bay) => {
            let Some(ring) = ring else { unreachable!() };
            let share = tally.add_bay();
            Some(share_drive(bay, ring.into_ends(number), share))
        }
        None => None,
    }
}

// Puts the halves of a drive behind locks, with its share.
fn share_drive<D: Disk + Drop, B: Parties + Rings>(
    bay: Bay<D>,
    ends: Ends<B>,
    share: PartyShare<B>,
) -> SharedBay<D, B>
    requires { share ≡ bay.accepted }
{
    let (front, back) = part(bay, ends);
    SharedBay::new(FrontPlace::new(front, share), BackPlace::new(back))
}

// Gives each host a seat.
fn seat_all<B: Parties, H: Parties>(
    room: Vec<Seat<H>>,
    hosts: &[Nexus],
    tally: &mut Tally<B, H>,
) -> Vec<Seat<H>>
    requires room { (room.items ≡ []) × (length hosts.now ≤ vec_capacity room) }
    requires seats { length hosts.now ≡ tally.old.hosts_left }
    ensures { result.items ≡ map new_seat hosts.now }
{
    let mut seats = room;
    for nexus in hosts {
        let (share, moves) = tally.add_host();
        seats.push(Seat::of(*nexus, share, moves)).unwrap();
    }
    seats
}
