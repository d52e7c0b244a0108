//! The contents of the slots and drives of a library, a cartridge that is taken out, and room for what hosts send.
ghost use Rattle.std.specs.Prelude.{◌≡◌, Some};

use crate::samples::{
    Answer, CHANGED, GOOD, NEVER, Once, POWERED_ON, READY, cartridge, drive, is_answer, library,
    place,
};
use bay_moves::{Bay, Held, Parked};
use scsi_sense::Status;
use split_bay::{Front, NewRing, Rings, join, make_room, part};
use std::alloc::Global;
use std::marker::Brand;
use std::process::Abort;
use std::test::Fail;
use tape_disk::Disk;
use test_assertions::{assert_equal, assert_holds};
use volume_core::{MediumError, Turn};
use vtl_base::{Bytes, DriveNo, Nexus};

const FIRST: &'static [u8] = b"T00001L6        ";

const SECOND: &'static [u8] = b"T00002L6        ";

const WRITE_1: &'static [u8] = &[0x0a, 0, 0, 0, 1, 0];

const BACK_1: &'static [u8] = &[0x11, 0, 0xff, 0xff, 0xff, 0];

const READ_1: &'static [u8] = &[0x08, 0, 0, 0, 1, 0];

// Two cartridges are moved, out of their slots, into others, and into both drives: each move, its answer, and the
// places and barcodes of the cartridges in slots afterwards.
static MOVES: &'static [(u32, u32, Answer, &'static [(usize, &'static [u8])])] = &[
    (1001, 1, GOOD, &[(255, SECOND)]),
    (1256, 1001, GOOD, &[(0, SECOND)]),
    (1, 1001, (Status::Check, 5, 0x3b, 0x0d), &[(0, SECOND)]),
    (1, 1100, GOOD, &[(0, SECOND), (99, FIRST)]),
    (1001, 1002, GOOD, &[(1, SECOND), (99, FIRST)]),
    (1002, 2, GOOD, &[(99, FIRST)]),
];

// Exactly these slots hold a cartridge, with these barcodes, which are bytes 11 to 26 of their disks.
fn are_held(rt: &impl Abort, slots: &[Option<Parked<Once>>], wanted: &[(usize, &[u8])]) {
    assert_equal!(rt; slots.len(), 256);
    let mut found = 0usize;
    for (at, place) in slots.iter().enumerate() {
        if let Some(parked) = place {
            let bytes = match parked.medium().disk() {
                Some(disk) => disk.inner().bytes(),
                None => &[],
            };
            let barcode = bytes.get(11..27).unwrap_or(&[]);
            assert_equal!(rt; wanted.get(found), Some(&(at, barcode)));
            found = found.saturating_add(1);
        }
    }
    assert_equal!(rt; found, wanted.len());
}

// Of 16 places for drives exactly the first two have one, with a cartridge where this says so.
fn are_drives(rt: &impl Abort, drives: &[Option<Bay<Once>>], wanted: [bool; 2]) {
    assert_equal!(rt; drives.len(), 16);
    for (at, place) in drives.iter().enumerate() {
        let found = place.as_ref().map(|bay| !bay.is_empty());
        assert_equal!(rt; found, wanted.get(at).copied(); at);
    }
}

fn is_shown(rt: &impl Abort, alloc: Global, held: &mut Held<Once>) -> Result<(), Fail> {
    are_held(rt, held.inventory().slots, &[(0, FIRST)]);
    assert_holds!(rt; held.slot(1001).is_some() && held.slot(1002).is_none());
    are_drives(rt, held.inventory().drives, [false, false]);
    place(held, 1256, cartridge(alloc, b"T00002L6", NEVER)?)?;
    are_held(rt, held.inventory().slots, &[(0, FIRST), (255, SECOND)]);
    for (at, &(from, to, answer, wanted)) in MOVES.iter().enumerate() {
        is_answer(rt, &held.move_medium(from, to), answer, b"", (at, 0));
        are_held(rt, held.inventory().slots, wanted);
    }
    are_drives(rt, held.inventory().drives, [false, true]);
    Ok(())
}

fn may_go_to_another_thread<H: Send>() {}

#[test]
fn each_slot_and_each_drive_is_shown(rt: HostRuntime) -> Result<(), Fail> {
    may_go_to_another_thread::<Held<Once>>();
    let mut held = library(rt.alloc(), NEVER)?;
    let shown = is_shown(&rt, rt.alloc(), &mut held);
    drop(held);
    shown
}

// The cartridge is unloaded, closed, and loaded again.
fn is_taken_back<D: Disk + Drop>(alloc: Global, bay: &mut Bay<D>) -> bool {
    match bay.unload() {
        Ok(parked) if bay.is_empty() => bay.load(Parked::of(alloc, parked.into_shelved())).is_ok(),
        _ => false,
    }
}

// A command of host 1, the data sent with it, its answer and the bytes: a block is written before, and read afterwards.
type Row = (&'static [u8], &'static [u8], Answer, &'static [u8]);

static WRITTEN: &'static [Row] = &[
    (READY, b"", POWERED_ON, b""),
    (&[0x0a, 0, 0, 0, 5, 0], b"hello", GOOD, b""),
];

static READ: &'static [Row] = &[
    (READY, b"", CHANGED, b""),
    (&[0x08, 0, 0, 0, 5, 0], b"", GOOD, b"hello"),
];

fn keeps<D: Disk + Drop>(rt: &impl Abort, bay: &mut Bay<D>, rows: &[Row]) {
    for (at, &(cdb, sent, wanted, bytes)) in rows.iter().enumerate() {
        let reply = bay.execute(Nexus::new(1).expect(rt, "a nexus"), cdb, sent);
        is_answer(rt, &reply, wanted, bytes, (at, 0));
    }
    assert_equal!(rt; bay.accepted(), 1);
}

#[test]
fn a_cartridge_is_closed_and_taken_back(rt: HostRuntime) -> Result<(), Fail> {
    let cartridge = cartridge(rt.alloc(), b"T00001L6", NEVER)?;
    let (_, mut bay) = drive(rt.alloc(), 1, Some(cartridge))?;
    keeps(&rt, &mut bay, WRITTEN);
    assert_holds!(rt; is_taken_back(rt.alloc(), &mut bay));
    keeps(&rt, &mut bay, READ);
    drop(bay);
    Ok(())
}

// A host sends 257 blocks to a half, which takes 256 of them alone.
fn sends_blocks<R: Rings>(rt: &impl Abort, alloc: Global, front: &mut Front<Once, R>) {
    let nexus = Nexus::new(1).expect(rt, "1");
    for _ in 0..=256 {
        let mut block = Bytes::from_slice(alloc, b"x").expect(rt, "memory");
        let _ = front.execute(nexus, WRITE_1, &mut block);
    }
}

// 256 blocks are stored, and the last one is read back.
fn has_stored(rt: &impl Abort, bay: &mut Bay<Once>) {
    let nexus = Nexus::new(1).expect(rt, "1");
    assert_equal!(rt; (bay.turn(), bay.accepted()), (Turn::Idle, 256));
    is_answer(rt, &bay.execute(nexus, BACK_1, b""), GOOD, b"", (0, 0));
    is_answer(rt, &bay.execute(nexus, READ_1, b""), GOOD, b"x", (0, 0));
}

// There is no room for more than 256 blocks that wait. All of them are stored.
fn makes_room<R: Rings>(rt: &impl Abort, alloc: Global, both: (DriveNo, Bay<Once>), ring: NewRing)
    requires { R.ring both.0 ≡ Some ring }
{
    let (mut front, mut back) = part(both.1, ring.into_ends::<R>(both.0));
    sends_blocks(rt, alloc, &mut front);
    assert!(rt; front.fits(&back));
    assert_equal!(rt; make_room(&mut front, &mut back), Err(MediumError::NoMemory));
    assert!(rt; front.fits(&back));
    let (mut bay, _ends) = join(front, back);
    has_stored(rt, &mut bay);
}

#[test]
fn what_waits_is_stored_where_no_room_is_made(rt: HostRuntime) -> Result<(), Fail> {
    let cartridge = cartridge(rt.alloc(), b"T00001L6", NEVER)?;
    let both = drive(rt.alloc(), 1, Some(cartridge))?;
    let ring = NewRing::new(rt.alloc())?;
    makes_room::<Brand>(&rt, rt.alloc(), both, ring);
    Ok(())
}
