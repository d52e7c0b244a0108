//! Libraries in memory, and their answers.
use bay_moves::{Bay, Held, Parked};
use scsi_sense::{Reply, Status};
use std::alloc::Global;
use std::process::Abort;
use std::test::Fail;
use tape_disk::{Disk, MemDisk, OnceDisk};
use test_assertions::assert_equal;
use test_bays::{bay, parked};
use vtl_base::DriveNo;

/// A disk of which one call may fail.
pub type Once = OnceDisk<MemDisk>;

/// No call of a disk is this one.
pub const NEVER: u64 = u64::MAX;

/// The expected answer: a status, and for CHECK CONDITION the key, code and qualifier.
pub type Answer = (Status, u8, u8, u8);

pub const GOOD: Answer = (Status::Good, 0, 0, 0);

pub const POWERED_ON: Answer = (Status::Check, 6, 0x29, 0);

pub const CHANGED: Answer = (Status::Check, 6, 0x28, 0);

pub const NOT_PRESENT: Answer = (Status::Check, 2, 0x3a, 0);

pub const READY: &'static [u8] = &[0; 6];

// A new disk that fails at this call.
fn disk(alloc: Global, fails: u64) -> Once {
    OnceDisk::new(MemDisk::new(alloc), fails)
}

/// A new cartridge with this barcode and 8,192 bytes, whose first disk fails at call number `fails`. Creating it makes
/// five calls.
pub fn cartridge(alloc: Global, barcode: &[u8], fails: u64) -> Result<Parked<Once>, Fail> {
    Ok(parked(
        alloc,
        barcode,
        8_192,
        disk(alloc, fails),
        disk(alloc, NEVER),
    )?)
}

/// The drive of this number, which was just switched on, with this in it.
pub fn drive(
    alloc: Global,
    number: u8,
    cartridge: Option<Parked<Once>>,
) -> Result<(DriveNo, Bay<Once>), Fail> {
    let number = DriveNo::new(number).ok_or("no drive")?;
    Ok((number, bay(alloc, number, disk(alloc, NEVER), cartridge)?))
}

/// Puts a cartridge into a slot.
pub fn place<D: Disk + Drop>(
    held: &mut Held<D>,
    address: u32,
    cartridge: Parked<D>,
) -> Result<(), Fail> {
    held.place(address, cartridge)
        .map_err(|_| Fail::from("not placed"))
}

// Puts a drive into its place.
fn install<D: Disk + Drop>(held: &mut Held<D>, both: (DriveNo, Bay<D>)) -> Result<(), Fail> {
    held.install(both.0, both.1)
        .map_err(|_| Fail::from("not installed"))
}

// Fills a library.
fn fill(alloc: Global, held: &mut Held<Once>, fails: u64) -> Result<(), Fail> {
    place(held, 1001, cartridge(alloc, b"T00001L6", fails)?)?;
    install(held, drive(alloc, 1, None)?)?;
    install(held, drive(alloc, 2, None)?)
}

/// Drives 1 and 2, and in slot 1001 a new cartridge T00001L6 whose first disk fails at call number `fails`.
pub fn library(alloc: Global, fails: u64) -> Result<Held<Once>, Fail> {
    let mut held = Held::new(alloc)?;
    match fill(alloc, &mut held, fails) {
        Ok(()) => Ok(held),
        Err(fail) => {
            drop(held);
            Err(fail)
        }
    }
}

/// A reply is this answer, with these bytes.
pub fn is_answer(rt: &impl Abort, reply: &Reply, wanted: Answer, bytes: &[u8], at: (usize, u64)) {
    let (key, code, qualifier) = match reply.sense {
        Some(sense) => {
            let bytes = sense.bytes();
            (bytes[2] % 16, bytes[12], bytes[13])
        }
        None => (0, 0, 0),
    };
    assert_equal!(rt; (reply.status, key, code, qualifier), wanted; at);
    assert_equal!(rt; reply.bytes.as_slice(), bytes; at);
}
