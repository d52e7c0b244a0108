//! Frames that were worked by hand, and drives with new cartridges.
use bay_moves::Bay;
use std::alloc::Global;
use std::test::Fail;
use tape_disk::MemDisk;
use test_bays::{bay, parked};
use vtl_base::DriveNo;

/// The bytes that these lines of hex digits spell; spaces don't count.
pub fn bytes_of(alloc: Global, lines: &[&'static str]) -> Result<Vec<u8>, Fail> {
    let mut digits = Vec::new(alloc);
    for line in lines {
        for digit in line.as_bytes() {
            if *digit != b' ' {
                digits.push(*digit)?;
            }
        }
    }
    Ok(hex::decode(alloc, digits.as_slice())?)
}

/// The drive of this number, just switched on, with a new cartridge in it.
pub fn loaded(alloc: Global, number: u8) -> Result<(DriveNo, Bay<MemDisk>), Fail> {
    let number = DriveNo::new(number).ok_or("no drive")?;
    let (first, second) = (MemDisk::new(alloc), MemDisk::new(alloc));
    let cartridge = parked(alloc, b"T00001L6", 4_096, first, second)?;
    Ok((
        number,
        bay(alloc, number, MemDisk::new(alloc), Some(cartridge))?,
    ))
}

/// `count` such drives from number 1 on, in a row of sixteen places.
pub fn row(alloc: Global, count: u8) -> Result<Vec<Option<Bay<MemDisk>>>, Fail> {
    let mut bays = Vec::new(alloc);
    for place in 0..count {
        let (_, bay) = loaded(alloc, place + 1)?;
        bays.push(Some(bay))?;
    }
    for _ in bays.len()..16 {
        bays.push(None)?;
    }
    Ok(bays)
}
