//! What is done with a disk that stops or fails.
ghost use Rattle.tape_disk.specs.TwoDisks.{AreHonest};

use crate::journals::{FAULT as SIDE_FAULT, FIRST, SECOND, place, spell};
use crate::samples::{FAULT, block, erased, marks, store_side, store_two};
use cartridge::{Cartridge, CartridgeError, NotCreated, Shelved};
use gate_journal::{Frame, Journal, JournalError};
use std::alloc::Global;
use tape_disk::Disk;
use test_known::Known;

/// The work on a disk.
#[derive(Clone, Copy, Debug, PartialEq, Eq)]
pub enum Work {
    /// The side on it is opened, and the first body added: copied, or spelled in place.
    Append,
    Place,
    /// The cartridge on it is opened and erased.
    Erase,
    /// A cartridge is made on it, and stores a frame of one block, one of a mark and one of two changes. It is opened
    /// again before the last frame and at the end.
    Store,
    /// A cartridge is made on it, and stores a block of this size, a mark and such a block again as one frame.
    Long(usize),
}

// Adds the first body. False: that met a fault, after which the side has failed.
fn is_appended<D: Disk + Drop>(side: &mut Journal<D>) -> bool {
    side.append(FIRST) != Err(SIDE_FAULT) || side.append(SECOND) != Err(JournalError::Failed)
}

// Adds the first body, spelled in place. False: that met a fault, and left an empty frame. The side has failed, which
// leaves the next body in the frame.
fn is_placed<D: Disk + Drop>(side: &mut Journal<D>, frame: &mut Frame) -> bool {
    if spell(frame, FIRST).is_err() || place(side, frame) != Err(SIDE_FAULT) {
        return true;
    }
    frame.body().len() > 0
        || spell(frame, SECOND).is_err()
        || place(side, frame) != Err(JournalError::Failed)
        || frame.body() != SECOND.as_slice()
}

fn added<D: Disk + Drop>(alloc: Global, work: Work, disk: D) -> (D, bool) {
    match Journal::open(alloc, disk) {
        Ok(side) => {
            let mut side = side;
            let ended = match work {
                Work::Append => is_appended(&mut side),
                _ => is_placed(&mut side, &mut Frame::new(alloc)),
            };
            (side.close(), ended)
        }
        Err(refused) => (refused.disk, refused.error != SIDE_FAULT),
    }
}

fn with_erase<D: Disk + Drop>(alloc: Global, first: D, second: D) -> (D, bool) {
    match Cartridge::open(alloc, Shelved::of(first, second)) {
        Ok(cartridge) => {
            let mut cartridge = cartridge;
            let ended = erased(&mut cartridge) != Err(FAULT)
                || erased(&mut cartridge) != Err(CartridgeError::Failed);
            (cartridge.shelve().into_disks().0, ended)
        }
        Err(refused) => {
            let ended = refused.error != FAULT;
            (refused.shelved.into_disks().0, ended)
        }
    }
}

// Stores the three frames. Returns the cartridge that was reached, and whether it came to its end.
fn stored<D: Disk + Drop>(
    alloc: Global,
    known: Known<D>,
) -> Result<(Known<D>, bool), NotCreated<D>> {
    let mut known = known;
    if store_side(alloc, &mut known).is_err() {
        return Ok((known, false));
    }
    let mut known = known.opened_again(alloc)?;
    if store_two(alloc, &mut known).is_err() {
        return Ok((known, false));
    }
    Ok((known.opened_again(alloc)?, true))
}

// Stores two blocks of this size around a mark as one frame.
fn store_long<D: Disk + Drop>(
    alloc: Global,
    known: &mut Known<D>,
    size: usize,
) -> Result<(), CartridgeError> {
    let bytes = vec![in alloc; 0x5a; size]?;
    let changes = [
        block(alloc, 0, 0, &bytes)?,
        marks(0, 1, 1),
        block(alloc, 0, 2, &bytes)?,
    ];
    known.store(alloc, &changes)
}

// Makes a cartridge, and stores in it.
fn made<D: Disk + Drop>(
    alloc: Global,
    work: Work,
    first: D,
    second: D,
) -> Result<(Known<D>, bool), NotCreated<D>>
    requires { AreHonest D.state (record { first = first; second = second }) }
{
    let mut known = Known::made(alloc, first, second, &[262_144])?;
    match work {
        Work::Long(size) => {
            let ended = store_long(alloc, &mut known, size).is_ok();
            Ok((known, ended))
        }
        _ => stored(alloc, known),
    }
}

/// Does the work on the first disk. Returns it, and whether the work came to its end, which it does not where a call
/// of the disk failed.
pub fn done<D: Disk + Drop>(alloc: Global, work: Work, first: D, second: D) -> (D, bool)
    requires { AreHonest D.state (record { first = first; second = second }) }
{
    match work {
        Work::Append | Work::Place => {
            drop(second);
            added(alloc, work, first)
        }
        Work::Erase => with_erase(alloc, first, second),
        Work::Store | Work::Long(_) => match made(alloc, work, first, second) {
            Ok((known, ended)) => (known.into_disks().0, ended),
            Err(refused) => (refused.first, false),
        },
    }
}
