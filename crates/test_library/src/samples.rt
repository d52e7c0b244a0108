//! Drives, cartridges and slots over disks in memory, of which one call may fail, and whose syncs may last.
use crate::stages::Stage;
use bay_moves::{Bay, Parked};
use element_slots::Slots;
use std::alloc::Global;
use std::process::Abort;
use std::sync::Arc;
use std::test::Fail;
use tape_disk::{Disk, MemDisk, OnceDisk};
use test_bays::{bay, parked};
use vtl_base::{DevFault, DriveNo};

/// No call of a disk is this one.
pub const NEVER: u64 = u64::MAX;

/// What the syncs of a disk do.
#[derive(Clone, Copy)]
pub enum Syncs {
    Plain,
    /// They may last.
    Last,
    /// They free those that last.
    Free,
}

/// A disk whose syncs may last, or free those that last.
#[derive(Drop)]
pub struct SlowDisk<D> {
    below: D,
    stage: Arc<Stage, Global>,
    syncs: Syncs,
}

impl<D> SlowDisk<D> {
    pub fn inner(&self) -> &D {
        &self.below
    }
}

impl<D: Disk> Disk for SlowDisk<D> {
    ghost state = { λ d. D.state d.below };

    fn len(&self) -> u64 {
        self.below.len()
    }

    fn read_at(&mut self, at: u64, buffer: &mut [u8]) -> Result<(), DevFault> {
        self.below.read_at(at, buffer)
    }

    fn write_at(&mut self, at: u64, bytes: &[u8]) -> Result<(), DevFault> {
        self.below.write_at(at, bytes)
    }

    fn cut(&mut self, len: u64) -> Result<(), DevFault> {
        self.below.cut(len)
    }

    fn sync(&mut self) -> Result<(), DevFault> {
        match self.syncs {
            Syncs::Free => self.stage.free(),
            Syncs::Last => self.stage.sync(),
            Syncs::Plain => {}
        }
        self.below.sync()
    }

    ghost is_disk = { λ d honest. D.is_disk d.below honest };
}

/// The disk of all tests.
pub type TestDisk = SlowDisk<OnceDisk<MemDisk>>;

// A new disk that fails at the call with this number.
fn disk(
    alloc: Global,
    stage: &Arc<Stage, Global>,
    fails: u64,
    syncs: Syncs,
) -> Result<TestDisk, Fail> {
    Ok(SlowDisk {
        below: OnceDisk::new(MemDisk::new(alloc), fails),
        stage: Arc::try_clone(stage)?,
        syncs,
    })
}

pub fn drive(rt: &impl Abort, number: u8) -> DriveNo {
    DriveNo::new(number).expect(rt, "a drive")
}

/// The drives of a library, from number 1 on, and its slots.
#[derive(Drop)]
pub struct Sample<D: Disk> {
    pub bays: Vec<Option<Bay<D>>>,
    pub slots: Slots<Parked<D>>,
}

/// How the first disks of the cartridges are.
#[derive(Clone, Copy)]
pub enum First {
    /// This call of the first cartridge's fails, of which creating it makes five, and its syncs may last.
    Fails(u64),
    /// The syncs of each may last.
    Lasts,
    /// The syncs of each may last, but those of the first cartridge's free them.
    Frees,
}

// A new cartridge of 16,777,216 bytes with this number in its barcode, on disks that are so.
fn cartridge(
    alloc: Global,
    stage: &Arc<Stage, Global>,
    number: u8,
    first: First,
) -> Result<Parked<TestDisk>, Fail> {
    let mut barcode = *b"T00000L6";
    barcode[4] = b'0' + number / 10 % 10;
    barcode[5] = b'0' + number % 10;
    let (fails, syncs) = match first {
        First::Fails(fails) if number == 1 => (fails, Syncs::Last),
        First::Fails(_) => (NEVER, Syncs::Plain),
        First::Frees if number == 1 => (NEVER, Syncs::Free),
        _ => (NEVER, Syncs::Last),
    };
    let below = disk(alloc, stage, fails, syncs)?;
    let second = disk(alloc, stage, NEVER, Syncs::Plain)?;
    Ok(parked(alloc, &barcode, 16_777_216, below, second)?)
}

// Adds a drive that was just switched on, with this cartridge in it.
fn add_bay<D: Disk + Drop>(
    rt: &impl Abort,
    alloc: Global,
    sample: &mut Sample<D>,
    store: D,
    cartridge: Option<Parked<D>>,
) -> Result<(), Fail> {
    let number = drive(rt, (sample.bays.len() % 16) as u8 + 1);
    sample
        .bays
        .push(Some(bay(alloc, number, store, cartridge)?))?;
    Ok(())
}

fn shelve<D: Disk + Drop>(
    sample: &mut Sample<D>,
    address: u32,
    cartridge: Parked<D>,
) -> Result<(), Fail> {
    sample
        .slots
        .place(address, cartridge)
        .map_err(|_| Fail::from("not placed"))
}

/// So many drives, in each a new cartridge with its number; or, with no drive that is loaded, two empty drives, and
/// cartridges 1 to 3 in slots 1001 to 1003.
pub fn make_sample(
    rt: &impl Abort,
    alloc: Global,
    stage: &Arc<Stage, Global>,
    loaded: u8,
    first: First,
) -> Result<Sample<TestDisk>, Fail> {
    let mut sample = Sample {
        bays: Vec::new(alloc),
        slots: Slots::new(alloc)?,
    };
    let count = if loaded == 0 { 3 } else { loaded };
    for place in 0..count {
        let made = cartridge(alloc, stage, place + 1, first)?;
        let store = disk(alloc, stage, NEVER, Syncs::Plain)?;
        if loaded > 0 {
            add_bay(rt, alloc, &mut sample, store, Some(made))?;
        } else {
            shelve(&mut sample, 1001 + u32::from(place), made)?;
            if place < 2 {
                add_bay(rt, alloc, &mut sample, store, None)?;
            }
        }
    }
    for _ in sample.bays.len()..16 {
        sample.bays.push(None)?;
    }
    Ok(sample)
}
