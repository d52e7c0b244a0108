//! A drive of a library and its disks.
use aptpl_store::AptplStore;
use bay_moves::{Bay, Parked};
use cartridge::Shelved;
use std::alloc::Global;
use std::test::Fail;
use tape_disk::{Disk, FuseDisk, MemDisk, OnceDisk};
use vtl_base::NoMemory;

/// The number of a call that no disk reaches.
pub const NEVER: u64 = u64::MAX;

/// A disk over one in memory, of which some calls fail.
pub trait TestDisk: Disk + Drop {
    /// One that fails at the call after this many.
    fn over(disk: MemDisk, calls: u64) -> Self;

    fn memory(&self) -> &MemDisk;
}

impl TestDisk for FuseDisk<MemDisk> {
    fn over(disk: MemDisk, calls: u64) -> FuseDisk<MemDisk> {
        FuseDisk::new(disk, calls)
    }

    fn memory(&self) -> &MemDisk {
        self.inner()
    }
}

impl TestDisk for OnceDisk<MemDisk> {
    fn over(disk: MemDisk, calls: u64) -> OnceDisk<MemDisk> {
        OnceDisk::new(disk, calls)
    }

    fn memory(&self) -> &MemDisk {
        self.inner()
    }
}

/// A drive that was just switched on, with the contents of its disks: the cartridge's two and the store's. Where the
/// store is refused, the cartridge's first disk and the store's are returned.
pub fn switched_on<D: Disk + Drop>(
    alloc: Global,
    tape: D,
    second: D,
    store: D,
) -> Result<Result<Bay<D>, (D, D)>, Fail> {
    match AptplStore::open(alloc, store) {
        Ok((store, left)) => {
            let cartridge = Parked::of(alloc, Shelved::of(tape, second));
            match Bay::power_on(alloc, store, left, Some(cartridge)) {
                Ok(bay) => Ok(Ok(bay)),
                Err(_) => Err(Fail::from("out of memory")),
            }
        }
        Err(refused) => Ok(Err((tape, refused.disk))),
    }
}

/// The same, whose store is not refused.
pub fn whole<D: Disk + Drop>(switched: Result<Bay<D>, (D, D)>) -> Result<Bay<D>, Fail> {
    match switched {
        Ok(bay) => Ok(bay),
        Err(disks) => {
            drop(disks);
            Err(Fail::from("not switched on"))
        }
    }
}

/// Two disks in memory: a cartridge's first and a store's. The cartridge's second disk is empty, and stays so.
#[derive(Drop)]
pub struct Disks {
    pub tape: MemDisk,
    pub store: MemDisk,
}

impl Disks {
    /// Those below two disks.
    pub fn below<D: TestDisk>(tape: &D, store: &D) -> Result<Disks, NoMemory> {
        Ok(Disks {
            tape: tape.memory().copy()?,
            store: store.memory().copy()?,
        })
    }

    /// What a crash leaves of both: of the bytes that are not safe this many of each disk, and this byte in place of
    /// the others.
    pub fn crash(&self, keep: u64, fill: u8) -> Result<Disks, NoMemory> {
        Ok(Disks {
            tape: self.tape.copy()?.crash(keep, fill)?,
            store: self.store.copy()?.crash(keep, fill)?,
        })
    }
}

/// The disks below a drive, as it left them.
pub fn reached<D: TestDisk>(drive: &Bay<D>) -> Result<Disks, Fail> {
    match drive.drive().medium().and_then(|medium| medium.disk()) {
        Some(disk) => Ok(Disks::below(disk, drive.drive().keeper().disk())?),
        None => Err(Fail::from("no cartridge")),
    }
}
