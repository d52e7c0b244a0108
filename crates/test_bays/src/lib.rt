//! Drives and cartridges for tests.
#![tactic(auto)]

ghost use Rattle.std.specs.Prelude.{◌≡◌, [], IfOk};

use aptpl_store::AptplStore;
use bay_moves::{Bay, Parked};
use cartridge::Cartridge;
use pr_core::Reservations;
use std::alloc::Global;
use tape_disk::Disk;
use volume_core::are_capacities;
use vtl_base::{Barcode, DriveNo};

/// A new cartridge with this barcode, of one partition with this capacity, on these two disks. Creating it makes five
/// calls of the first. The error says what is wrong.
pub fn parked<D: Disk + Drop>(
    alloc: Global,
    barcode: &[u8],
    capacity: u64,
    first: D,
    second: D,
) -> Result<Parked<D>, &'static str> {
    let Ok(barcode) = Barcode::parse(barcode) else {
        return Err("no barcode");
    };
    let capacities = [capacity];
    if !are_capacities(&capacities) {
        return Err("no capacity");
    }
    match Cartridge::create(alloc, first, second, &barcode, &capacities) {
        Ok(shelved) => Ok(Parked::of(alloc, shelved)),
        Err(_) => Err("no cartridge"),
    }
}

// The new store of a drive, on this disk.
fn store<D: Disk + Drop>(
    alloc: Global,
    number: DriveNo,
    disk: D,
) -> Result<AptplStore<D>, &'static str>
    ensures { IfOk result (λ store. store.states ≡ []) }
{
    match AptplStore::create(alloc, disk, number) {
        Ok(store) => Ok(store),
        Err(_) => Err("no store"),
    }
}

// A drive over this store that was just switched on, with this in it.
fn switched_on<D: Disk + Drop>(
    alloc: Global,
    store: AptplStore<D>,
    cartridge: Option<Parked<D>>,
) -> Result<Bay<D>, &'static str>
    requires { store.states ≡ [] }
{
    match Bay::power_on(alloc, store, Reservations::empty(), cartridge) {
        Ok(bay) => Ok(bay),
        Err(_) => Err("not switched on"),
    }
}

/// A drive that was just switched on, with a new store on this disk, and this cartridge in it. The error says what is
/// wrong.
pub fn bay<D: Disk + Drop>(
    alloc: Global,
    number: DriveNo,
    disk: D,
    cartridge: Option<Parked<D>>,
) -> Result<Bay<D>, &'static str> {
    let store = store(alloc, number, disk)?;
    switched_on(alloc, store, cartridge)
}
