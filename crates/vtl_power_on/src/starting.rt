//! Switches on a library, with each cartridge at its home: the slot or drive of its entry in the configuration.
ghost use Rattle.std.specs.Prelude.{◌≡◌, true, IfOk, IfErr, OnOk, is_some};
ghost use Rattle.aptpl_store.specs.Kept.{store_kept};
ghost use Rattle.drive_commands.specs.State.{left_of};
ghost use Rattle.vtl_config.specs.Entries.{address_of};
ghost use Rattle.vtl_power_on.specs.Inner.Waiting.{AreHome, IsNotHome, IsOffAt, PutsHome, SwitchesOnAt};
ghost use Rattle.vtl_power_on.specs.Sides.{IsNewCartridge, memory_state};
ghost use Rattle.vtl_power_on.specs.Starting.{IsBuiltIn, IsNotStarted, IsStart, IsStarted, built_in_barcode, built_in_capacities};
ghost use Rattle.vtl_power_on.specs.Unfinished.{IsBare, home_at};
ghost use Rattle.vtl_faults.specs.declared.faults.VtlFault.TheVariants as Faults;

use crate::sides::{DriveStore, Sides, new_cartridge, new_store};
use aptpl_store::AptplStore;
use bay_moves::{Bay, Held, NotOn, Parked};
use library::Sealed;
use std::alloc::Global;
use std::marker::Model;
use std::mem;
use tape_disk::{Disk, MemDisk};
use vtl_base::limits::DRIVES;
use vtl_base::{Barcode, DriveNo, NoMemory, SlotNo};
use vtl_config::{Address, CartridgeEntry, DriveEntry};
use vtl_faults::faults::VtlFault;
use vtl_files::files::TakesBack;

// The drive, the barcode and the capacity of the built-in configuration.
pub(crate) const DRIVE: u8 = 1;

pub(crate) const BARCODE: &[u8] = b"T00001L6";

const CAPACITY: u64 = 16_777_216;

/// The cartridges and stores that were given for a library that was not switched on.
#[derive(Drop)]
pub struct NotStarted<D: Disk> {
    /// The slots, the drives that are on, and the cartridges that wait for drives that are not on yet.
    pub starting: Starting<D>,
    /// The store of the drive that could not be switched on because memory ran out; None if there was another cause.
    pub store: Option<AptplStore<D>>,
}

impl<D: Disk> Model for NotStarted<D> {
    ghost use Rattle.vtl_power_on.specs.Unfinished.{NotStartedState};

    ghost Value = { NotStartedState D };

    ghost view = { λ n. record { starting = n.starting; store = n.store } };
}

// A drive that is not switched on.
#[derive(Drop)]
struct Off<D: Disk> {
    fault: VtlFault,
    // its store, where memory ran out
    store: Option<AptplStore<D>>,
}

/// A library that is being switched on: its slots are filled, and the cartridges whose homes are drives wait until
/// these drives are on.
#[derive(Drop)]
pub struct Starting<D: Disk> {
    held: Held<D>,
    // from drive 1 on
    waiting: Vec<Option<Parked<D>>>,
}

impl<D: Disk> Model for Starting<D> {
    ghost use Rattle.std.specs.Prelude.{◌≡◌, length};
    ghost use Rattle.vtl_base.specs.declared.limits.TheConstants.{DRIVES};
    ghost use Rattle.vtl_power_on.specs.Unfinished.{StartingState};

    ghost Value = { StartingState D };

    ghost view = { λ s. record { held = s.held; waiting = s.waiting.items } };

    ghost invariant = { λ s. length s.waiting.items ≡ DRIVES };
}

impl<D: Disk + Drop> Starting<D> {
    /// Creates a library with no drives and no cartridges.
    pub fn new(alloc: Global) -> Result<Starting<D>, NoMemory>
        ensures { IfOk result IsBare }
    {
        let mut waiting = Vec::with_capacity(alloc, DRIVES as usize)?;
        for _ in 0..DRIVES {
            waiting.push_reserved(None);
        }
        let held = Held::new(alloc)?;
        Ok(Starting { held, waiting })
    }

    // Puts a cartridge into the slot that is its home, or holds it for the drive that is its home. The error is
    // `Config` where another cartridge has this home.
    fn put(&mut self, home: Address, cartridge: Parked<D>) -> Result<(), VtlFault>
        ensures ok { OnOk result (PutsHome (address_of home) cartridge self.old self.new) }
        ensures err { IfErr result (λ fault.
            (fault ≡ Faults.Config) × (is_some (home_at self.old (address_of home)) ≡ true)) }
    {
        match home {
            Address::Slot(slot) => self.put_in(slot, cartridge),
            Address::Drive(drive) => self.put_beside(drive, cartridge),
        }
    }

    // Puts a cartridge into the slot that is its home.
    fn put_in(&mut self, slot: SlotNo, cartridge: Parked<D>) -> Result<(), VtlFault>
        ensures ok { OnOk result (PutsHome slot cartridge self.old self.new) }
        ensures err { IfErr result (λ fault.
            (fault ≡ Faults.Config) × (is_some (home_at self.old slot) ≡ true)) }
    {
        match self.held.place(slot.address() as u32, cartridge) {
            Ok(()) => Ok(()),
            Err(refused) => {
                drop(refused);
                Err(VtlFault::Config)
            }
        }
    }

    // Holds a cartridge for the drive that is its home.
    fn put_beside(&mut self, drive: DriveNo, cartridge: Parked<D>) -> Result<(), VtlFault>
        ensures ok { OnOk result (PutsHome drive cartridge self.old self.new) }
        ensures err { IfErr result (λ fault.
            (fault ≡ Faults.Config) × (is_some (home_at self.old drive) ≡ true)) }
    {
        // Called for the proof: the numbers of drives begin with 1.
        let _ = drive.number();
        let place = &mut self.waiting[drive.place()];
        if place.is_some() {
            drop(cartridge);
            return Err(VtlFault::Config);
        }
        place.insert(cartridge);
        Ok(())
    }

    // Switches a drive on, over its store, with the cartridge that waits for it. If memory runs out, the cartridge
    // waits again, and the store is returned.
    fn switch_on(
        &mut self,
        alloc: Global,
        number: DriveNo,
        opened: DriveStore<D>,
    ) -> Result<(), Off<D>>
        requires { opened.left ≡ left_of (store_kept opened.store).saved }
        ensures ok { OnOk result (SwitchesOnAt D.state number opened.store self.old self.new) }
        ensures err { IfErr result (λ off.
            IsOffAt D.state number opened.store self.old self.new off.store off.fault) }
    {
        // Called for the proof: the numbers of drives begin with 1.
        let _ = number.number();
        let DriveStore { store, left } = opened;
        let place = number.place();
        let cartridge = mem::replace(&mut self.waiting[place], None);
        match Bay::power_on(alloc, store, left, cartridge) {
            Ok(bay) => {
                if let Err(back) = self.held.install(number, bay) {
                    drop(back);
                    return Err(Off {
                        fault: VtlFault::Config,
                        store: None,
                    });
                }
                Ok(())
            }
            Err(NotOn { cartridge, store }) => {
                drop(mem::replace(&mut self.waiting[place], cartridge));
                Err(Off {
                    fault: VtlFault::NoMemory,
                    store: Some(store),
                })
            }
        }
    }
}

// Puts each cartridge into its home, in the order of the configuration. Where one is refused, those before it are given
// up.
fn place_all<D: Disk + Drop, S: Sides<D> + TakesBack<Sealed<D>, NotStarted<D>>>(
    alloc: Global,
    sides: &S,
    starting: Starting<D>,
    cartridges: Vec<CartridgeEntry>,
) -> Result<Starting<D>, VtlFault>
    requires { IsBare starting }
    ensures ok { IfOk result (AreHome S.given.gives_cartridge cartridges.items) }
    ensures err { IfErr result (IsNotHome D.state S.given S.gives_up cartridges.items) }
{
    let mut starting = starting;
    for entry in cartridges {
        let home = entry.home;
        let cartridge = match sides.cartridge(alloc, entry) {
            Ok(cartridge) => cartridge,
            Err(fault) => {
                sides.give_up(NotStarted {
                    starting,
                    store: None,
                });
                return Err(fault);
            }
        };
        if let Err(fault) = starting.put(home, cartridge) {
            sides.give_up(NotStarted {
                starting,
                store: None,
            });
            return Err(fault);
        }
    }
    Ok(starting)
}

/// Switches on the library of a configuration, with the cartridges and stores that `sides` has for its entries: first
/// puts the cartridges into their homes, then switches on the drives, each in the order of the configuration.
/// `starting` must be a library with nothing in it, as `Starting::new` returns. The first cartridge or store that is
/// refused decides the error: `Device` or `NoMemory`. All that `sides` gave before is then given up
/// (`TakesBack::give_up`). If memory runs out as a drive is switched on, its cartridge and its store are given up, too.
/// The error is `Config` only if two cartridges have the same home, or two drives the same number; no configuration has
/// such entries.
pub fn start<D: Disk + Drop, S: Sides<D> + TakesBack<Sealed<D>, NotStarted<D>>>(
    alloc: Global,
    sides: &S,
    starting: Starting<D>,
    cartridges: Vec<CartridgeEntry>,
    drives: Vec<DriveEntry>,
) -> Result<Held<D>, VtlFault>
    requires { IsBare starting }
    ensures ok { IfOk result
        (IsStarted S.given.gives_cartridge D.state S.given.gives_store cartridges.items drives.items) }
    ensures err { IfErr result (IsNotStarted D.state S.given S.gives_up cartridges.items drives.items) }
{
    let mut starting = place_all(alloc, sides, starting, cartridges)?;
    for entry in drives {
        let number = entry.number;
        let opened = match sides.store(alloc, entry) {
            Ok(opened) => opened,
            Err(fault) => {
                sides.give_up(NotStarted {
                    starting,
                    store: None,
                });
                return Err(fault);
            }
        };
        if let Err(Off { fault, store }) = starting.switch_on(alloc, number, opened) {
            sides.give_up(NotStarted { starting, store });
            return Err(fault);
        }
    }
    Ok(starting.held)
}

// The cartridge of the built-in configuration.
fn built_in_cartridge(alloc: Global) -> Result<Parked<MemDisk>, VtlFault>
    ensures ok { IfOk result (IsNewCartridge built_in_barcode built_in_capacities) }
    ensures err { IfErr result (λ fault. fault ≡ Faults.NoMemory) }
{
    let Ok(barcode) = Barcode::parse(BARCODE) else {
        return Err(VtlFault::Config);
    };
    new_cartridge(alloc, &barcode, &[CAPACITY])
}

// Switches on the drive of the built-in configuration, with its cartridge, in a library with nothing in it.
fn switch_on_built_in(alloc: Global, starting: &mut Starting<MemDisk>) -> Result<(), VtlFault>
    requires { IsBare starting.old }
    ensures ok { OnOk result
        (IsBuiltIn memory_state built_in_barcode built_in_capacities starting.new.held) }
    ensures err { IfErr result (λ fault. fault ≡ Faults.NoMemory) }
{
    let Some(number) = DriveNo::new(DRIVE) else {
        return Err(VtlFault::Config);
    };
    let cartridge = built_in_cartridge(alloc)?;
    starting.put(Address::Drive(number), cartridge)?;
    let opened = new_store(alloc, number)?;
    match starting.switch_on(alloc, number, opened) {
        Ok(()) => Ok(()),
        Err(Off { fault, store }) => {
            drop(store);
            Err(fault)
        }
    }
}

/// Returns the library of the built-in configuration, in memory: it has drive 1 alone, and in that drive the empty
/// cartridge `T00001L6`, with one partition of 16,777,216 bytes. The only error is `NoMemory`.
pub fn built_in(alloc: Global) -> Result<Held<MemDisk>, VtlFault>
    ensures { IsStart (IsBuiltIn memory_state built_in_barcode built_in_capacities)
        (λ fault. fault ≡ Faults.NoMemory) result }
{
    let mut starting = Starting::new(alloc)?;
    match switch_on_built_in(alloc, &mut starting) {
        Ok(()) => Ok(starting.held),
        Err(fault) => {
            drop(starting);
            Err(fault)
        }
    }
}
