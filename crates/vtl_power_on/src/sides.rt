//! Where the sides of a library, the bytes of its cartridges and stores, come from: from files, or made in memory.
ghost use Rattle.std.specs.Prelude.{◌≡◌, IfOk, IfErr, IsTrue};
ghost use Rattle.volume_core.specs.Volume.{are_capacities};
ghost use Rattle.aptpl_store.specs.Kept.{store_kept};
ghost use Rattle.drive_commands.specs.State.{left_of};
ghost use Rattle.vtl_faults.specs.FromBelow.{IsFailure, fault_of_store};
ghost use Rattle.vtl_faults.specs.declared.faults.VtlFault.TheVariants as Faults;
ghost use Rattle.vtl_power_on.specs.Sides.{IsNewCartridge, IsNewStore, IsNoStoreOn, IsStoreOn, SidesGiven};

use crate::starting::NotStarted;
use aptpl_store::{AptplStore, StoreError, StoreRefused};
use bay_moves::Parked;
use cartridge::{Cartridge, CartridgeError, NotCreated, Shelved};
use library::Sealed;
use pr_core::Reservations;
use std::alloc::Global;
use tape_disk::{Disk, MemDisk};
use vtl_base::{Barcode, DriveNo};
use vtl_config::{Address, CartridgeEntry, DriveEntry};
use vtl_faults::faults::VtlFault;
use vtl_files::config_checks::{CARTRIDGE_WORD, STORE_WORD};
use vtl_files::creating::{label_of, slice_of};
use vtl_files::files::{ChangeFiles, LookFiles, SecondFiles, TakesBack};
use vtl_files::opened::opened_both;

/// A store of a drive's reservations, and what a loss of power left of them.
#[derive(Drop)]
pub struct DriveStore<D: Disk> {
    /// The store, open.
    pub store: AptplStore<D>,
    /// What a loss of power left of the reservations that the store saved last.
    pub left: Reservations,
}

/// A source of the sides of a library: for each entry of a configuration it has a cartridge or a store.
pub trait Sides<D: Disk> {
    // What a side may be, and why one may be refused.
    ghost given: { SidesGiven D };

    /// Returns the cartridge of this entry, closed. Errors: `Device` where the cartridge is refused, `NoMemory` where
    /// memory runs out.
    fn cartridge(&self, alloc: Global, entry: CartridgeEntry) -> Result<Parked<D>, VtlFault>
        ensures ok { IfOk result (given.gives_cartridge entry) }
        ensures err { IfErr result (given.refuses_cartridge entry) }
        ensures failure { IfErr result IsFailure };

    /// Returns the store of this entry, open, and what a loss of power leaves of the state that it saved last. Errors:
    /// `Device` where the store is refused, `NoMemory` where memory runs out.
    fn store(&self, alloc: Global, entry: DriveEntry) -> Result<DriveStore<D>, VtlFault>
        ensures ok { IfOk result (λ opened. given.gives_store entry opened.store) }
        ensures left { IfOk result (λ opened.
            opened.left ≡ left_of (store_kept opened.store).saved) }
        ensures err { IfErr result (given.refuses_store entry) }
        ensures failure { IfErr result IsFailure };
}

/// The sides that files hold.
#[derive(Clone, Copy)]
pub struct FileSides<'a, F> {
    /// The files, which are opened by their names.
    pub files: &'a F,
}

/// New sides in memory: cartridges with no data, and stores in which nothing was saved.
#[derive(Clone, Copy)]
pub struct NewSides;

// A disk that gives no store, and the fault for it.
#[derive(Drop)]
struct NoStore<D> {
    fault: VtlFault,
    disk: D,
}

// The program's fault for a store that is not opened.
fn fault_of_store(error: StoreError) -> VtlFault
    ensures { result ≡ fault_of_store error }
{
    match error {
        StoreError::NoMemory => VtlFault::NoMemory,
        _ => VtlFault::Device,
    }
}

// Opens the store that a disk holds. Where it holds none, the disk is returned, with the fault.
fn opened<D: Disk>(alloc: Global, disk: D) -> Result<DriveStore<D>, NoStore<D>>
    ensures ok { IfOk result (λ opened. IsStoreOn D.state disk opened.store) }
    ensures left { IfOk result (λ opened.
        opened.left ≡ left_of (store_kept opened.store).saved) }
    ensures err { IfErr result (λ none. IsNoStoreOn D.state disk none.disk none.fault) }
{
    match AptplStore::open(alloc, disk) {
        Ok((store, left)) => Ok(DriveStore { store, left }),
        Err(refused) => {
            let StoreRefused { error, disk } = refused;
            let fault = fault_of_store(error);
            Err(NoStore { fault, disk })
        }
    }
}

// Reports what is wrong with the file of a cartridge that the start loads. One in a slot is not read at a start.
fn report_loaded<D, F: ChangeFiles<D>>(files: &F, entry: &CartridgeEntry) {
    if let Address::Drive(_) = entry.home {
        files.report_side(
            CARTRIDGE_WORD,
            entry.barcode.as_bytes(),
            entry.file.as_str(),
        );
    }
}

// No disk can be dropped here, and in the next block: each that was opened is in a side, or returned. A cartridge's
// disk is not called.
impl<'a, D: Disk, F: ChangeFiles<D> + LookFiles + SecondFiles<D>> Sides<D> for FileSides<'a, F> {
    ghost use Rattle.vtl_power_on.specs.Sides.{file_sides};

    ghost given = { file_sides D.state F.pairs F.opens F.opens_second F.returns_disk };

    fn cartridge(&self, alloc: Global, entry: CartridgeEntry) -> Result<Parked<D>, VtlFault> {
        report_loaded::<D, F>(self.files, &entry);
        match opened_both::<D, F>(self.files, entry.file, entry.second_file) {
            Ok((first, second)) => Ok(Parked::of(alloc, Shelved::of(first.1, second.1))),
            Err(fault) => Err(fault),
        }
    }

    fn store(&self, alloc: Global, entry: DriveEntry) -> Result<DriveStore<D>, VtlFault> {
        if let Ok(label) = label_of(alloc, entry.number) {
            let name = entry.reservations.as_str();
            self.files.report_side(STORE_WORD, label.as_bytes(), name);
        }
        let (name, found) = self.files.open(entry.reservations);
        match found {
            Ok(disk) => match opened(alloc, disk) {
                Ok(store) => Ok(store),
                Err(none) => {
                    let NoStore { fault, disk } = none;
                    self.files.return_disk(name, disk);
                    Err(fault)
                }
            },
            Err(_) => Err(VtlFault::Device),
        }
    }
}

impl<'a, D: Disk, F: TakesBack<Sealed<D>, NotStarted<D>>> TakesBack<Sealed<D>, NotStarted<D>>
    for FileSides<'a, F> {
    ghost closes_all = { F.closes_all };

    ghost gives_up = { F.gives_up };

    fn close_all(&self, library: Sealed<D>) {
        self.files.close_all(library);
    }

    fn give_up(&self, starting: NotStarted<D>) {
        self.files.give_up(starting);
    }
}

// A new cartridge in memory, closed. A call of a disk in memory fails only where memory for its bytes runs out.
pub(crate) fn new_cartridge(
    alloc: Global,
    barcode: &Barcode,
    capacities: &[u64],
) -> Result<Parked<MemDisk>, VtlFault>
    requires { IsTrue (are_capacities capacities.now) }
    ensures ok { IfOk result (IsNewCartridge barcode.now capacities.now) }
    ensures err { IfErr result (λ fault. fault ≡ Faults.NoMemory) }
{
    let (first, second) = (MemDisk::new(alloc), MemDisk::new(alloc));
    match Cartridge::create(alloc, first, second, barcode, capacities) {
        Ok(shelved) => Ok(Parked::of(alloc, shelved)),
        Err(refused) => {
            drop(refused);
            Err(VtlFault::NoMemory)
        }
    }
}

// A new store in memory for the drive with this number.
pub(crate) fn new_store(alloc: Global, number: DriveNo) -> Result<DriveStore<MemDisk>, VtlFault>
    ensures ok { IfOk result (λ opened. IsNewStore number opened.store) }
    ensures left { IfOk result (λ opened.
        opened.left ≡ left_of (store_kept opened.store).saved) }
    ensures err { IfErr result (λ fault. fault ≡ Faults.NoMemory) }
{
    match AptplStore::create(alloc, MemDisk::new(alloc), number) {
        Ok(store) => Ok(DriveStore {
            store,
            left: Reservations::empty(),
        }),
        Err(refused) => {
            drop(refused);
            Err(VtlFault::NoMemory)
        }
    }
}

impl Sides<MemDisk> for NewSides {
    ghost use Rattle.vtl_power_on.specs.Sides.{new_sides};

    ghost given = { new_sides };

    fn cartridge(&self, alloc: Global, entry: CartridgeEntry) -> Result<Parked<MemDisk>, VtlFault> {
        new_cartridge(alloc, &entry.barcode, slice_of(&entry.capacities))
    }

    fn store(&self, alloc: Global, entry: DriveEntry) -> Result<DriveStore<MemDisk>, VtlFault> {
        new_store(alloc, entry.number)
    }
}

impl TakesBack<Sealed<MemDisk>, NotStarted<MemDisk>> for NewSides {
    ghost use Rattle.vtl_power_on.specs.Sides.{takes_any};

    ghost closes_all = { takes_any };

    ghost gives_up = { takes_any };

    fn close_all(&self, library: Sealed<MemDisk>) {
        drop(library);
    }

    fn give_up(&self, starting: NotStarted<MemDisk>) {
        drop(starting);
    }
}
