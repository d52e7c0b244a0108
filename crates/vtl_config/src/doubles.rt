//! Whether an earlier entry has a value that no two entries may have.
ghost use Rattle.std.specs.Prelude.{◌≡◌, ◌==◌, ◌↔◌, IsTrue};
ghost use Rattle.std.specs.List.{Contains, list_any};
ghost use Rattle.std.specs.Str.{bytes_eq};
ghost use Rattle.vtl_config.specs.Entries.{address_of, numbers_of, drive_files, barcodes_of, homes_of};

use crate::entries::{Address, CartridgeEntry, DriveEntry};
use vtl_base::{Barcode, DriveNo};

fn is_number_of(drive: &DriveEntry, number: DriveNo) -> bool
    ensures { result ≡ (drive.now.number == number) }
{
    drive.number.number() == number.number()
}

fn any_has_number(drives: &[DriveEntry], number: DriveNo) -> bool
    ensures { result ≡ list_any (λ drive. drive.number == number) drives.now }
{
    drives.iter().any(|drive| is_number_of(drive, number))
}

pub(crate) fn has_number(drives: &[DriveEntry], number: DriveNo) -> bool
    ensures { IsTrue result ↔ Contains (numbers_of drives.now) number }
{
    any_has_number(drives, number)
}

fn is_drive_file_of(drive: &DriveEntry, file: &str) -> bool
    ensures { result ≡ bytes_eq drive.now.reservations file.now }
{
    drive.reservations.as_str() == file
}

fn any_has_drive_file(drives: &[DriveEntry], file: &str) -> bool
    ensures { result ≡ list_any (λ drive. bytes_eq drive.reservations file.now) drives.now }
{
    drives.iter().any(|drive| is_drive_file_of(drive, file))
}

pub(crate) fn has_drive_file(drives: &[DriveEntry], file: &str) -> bool
    ensures { IsTrue result ↔ Contains (drive_files drives.now) file.now }
{
    any_has_drive_file(drives, file)
}

fn is_barcode_of(cartridge: &CartridgeEntry, barcode: &Barcode) -> bool
    ensures { result ≡ bytes_eq cartridge.now.barcode barcode.now }
{
    cartridge.barcode.as_bytes() == barcode.as_bytes()
}

fn any_has_barcode(cartridges: &[CartridgeEntry], barcode: &Barcode) -> bool
    ensures { result ≡ list_any (λ cartridge. bytes_eq cartridge.barcode barcode.now) cartridges.now }
{
    cartridges
        .iter()
        .any(|cartridge| is_barcode_of(cartridge, barcode))
}

pub(crate) fn has_barcode(cartridges: &[CartridgeEntry], barcode: &Barcode) -> bool
    ensures { IsTrue result ↔ Contains (barcodes_of cartridges.now) barcode.now }
{
    any_has_barcode(cartridges, barcode)
}

fn is_home_of(cartridge: &CartridgeEntry, home: Address) -> bool
    ensures { result ≡ (address_of cartridge.now.home == address_of home) }
{
    cartridge.home.number() == home.number()
}

fn any_has_home(cartridges: &[CartridgeEntry], home: Address) -> bool
    ensures { result ≡ list_any (λ cartridge. address_of cartridge.home == address_of home) cartridges.now }
{
    cartridges
        .iter()
        .any(|cartridge| is_home_of(cartridge, home))
}

pub(crate) fn has_home(cartridges: &[CartridgeEntry], home: Address) -> bool
    ensures { IsTrue result ↔ Contains (homes_of cartridges.now) (address_of home) }
{
    any_has_home(cartridges, home)
}
