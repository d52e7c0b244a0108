//! What a configuration says a library has: its cartridges and its drives.
ghost use Rattle.std.specs.Prelude.{◌≡◌};
ghost use Rattle.vtl_config.specs.Entries.{address_of};

use crate::capacities::Capacities;
use crate::file_names::FileName;
use vtl_base::{Barcode, DriveNo, SlotNo};

/// An element address (own; SMC-3 has the word).
#[derive(Clone, Copy, PartialEq, Eq, Debug)]
pub enum Address {
    /// The address of a slot.
    Slot(SlotNo),
    /// The address of a drive, which is the drive's number.
    Drive(DriveNo),
}

impl Address {
    /// The address as a number: 1 to 16 for a drive, 1001 to 1256 for a slot.
    pub fn number(self) -> u16
        ensures { result ≡ address_of self }
    {
        match self {
            Address::Slot(slot) => slot.address(),
            Address::Drive(drive) => drive.number() as u16,
        }
    }
}

/// A cartridge of the library. Its contents are in two files.
#[derive(Drop, Debug)]
pub struct CartridgeEntry {
    /// Its barcode, which is its name.
    pub barcode: Barcode,
    /// The name of its first file, as the text has it.
    pub file: FileName,
    /// The name of its second file: that of the first with `.2` added.
    pub second_file: FileName,
    /// The capacities of its partitions, in bytes.
    pub capacities: Capacities,
    /// The address of the slot or drive where it is at power on.
    pub home: Address,
}

/// A drive of the library.
#[derive(Drop, Debug)]
pub struct DriveEntry {
    /// Its number, which is its element address too.
    pub number: DriveNo,
    /// The name of the file that keeps its reservations, as the text has it.
    pub reservations: FileName,
}

/// A configuration: the cartridges and drives of a library, in the order of the text.
#[derive(Drop, Debug)]
pub struct Config {
    /// Its cartridges.
    pub cartridges: Vec<CartridgeEntry>,
    /// Its drives.
    pub drives: Vec<DriveEntry>,
}
