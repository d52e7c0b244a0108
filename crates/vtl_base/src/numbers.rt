//! Numbers of hosts, drives, slots, partitions and objects.
ghost use Rattle.std.specs.Prelude.{◌≡◌, ◌≤◌, ◌<◌, ◌-◌, ◌↔◌, IsSome, IfSome};
ghost use Rattle.vtl_base.specs.declared.limits.TheConstants.{NEXUSES, DRIVES, SLOTS, FIRST_SLOT};

use crate::limits::{DRIVES, FIRST_SLOT, NEXUSES, SLOTS};
use std::marker::Model;

/// A partition's number, from 0 on (SSC-4). Any `u8` is one, whether a tape has such a partition or not.
pub type PartNo = u8;

/// An object's number in its partition, from 0 on (SSC-4). Any `u32` is one, whether there is such an object
/// or not.
pub type ObjNo = u32;

/// The nexus of a host, which is its number at every drive: from 1 to 64 (own; the word is from SAM-5).
#[derive(Clone, Copy, PartialEq, Eq, Debug)]
pub struct Nexus {
    number: u8,
}

impl Model for Nexus {
    ghost use Rattle.std.specs.Prelude.{ℕ, ◌≤◌};
    ghost use Rattle.vtl_base.specs.declared.limits.TheConstants.{NEXUSES};

    ghost Value = { ℕ };

    ghost view = { λ n. n.number };

    ghost invariant = { λ n. (1 ≤ n.number) × (n.number ≤ NEXUSES) };

    ghost inverse = { λ n. record { number = n } };
}

impl Nexus {
    /// The nexus with this number, if it is 1 to 64; None for any other number.
    pub fn new(number: u8) -> Option<Self>
        ensures valid { IsSome result ↔ ((1 ≤ number) × (number ≤ NEXUSES)) }
        ensures value { IfSome result (λ nexus. nexus ≡ number) }
    {
        if number >= 1 && number <= NEXUSES {
            Some(Nexus { number })
        } else {
            None
        }
    }

    /// The number of the nexus, from 1 to 64.
    pub fn number(self) -> u8
        ensures value { result ≡ self }
        ensures range { (1 ≤ result) × (result ≤ NEXUSES) }
    {
        self.number
    }

    /// The index of the nexus in a table of all nexuses, from 0 to 63.
    pub fn place(self) -> usize
        ensures place { result ≡ self - 1 }
        ensures range { result < NEXUSES }
    {
        self.number as usize - 1
    }
}

/// The number of a drive, which is also its element address: from 1 to 16 (own; the term element address is from
/// SMC-3).
#[derive(Clone, Copy, PartialEq, Eq, Debug)]
pub struct DriveNo {
    number: u8,
}

impl Model for DriveNo {
    ghost use Rattle.std.specs.Prelude.{ℕ, ◌≤◌};
    ghost use Rattle.vtl_base.specs.declared.limits.TheConstants.{DRIVES};

    ghost Value = { ℕ };

    ghost view = { λ n. n.number };

    ghost invariant = { λ n. (1 ≤ n.number) × (n.number ≤ DRIVES) };

    ghost inverse = { λ n. record { number = n } };
}

impl DriveNo {
    /// The drive with this number, if it is 1 to 16; None for any other number.
    pub fn new(number: u8) -> Option<Self>
        ensures valid { IsSome result ↔ ((1 ≤ number) × (number ≤ DRIVES)) }
        ensures value { IfSome result (λ drive. drive ≡ number) }
    {
        if number >= 1 && number <= DRIVES {
            Some(DriveNo { number })
        } else {
            None
        }
    }

    /// The number of the drive, from 1 to 16.
    pub fn number(self) -> u8
        ensures value { result ≡ self }
        ensures range { (1 ≤ result) × (result ≤ DRIVES) }
    {
        self.number
    }

    /// The index of the drive in a table of all drives, from 0 to 15.
    pub fn place(self) -> usize
        ensures place { result ≡ self - 1 }
        ensures range { result < DRIVES }
    {
        self.number as usize - 1
    }
}

/// The element address of a slot, from 1001 to 1256 (own; the term element address is from SMC-3).
#[derive(Clone, Copy, PartialEq, Eq, Debug)]
pub struct SlotNo {
    address: u16,
}

impl Model for SlotNo {
    ghost use Rattle.std.specs.Prelude.{ℕ, ◌≤◌, ◌<◌, ◌-◌};
    ghost use Rattle.vtl_base.specs.declared.limits.TheConstants.{FIRST_SLOT, SLOTS};

    ghost Value = { ℕ };

    ghost view = { λ n. n.address };

    ghost invariant = { λ n. (FIRST_SLOT ≤ n.address) × (n.address - FIRST_SLOT < SLOTS) };

    ghost inverse = { λ n. record { address = n } };
}

impl SlotNo {
    /// The slot with this element address, if it is 1001 to 1256; None for any other address.
    pub fn new(address: u32) -> Option<Self>
        ensures valid { IsSome result ↔ ((FIRST_SLOT ≤ address) × (address - FIRST_SLOT < SLOTS)) }
        ensures value { IfSome result (λ slot. slot ≡ address) }
    {
        let address = u16::try_from(address).ok()?;
        if address >= FIRST_SLOT && address - FIRST_SLOT < SLOTS {
            Some(SlotNo { address })
        } else {
            None
        }
    }

    /// The element address of the slot, from 1001 to 1256.
    pub fn address(self) -> u16
        ensures value { result ≡ self }
        ensures range { (FIRST_SLOT ≤ result) × (result - FIRST_SLOT < SLOTS) }
    {
        self.address
    }

    /// The index of the slot in a table of all slots, from 0 to 255.
    pub fn place(self) -> usize
        ensures place { result ≡ self - FIRST_SLOT }
        ensures range { result < SLOTS }
    {
        (self.address - FIRST_SLOT) as usize
    }
}
