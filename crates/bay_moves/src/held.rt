//! A library that one thread holds.
ghost use Rattle.std.specs.Prelude.{◌≡◌, ◌≢◌, [], ℕ, None, Some, true, IfOk, IfErr, OnOk, is_some, option_map, length};
ghost use Rattle.vtl_base.specs.declared.limits.TheConstants.{DRIVES, SLOTS};
ghost use Rattle.element_slots.specs.Slots.{Puts, held_at, refusal_of_placing};
ghost use Rattle.drive_commands.specs.Data.{data_left};
ghost use Rattle.drive_commands.specs.Execute.{asked};
ghost use Rattle.bay_moves.specs.Commands.{Commands};
ghost use Rattle.bay_moves.specs.Elements.{Becomes, bay_at};

use crate::bays::Bay;
use crate::parked::Parked;
use element_slots::{NotPlaced, Slots};
use scsi_sense::Reply;
use std::alloc::Global;
use std::marker::Model;
use tape_disk::Disk;
use vtl_base::limits::DRIVES;
use vtl_base::{Bytes, DriveNo, Nexus, NoMemory};

/// The places of all cartridges in a library: 256 slots, and the places of 16 drives, however many drives are
/// configured.
#[derive(Drop)]
pub struct Inventory<'a, D: Disk> {
    /// The content of each slot, from element address 1001 on, or None where the slot is empty.
    pub slots: &'a [Option<Parked<D>>],
    /// The drive with each number, from 1 to 16, or None where no drive with that number is configured. `Bay::is_empty`
    /// says whether a drive is empty, and `Bay::drive` returns it for reading.
    pub drives: &'a [Option<Bay<D>>],
}

/// The slots and drives of a library, held by one thread: always 256 slots, and up to 16 drives. A contract sees them
/// as two lists.
#[derive(Drop)]
pub struct Held<D: Disk> {
    pub(crate) alloc: Global,
    pub(crate) slots: Slots<Parked<D>>,
    pub(crate) bays: Vec<Option<Bay<D>>>,
}

impl<D: Disk> Model for Held<D> {
    ghost use Rattle.std.specs.Prelude.{◌≡◌, length};
    ghost use Rattle.vtl_base.specs.declared.limits.TheConstants.{DRIVES};
    ghost use Rattle.bay_moves.specs.Elements.{HeldState};

    ghost Value = { HeldState D };

    ghost view = { λ h. record { slots = h.slots; bays = h.bays.items } };

    ghost invariant = { λ h. length h.bays.items ≡ DRIVES };
}

impl<D: Disk + Drop> Held<D> {
    /// Makes a library with 256 empty slots and no drive.
    pub fn new(alloc: Global) -> Result<Held<D>, NoMemory>
        ensures slots { IfOk result (λ held. (address : ℕ) → held_at held.slots address ≡ None) }
        ensures bays { IfOk result (λ held. (number : ℕ) → bay_at held.bays number ≡ None) }
    {
        let slots = Slots::new(alloc)?;
        let mut bays = Vec::with_capacity(alloc, DRIVES as usize)?;
        for _ in 0..DRIVES {
            bays.push_reserved(None);
        }
        Ok(Held { alloc, slots, bays })
    }

    /// Makes a library of these slots and these drives. `bays` has 16 entries, for the drives from number 1 on, each
    /// None where that drive is not configured.
    pub fn from_parts(alloc: Global, bays: Vec<Option<Bay<D>>>, slots: Slots<Parked<D>>) -> Held<D>
        requires { length bays.items ≡ DRIVES }
        ensures { result ≡ record { slots = slots; bays = bays.items } }
    {
        Held { alloc, slots, bays }
    }

    /// Returns the drives, from number 1 to 16, each None where that drive is not configured; and the slots.
    pub fn into_parts(self) -> (Vec<Option<Bay<D>>>, Slots<Parked<D>>)
        ensures bays { result.0.items ≡ self.bays }
        ensures slots { result.1 ≡ self.slots }
        ensures all { length result.0.items ≡ DRIVES }
    {
        (self.bays, self.slots)
    }

    /// Whether a drive with this number is configured.
    pub fn configured(&self, drive: DriveNo) -> bool
        ensures { result ≡ is_some (bay_at self.now.bays drive) }
    {
        self.bays[drive.place()].is_some()
    }

    /// Adds a drive with this number. Where there is a drive with this number already, it stays, and `Err` returns
    /// `bay`.
    pub fn install(&mut self, number: DriveNo, bay: Bay<D>) -> Result<(), Bay<D>>
        ensures ok { OnOk result ((bay_at self.old.bays number ≡ None)
            × Becomes number (Some bay) self.old.bays self.new.bays
            × (self.new.slots ≡ self.old.slots)) }
        ensures err { IfErr result (λ back. (back ≡ bay)
            × (is_some (bay_at self.old.bays number) ≡ true) × (self.new ≡ self.old)) }
    {
        // Called for the proof: the numbers of drives begin with 1.
        let _ = number.number();
        if self.configured(number) {
            return Err(bay);
        }
        self.bays[number.place()].insert(bay);
        Ok(())
    }

    /// Puts a closed cartridge into the slot at this element address, as `Slots::place` does. Where the address is not
    /// that of a slot, or the slot is full, the cartridge is returned with the cause.
    pub fn place(&mut self, address: u32, cartridge: Parked<D>) -> Result<(), NotPlaced<Parked<D>>>
        ensures ok { OnOk result ((refusal_of_placing self.old.slots address ≡ None)
            × Puts address (Some cartridge) self.old.slots self.new.slots
            × (self.new.bays ≡ self.old.bays)) }
        ensures err { IfErr result (λ refused.
            (refusal_of_placing self.old.slots address ≡ Some refused.error)
            × (refused.value ≡ cartridge) × (self.new ≡ self.old)) }
    {
        self.slots.place(address, cartridge)
    }

    /// Answers a command of the host `nexus` to the drive `drive`, which must be configured. `cdb` is the command's
    /// descriptor block, and `sent` the data that the host sends with it.
    pub fn command(&mut self, nexus: Nexus, drive: DriveNo, cdb: &[u8], sent: &[u8]) -> Reply
        requires { is_some (bay_at self.old.bays drive) ≡ true }
        ensures { Commands D.state drive (asked nexus cdb.now sent.now) self.old result self.new }
    {
        // Called for the proof: the numbers of drives begin with 1.
        let _ = drive.number();
        match &mut self.bays[drive.place()] {
            Some(bay) => {
                bay.known();
                bay.execute(nexus, cdb, sent)
            }
            None => unreachable!(),
        }
    }

    /// Answers a command of a host to a configured drive, as `command` does. `sent` lends the command's data: where a
    /// block is written, they are taken out of `sent` without copying; otherwise they stay there.
    pub fn command_lent(
        &mut self,
        nexus: Nexus,
        drive: DriveNo,
        cdb: &[u8],
        sent: &mut Bytes,
    ) -> Reply
        requires { is_some (bay_at self.old.bays drive) ≡ true }
        ensures { (commands : Commands D.state drive (asked nexus cdb.now sent.old) self.old result self.new)
            × (sent.new ≡ data_left commands.step.taken.made.changes sent.old) }
    {
        // Called for the proof: the numbers of drives begin with 1.
        let _ = drive.number();
        match &mut self.bays[drive.place()] {
            Some(bay) => {
                bay.known();
                bay.execute_lent(nexus, cdb, sent)
            }
            None => unreachable!(),
        }
    }

    /// The places of all cartridges: all slots and all drives, as they are now. The call allocates no memory.
    pub fn inventory(&self) -> Inventory<'_, D>
        ensures slots { result.slots.now ≡ self.now.slots }
        ensures drives { result.drives.now ≡ self.now.bays }
        ensures all { (length result.slots.now ≡ SLOTS) × (length result.drives.now ≡ DRIVES) }
    {
        Inventory {
            slots: self.slots.inventory(),
            drives: self.bays.as_slice(),
        }
    }

    /// The drive with this number; None where no drive with this number is configured.
    pub fn bay(&self, drive: DriveNo) -> Option<&Bay<D>>
        ensures { option_map (λ bay. bay.now) result ≡ bay_at self.now.bays drive }
    {
        self.bays[drive.place()].as_ref()
    }

    /// The closed cartridge in the slot at this element address; None where there is no such slot, or it is empty.
    pub fn slot(&self, address: u32) -> Option<&Parked<D>>
        ensures { option_map (λ cartridge. cartridge.now) result ≡ held_at self.now.slots address }
    {
        self.slots.held(address)
    }
}
