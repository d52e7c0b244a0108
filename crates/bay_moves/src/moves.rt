//! Moves of cartridges in a library: its slots and the drives at the two addresses are lent to `move_lent`.
ghost use Rattle.std.specs.Prelude.{◌≡◌, ◌≢◌, ◌≤◌, ◌⊎◌, ◌<◌, None, Some, IfSome, IfNone, []};
ghost use Rattle.vtl_base.specs.declared.limits.TheConstants.{DRIVES};
ghost use Rattle.scsi_sense.specs.Replies.{check_with};
ghost use Rattle.bay_moves.specs.Elements.{Becomes, bay_at};
ghost use Rattle.bay_moves.specs.Inner.Lifted.{IsCarried, with_bay};
ghost use Rattle.bay_moves.specs.Lent.{IsDriveAddress};
ghost use Rattle.bay_moves.specs.Moves.{KeepsBays, KeepsCartridges, MovesMedium};

use crate::bays::Bay;
use crate::held::Held;
use crate::lent::move_lent;
use scsi_sense::{Reply, Sense};
use std::alloc::Global;
use tape_disk::Disk;
use vtl_base::{Bytes, DriveNo};

/// The drive with this element address, configured or not, if the address is 1 to 16; None for any other address.
/// Element addresses: SMC-3. Their numbers: own.
pub fn drive_of(address: u32) -> Option<DriveNo>
    ensures some { IfSome result (λ drive.
        (drive ≡ address) × (1 ≤ address) × (address ≤ DRIVES)) }
    ensures none { IfNone result ((address ≡ 0) ⊎ (DRIVES < address)) }
{
    DriveNo::new(u8::try_from(address).ok()?)
}

// CHECK CONDITION with this sense data, and no bytes.
pub(crate) fn check(alloc: Global, sense: Sense) -> Reply
    ensures { result ≡ check_with sense [] }
{
    Reply::check(sense, Bytes::new(alloc))
}

impl<D: Disk + Drop> Held<D> {
    /// Moves a cartridge from one element address to another: 1 to 16 are the addresses of drives, 1001 to 1256 those
    /// of slots. The first of these causes that applies refuses the move, and then nothing changes:
    /// - an address is neither a slot's nor a configured drive's: sense key 5, 21/01;
    /// - a reservation is held at a drive of the move: RESERVATION CONFLICT, since the operator is not a nexus;
    /// - the source is empty: sense key 5, 3B/0E;
    /// - the destination is full: sense key 5, 3B/0D.
    ///
    /// A cartridge leaves a drive as by UNLOAD; where that fails, it stays in the drive, and the reply is the drive's.
    /// A cartridge that goes into a drive is loaded there, and 28/00 is established for each nexus. Where the loading
    /// fails, the cartridge returns to its source, unloaded, and the reply is the drive's.
    pub fn move_medium(&mut self, from: u32, to: u32) -> Reply
        ensures answer { MovesMedium D.state self.old from to result self.new }
        ensures keeps { KeepsCartridges D.state self.old from to result self.new }
        ensures bays { KeepsBays self.old self.new }
    {
        // A drive that both addresses name is taken out as the source; the destination is then None.
        let source = self.take_drive(from);
        let destination = self.take_drive(to);
        match (source, destination) {
            (Some(source), Some(destination)) => {
                self.move_between_drives(source, destination, from, to)
            }
            (Some(source), None) => self.move_out_of_drive(source, from, to),
            (None, Some(destination)) => self.move_into_drive(destination, from, to),
            (None, None) => self.move_between_slots(from, to),
        }
    }

    // Takes the drive of this address out of its place, if there is one.
    fn take_drive(&mut self, address: u32) -> Option<Bay<D>>
        ensures out { result ≡ bay_at self.old.bays address }
        ensures left { Becomes address None self.old.bays self.new.bays }
        ensures some { IfSome result (λ bay. IsDriveAddress address × (with_bay address bay self.new ≡ self.old)) }
        ensures none { IfNone result (self.new ≡ self.old) }
    {
        // Read for the proof: there are places for all drives.
        let _ = &self.bays;
        match drive_of(address) {
            Some(drive) => self.bays[drive.place()].take(),
            None => None,
        }
    }

    // Puts a drive into its empty place.
    fn return_drive(&mut self, address: u32, bay: Bay<D>)
        requires { IsDriveAddress address }
        ensures { self.new ≡ with_bay address bay self.old }
    {
        match drive_of(address) {
            Some(drive) => {
                self.bays[drive.place()].insert(bay);
            }
            None => drop(bay),
        }
    }

    // Moves a cartridge between two drives, which were taken out of their places.
    fn move_between_drives(
        &mut self,
        source: Bay<D>,
        destination: Bay<D>,
        from: u32,
        to: u32,
    ) -> Reply
        requires source { IsDriveAddress from }
        requires destination { IsDriveAddress to }
        requires apart { from ≢ to }
        ensures { IsCarried D.state from to result (with_bay from source (with_bay to destination self.old)) self.new }
    {
        let mut source = source;
        let mut destination = destination;
        let reply = move_lent(
            self.alloc,
            &mut self.slots,
            Some(&mut source),
            Some(&mut destination),
            from,
            to,
        );
        self.return_drive(from, source);
        self.return_drive(to, destination);
        reply
    }

    // Moves a cartridge out of this drive, which was taken out of its place. `to` names no other drive.
    fn move_out_of_drive(&mut self, source: Bay<D>, from: u32, to: u32) -> Reply
        requires source { IsDriveAddress from }
        requires alone { bay_at self.old.bays to ≡ None }
        ensures { IsCarried D.state from to result (with_bay from source self.old) self.new }
    {
        let mut source = source;
        let mut none = None;
        let reply = move_lent(
            self.alloc,
            &mut self.slots,
            Some(&mut source),
            none.as_mut(),
            from,
            to,
        );
        drop(none);
        self.return_drive(from, source);
        reply
    }

    // Moves a cartridge into this drive, which was taken out of its place. `from` names no drive.
    fn move_into_drive(&mut self, destination: Bay<D>, from: u32, to: u32) -> Reply
        requires destination { IsDriveAddress to }
        requires apart { from ≢ to }
        requires alone { bay_at self.old.bays from ≡ None }
        ensures { IsCarried D.state from to result (with_bay to destination self.old) self.new }
    {
        let mut destination = destination;
        let mut none = None;
        let reply = move_lent(
            self.alloc,
            &mut self.slots,
            none.as_mut(),
            Some(&mut destination),
            from,
            to,
        );
        drop(none);
        self.return_drive(to, destination);
        reply
    }

    // Moves a cartridge where neither address names a drive.
    fn move_between_slots(&mut self, from: u32, to: u32) -> Reply
        requires source { bay_at self.old.bays from ≡ None }
        requires destination { bay_at self.old.bays to ≡ None }
        ensures { IsCarried D.state from to result self.old self.new }
    {
        let mut none = None;
        let mut nor = None;
        let reply = move_lent(
            self.alloc,
            &mut self.slots,
            none.as_mut(),
            nor.as_mut(),
            from,
            to,
        );
        drop(none);
        drop(nor);
        reply
    }
}
