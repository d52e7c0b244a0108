//! A drive over a cartridge on two disks, which are at hand.
use cartridge::Shelved;
use drive_commands::Drive;
use pr_core::{NoKeeper, Reservations};
use scsi_sense::Reply;
use std::alloc::Global;
use std::marker::Model;
use tape_buffer::Buffered;
use tape_disk::Disk;
use volume_core::Turn;
use vtl_base::{Bytes, Nexus};

/// A drive over a cartridge on two disks, which are at hand. It saves no reservations.
#[derive(Drop)]
pub struct Tape<D: Disk> {
    drive: Drive<Buffered<D>, NoKeeper>,
}

impl<D: Disk> Model for Tape<D> {
    ghost use Rattle.drive_commands.specs.State.{DriveState, IsAtHand};
    ghost use Rattle.pr_core.specs.declared.keepers.NoKeeper.{NoKeeper};
    ghost use Rattle.tape_buffer.specs.Moves.{IsHere};
    ghost use Rattle.tape_buffer.specs.State.{BufferState};

    ghost Value = { DriveState (BufferState D) NoKeeper };

    ghost view = { λ t. t.drive };

    ghost invariant = { λ t. IsAtHand (λ m. IsHere m.held) t.drive.bay };
}

impl<D: Disk + Drop> Tape<D> {
    /// See `Drive::execute`.
    pub fn execute(&mut self, nexus: Nexus, cdb: &[u8], sent: &[u8]) -> Reply {
        self.drive.execute(nexus, cdb, sent)
    }

    /// See `Drive::execute_lent`.
    pub fn execute_lent(&mut self, nexus: Nexus, cdb: &[u8], sent: &mut Bytes) -> Reply {
        self.drive.execute_lent(nexus, cdb, sent)
    }

    /// See `Drive::turn`.
    pub fn turn(&mut self) -> Turn {
        self.drive.turn()
    }

    /// The disk of the side that counts, where a medium is in the drive.
    pub fn disk(&self) -> Option<&D> {
        match self.drive.medium() {
            Some(medium) => medium.disk(),
            None => None,
        }
    }
}

/// A drive that was just switched on, with the cartridge on two disks; None where memory ran out.
pub fn switched_on<D: Disk + Drop>(alloc: Global, first: D, second: D) -> Option<Tape<D>> {
    let medium = Buffered::parked(alloc, Shelved::of(first, second));
    match Drive::power_on(alloc, NoKeeper, Reservations::empty(), Some(medium)) {
        Ok(drive) => Some(Tape { drive }),
        Err(_) => None,
    }
}

/// Switches a drive off, which drops it. It is proved once, for every disk.
pub fn switch_off<D: Disk + Drop>(_drive: Tape<D>) {}
