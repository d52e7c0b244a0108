//! The drive of a bay, taken out and put in again.
ghost use Rattle.std.specs.Prelude.{◌≡◌};
ghost use Rattle.drive_commands.specs.State.{IsAtHand};
ghost use Rattle.tape_buffer.specs.Moves.{IsHere, buffer_below};
ghost use Rattle.tape_buffer.specs.State.{state_of};
ghost use Rattle.bay_moves.specs.Bays.{KeepsBoth};
ghost use Rattle.bay_moves.specs.Reservations.{IsHolding};

use crate::bays::{Bay, known};
use aptpl_store::AptplStore;
use drive_commands::Drive;
use tape_buffer::Buffered;
use tape_disk::Disk;

impl<D: Disk> Bay<D> {
    /// Returns the drive. The bay's invariant still holds for its cartridge and its store.
    pub fn into_drive(self) -> Drive<Buffered<D>, AptplStore<D>>
        ensures same { result ≡ self }
        ensures keeps { KeepsBoth D.state self }
    {
        self.drive
    }

    /// Makes a bay of `drive`, a drive over a cartridge and a store. Its reservations must agree with the store
    /// (`IsHolding`): a loss of power must leave the same of the state that was saved last as of the reservations that
    /// the drive holds.
    pub fn of_drive(drive: Drive<Buffered<D>, AptplStore<D>>) -> Bay<D>
        requires holding { IsHolding (state_of D.state) (buffer_below D.state) D.state drive }
        requires hand { IsAtHand (λ m. IsHere m.held) drive.bay }
        ensures { result ≡ drive }
    {
        known(&drive);
        Bay { drive }
    }
}
