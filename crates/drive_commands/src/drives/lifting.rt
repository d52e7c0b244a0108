//! Takes out what is in a drive, puts it back, and establishes a deferred error.
ghost use Rattle.std.specs.Prelude.{◌≡◌, true};
ghost use Rattle.drive_commands.specs.State.{IsBayPositioned};
ghost use Rattle.drive_commands.specs.declared.bays.Bay.TheVariants as Bays;

use super::Drive;
use crate::bays::{Bay, fill};
use pr_core::Keeper;
use std::mem;
use volume_core::Medium;

impl<M: Medium, K: Keeper> Drive<M, K> {
    /// Takes out what is in the drive, which is then empty, so that it may be put back changed (`lower`).
    pub fn lift(&mut self) -> Bay<M>
        ensures lifted { result ≡ self.old.bay }
        ensures left { self.new ≡ record self.old { bay = Bays.Empty } }
        ensures positioned { IsBayPositioned M.state self.old.bay self.old.position }
    {
        mem::replace(&mut self.bay, Bay::Empty)
    }

    /// Puts `bay` into the drive, which must be empty. If a medium is loaded, the drive's position must be on it; a
    /// medium that is not loaded must be parked.
    pub fn lower(&mut self, bay: Bay<M>)
        requires empty { self.old.bay ≡ Bays.Empty }
        requires positioned { IsBayPositioned M.state bay self.old.position }
        ensures { self.new ≡ record self.old { bay = bay } }
    {
        fill(&mut self.bay, bay);
    }

    /// Establishes a deferred error, as a flusher's turn does when the device fails.
    pub fn defer(&mut self)
        ensures { self.new ≡ record self.old { deferred = true } }
    {
        self.deferred = true;
    }
}
