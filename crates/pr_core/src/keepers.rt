//! The keeper of a drive's reservations, which saves them so that they outlive a loss of power.
ghost use Rattle.std.specs.Prelude.{◌≡◌, [], ◌++◌, List, Ok, false};
ghost use Rattle.vtl_base.specs.Below.{Below, Advances};
ghost use Rattle.pr_core.specs.declared.states.PrState.{PrState};
ghost use Rattle.pr_core.specs.Keepers.{KeeperState, Saves, save_met_fault, saved_by};

use crate::reservations::Reservations;
use thiserror::Error;

/// Why a keeper could not save the reservations.
#[derive(Clone, Copy, PartialEq, Eq, Debug, Error)]
pub enum KeeperError {
    /// Memory ran out. Nothing has changed.
    #[error("out of memory")]
    NoMemory,
    /// The store has no room for the state. Nothing has changed.
    #[error("store full")]
    SideFull,
    /// The device failed in this call, and each later save returns `Failed`. The saved state is either the one before
    /// this call or the new one.
    #[error("device fault")]
    Device,
    /// The keeper failed in an earlier call. Nothing has changed.
    #[error("keeper failed")]
    Failed,
}

/// Saves the reservations of a drive, so that they outlive a loss of power.
pub trait Keeper {
    /// What the keeper has saved, and whether it has failed.
    ghost kept: { Self → KeeperState };

    /// What a contract sees of the layers below: how often the device has failed, whether it keeps the promises of a
    /// disk, and whether it may be called. It also sees which states were saved, or may have been at a fault, between
    /// two values of the keeper.
    ghost below: { Below Self PrState };

    /// Saves `reservations` whole, in place of those saved before.
    fn save(&mut self, reservations: &Reservations) -> Result<(), KeeperError>
        ensures answer { Saves (kept self.old) reservations.now result (kept self.new) }
        ensures advances { Advances below
            self.old (saved_by result reservations.now) (save_met_fault result) self.new };

    /// Whether the device has failed since the keeper was opened. If so, no save succeeds any more.
    fn has_failed(&self) -> bool
        ensures { result ≡ (kept self.now).failed };

    /// Where no call is made, nothing is saved and no fault is met.
    ghost advances_nowhere: { (keeper : Self) → Advances below keeper [] false keeper };

    /// Two sequences of calls, one after the other, save the states of the first sequence and then those of the second.
    ghost moves_on: { (a b c : Self) (first second : List PrState)
        → below.moves a first b → below.moves b second c → below.moves a (first ++ second) c };
}

/// A keeper that saves nothing: each save succeeds, and after a loss of power nothing is found.
#[derive(Clone, Copy, Debug)]
pub struct NoKeeper;

impl Keeper for NoKeeper {
    ghost use Rattle.vtl_base.specs.Below.{advances_nowhere};
    ghost use Rattle.pr_core.specs.Keepers.{nothing_below, nothing_kept};

    ghost kept = { λ keeper. nothing_kept };

    ghost below = { nothing_below };

    fn save(&mut self, reservations: &Reservations) -> Result<(), KeeperError>
        ensures ok { result ≡ Ok tt }
        ensures answer { Saves nothing_kept reservations.now result nothing_kept }
        ensures advances { Advances nothing_below
            self.old (saved_by result reservations.now) (save_met_fault result) self.new }
    {
        Ok(())
    }

    fn has_failed(&self) -> bool {
        false
    }

    ghost advances_nowhere = { λ keeper. advances_nowhere nothing_below (λ value. tt) keeper };

    ghost moves_on = { λ a b c first second one two. tt };
}
