//! Storing what is pending, before a command goes on.
ghost use Rattle.std.specs.Prelude.{◌≡◌, [], false, true};
ghost use Rattle.vtl_base.specs.Below.{Advances};
ghost use Rattle.volume_core.specs.Stores.{Stores};
ghost use Rattle.drive_commands.specs.Execute.{is_device_fault};
ghost use Rattle.drive_commands.specs.Inner.Storing.{StoresPending};

use crate::faults::Fault;
use volume_core::{Medium, MediumError};

/// Stores what is pending. The call allocates no memory, and fails only where the device fails.
pub fn store_pending<M: Medium>(medium: &mut M) -> Result<(), Fault>
    requires hand { M.below.at_hand medium.old }
    requires awake { (M.state medium.old).awake ≡ true }
    requires works { (M.state medium.old).failed ≡ false }
    ensures answer { StoresPending (M.state medium.old) result (M.state medium.new) }
    ensures stores { Stores (M.state medium.old) [] (M.state medium.new) }
    ensures advances { Advances M.below medium.old [] (is_device_fault result) medium.new }
{
    match medium.settle() {
        Ok(()) => Ok(()),
        Err(MediumError::Device) => Err(Fault::Writing),
        Err(_) => unreachable!(),
    }
}
