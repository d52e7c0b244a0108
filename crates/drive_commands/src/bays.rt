//! What is in a drive.
ghost use Rattle.std.specs.Prelude.{◌≡◌};
ghost use Rattle.drive_commands.specs.declared.bays.Bay.TheVariants as Bays;

use std::mem;

/// What is in a drive (SSC-4).
#[derive(Drop)]
pub enum Bay<M> {
    Empty,
    /// A cartridge is in the drive, but not loaded.
    Unloaded(M),
    Loaded(M),
}

/// Puts `bay` in place of `slot`, which must be empty.
pub(crate) fn fill<M>(slot: &mut Bay<M>, bay: Bay<M>)
    requires { slot.old ≡ Bays.Empty }
    ensures { slot.new ≡ bay }
{
    match mem::replace(slot, bay) {
        Bay::Empty => {}
        Bay::Unloaded(_other) | Bay::Loaded(_other) => unreachable!(),
    }
}
