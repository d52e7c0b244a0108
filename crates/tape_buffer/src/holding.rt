//! What a buffered medium holds.
ghost use Rattle.std.specs.Prelude.{◌≡◌, ◌⊎◌, List, Some, false};
ghost use Rattle.volume_core.specs.Volume.{Part};
ghost use Rattle.accepted_changes.specs.Core.{IsCore};
ghost use Rattle.tape_buffer.specs.Invariants.{IsHeld, buffer_of};
ghost use Rattle.tape_buffer.specs.Limits.{FitsBuffer};
ghost use Rattle.tape_buffer.specs.Moves.{IsAway, IsHere, IsSafeOrPending, ShowsOn, medium_core};
ghost use Rattle.tape_buffer.specs.State.{IsSettledIn, disk_in, disks_in, state_of};

use crate::aways::Away;
use crate::pending::Pending;
use cartridge::{Cartridge, Shelved};
use std::mem;
use tape_disk::Disk;

/// A cartridge, open (with what is pending over it) or closed, while its disks are at hand; else how it is seen.
#[derive(Drop)]
pub enum Holding<C, S> {
    Open(C),
    Closed(S),
    Away(Away),
}

/// Puts a cartridge, open or closed, into `place`, whose disks must be away.
pub(crate) fn hold<C, S>(place: &mut Holding<C, S>, held: Holding<C, S>)
    requires { IsAway place.old }
    ensures { place.new ≡ held }
{
    match mem::replace(place, held) {
        Holding::Away(_away) => {}
        Holding::Open(_other) => unreachable!(),
        Holding::Closed(_other) => unreachable!(),
    }
}

/// Does nothing; its contract is that of `Buffered::known`, for what is held.
pub(crate) fn known_in<D: Disk>(held: &Holding<(Cartridge<D>, Pending), Shelved<D>>)
    requires { IsHeld held.now }
    ensures core { IsCore (medium_core D.state (buffer_of held.now)) }
    ensures whole { IsSafeOrPending (medium_core D.state (buffer_of held.now)) (buffer_of held.now).pending }
    ensures fits { FitsBuffer (buffer_of held.now).pending }
    ensures shows { ((state_of D.state (buffer_of held.now)).unread ≡ false)
        ⊎ IsSettledIn D.state (buffer_of held.now).held →
        (volume : List Part) → (state_of D.state (buffer_of held.now)).stored ≡ Some volume →
        ShowsOn D.state (disks_in (buffer_of held.now).held) (medium_core D.state (buffer_of held.now)) }
{
    match held {
        Holding::Open((cartridge, pending)) => {
            pending.within();
            cartridge.known();
        }
        Holding::Closed(shelved) => shelved.known(),
        Holding::Away(_) => {}
    }
}

/// Whether an open cartridge is held, whose disks are at hand.
pub(crate) fn is_open<D: Disk>(held: &Holding<(Cartridge<D>, Pending), Shelved<D>>) -> bool
    requires { IsHere held.now }
    ensures { result ≡ (state_of D.state (buffer_of held.now)).awake }
{
    match held {
        Holding::Open(_) => true,
        Holding::Closed(_) | Holding::Away(_) => false,
    }
}

/// For reading: the disk of the side that counts, or the first disk of a closed cartridge.
pub(crate) fn disk_of<D: Disk>(held: &Holding<(Cartridge<D>, Pending), Shelved<D>>) -> &D
    requires { IsHere held.now }
    ensures { disk_in (buffer_of held.now).held ≡ Some result.now }
{
    match held {
        Holding::Open((cartridge, _)) => cartridge.disk(),
        Holding::Closed(shelved) => shelved.disk(),
        Holding::Away(_) => unreachable!(),
    }
}
