//! A buffered medium.
ghost use Rattle.std.specs.Prelude.{◌≡◌, ◌⊎◌, IfNone, IfSome, List, Some, false};
ghost use Rattle.volume_core.specs.Volume.{Part};
ghost use Rattle.accepted_changes.specs.Core.{IsCore};
ghost use Rattle.tape_buffer.specs.Limits.{FitsBuffer};
ghost use Rattle.tape_buffer.specs.Rules.{medium_rules};
ghost use Rattle.tape_buffer.specs.State.{IsSettledIn, closed_buffer, disk_in, disks_in, state_of};
ghost use Rattle.tape_buffer.specs.Moves.{IsAway, IsHere, IsSafeOrPending, ShowsOn, medium_core};
ghost use Rattle.tape_buffer.specs.declared.holding.Holding.TheVariants as Holdings;

use crate::holding::{Holding, disk_of, known_in};
use crate::pending::Pending;
use accepted_changes::Accepting;
use cartridge::{Cartridge, Shelved};
use object_index::Index;
use std::alloc::Global;
use std::marker::Model;
use tape_disk::Disk;

/// A medium over a cartridge on two disks, open or parked (closed, so that it may be moved). What it accepts waits in
/// memory until all of it is stored as one frame. That is done at the latest when the caller asks for it, before a
/// 257th change is accepted, and before the blocks that wait would have more than 4,194,304 bytes. After a device fault
/// the medium accepts nothing until it is parked and woken. While it is open, it has a catalog of the volume that a
/// caller sees.
///
/// Its disks are at hand, or they are away (`detach`), behind a lock of their own. While they are away, it answers from
/// its catalog, and accepts one change at a time, within a budget. That change is to be passed on (`take_loose`) to
/// whoever has the disks.
#[derive(Drop)]
pub struct Buffered<D: Disk> {
    pub(crate) alloc: Global,
    pub(crate) catalog: Option<Index>,
    pub(crate) held: Holding<(Cartridge<D>, Pending), Shelved<D>>,
}

impl<D: Disk> Model for Buffered<D> {
    ghost use Rattle.tape_buffer.specs.Catalogs.{IsCataloged};
    ghost use Rattle.tape_buffer.specs.State.{BufferState};
    ghost use Rattle.tape_buffer.specs.Invariants.{IsHeld, KnowsIn, buffer_of};

    ghost Value = { BufferState D };

    ghost view = { λ b. buffer_of b.held };

    ghost invariant = { λ b. IsHeld b.held × IsCataloged D.state (buffer_of b.held) b.catalog
        × KnowsIn b.held b.catalog };
}

impl<D: Disk> Accepting for Buffered<D> {
    ghost use Rattle.accepted_changes.specs.Device.{two_disks, two_is_device};
    ghost use Rattle.tape_buffer.specs.Rules.{medium_rules};

    ghost rules = { medium_rules };

    ghost device = { two_disks D.state };

    ghost is_device = { two_is_device D.state };
}

impl<D: Disk> Buffered<D> {
    /// Makes a parked medium of a closed cartridge. If nothing is known of the cartridge, the medium is unread: nothing
    /// is known of it either, until it is woken.
    pub fn parked(alloc: Global, shelved: Shelved<D>) -> Buffered<D>
        ensures { result ≡ closed_buffer shelved }
    {
        Buffered {
            alloc,
            catalog: None,
            held: Holding::Closed(shelved),
        }
    }

    /// Returns the closed cartridge of a parked medium. `parked` makes the same medium of it again.
    pub fn into_shelved(self) -> Shelved<D>
        requires parked { (state_of D.state self).awake ≡ false }
        requires hand { IsHere self.held }
        ensures { self.held ≡ Holdings.Closed result }
    {
        let Buffered { held, .. } = self;
        match held {
            Holding::Closed(shelved) => shelved,
            Holding::Open(_open) => unreachable!(),
            Holding::Away(_away) => unreachable!(),
        }
    }

    /// Does nothing; its contract is the invariant of every buffered medium. What is safe (no crash loses it) is
    /// stored, and what is stored was accepted. While the medium is open and has not failed, all that is stored is
    /// safe, and the rest is pending. No more is pending than the limits allow. Where both disks are honest, each pair
    /// of images that a crash now may leave gives what is safe, or what is stored. For a parked medium this needs two
    /// things: that its side gives a volume, and that the medium is not unread or a crash leaves just what a read
    /// gives.
    pub fn known(&self)
        ensures core { IsCore (medium_core D.state self.now) }
        ensures whole { IsSafeOrPending (medium_core D.state self.now) self.now.pending }
        ensures fits { FitsBuffer self.now.pending }
        ensures shows { ((state_of D.state self.now).unread ≡ false) ⊎ IsSettledIn D.state self.now.held →
            (volume : List Part) → (state_of D.state self.now).stored ≡ Some volume →
            ShowsOn D.state (disks_in self.now.held) (medium_core D.state self.now) }
    {
        known_in(&self.held);
    }

    /// Whether the medium is open.
    pub fn is_awake(&self) -> bool
        ensures { result ≡ (state_of D.state self.now).awake }
    {
        self.catalog.is_some()
    }

    /// For reading: the disk of the side that counts, or the first disk where the medium is parked; None while they
    /// are away.
    pub fn disk(&self) -> Option<&D>
        ensures disk { IfSome result (λ disk. disk_in self.now.held ≡ Some disk.now) }
        ensures none { IfNone result (IsAway self.now.held) }
    {
        match &self.held {
            Holding::Away(_) => None,
            Holding::Open(_) | Holding::Closed(_) => Some(disk_of(&self.held)),
        }
    }
}
