//! The disk's half of a bay.
ghost use Rattle.std.specs.Prelude.{◌≡◌, IfSome, None, Some, option_map};
ghost use Rattle.bay_moves.specs.Bays.{KeepsCartridgeIn};
ghost use Rattle.tape_buffer.specs.State.{disk_in};
ghost use Rattle.split_bay.specs.Backs.{FollowsIn, TurnsBack, is_stuck_in, works_in};
ghost use Rattle.split_bay.specs.Spans.{KeepsLimits, span_of};

use crate::ends::{Receiving, Rings};
use crate::taking::take_known;
use std::marker::Model;
use tape_buffer::Disks;
use tape_disk::Disk;
use volume_core::Turn;

/// The disk's half of a bay: the disks of what is in the drive, if there is something, with the pending changes; and
/// the receiving end of the ring, which brings the changes that the hosts' half accepted. After a device fault the half
/// is stuck, and stores nothing more.
#[derive(Drop)]
pub struct Back<D: Disk, R: Rings> {
    pub(crate) receiving: Receiving<R>,
    pub(crate) disks: Option<Disks<D>>,
}

impl<D: Disk, R: Rings> Model for Back<D, R> {
    ghost use Rattle.split_bay.specs.Backs.{BackState, FollowsIn};
    ghost use Rattle.split_bay.specs.Spans.{span_of};

    ghost Value = { BackState D };

    ghost view = { λ b. record {
      number = b.receiving.number;
      received = b.receiving.received;
      waiting = b.receiving.waiting;
      medium = b.disks;
    } };

    ghost invariant = { λ b. FollowsIn D.state b.disks (span_of b.receiving.received) };
}

impl<D: Disk, R: Rings> Back<D, R> {
    /// Takes a flusher's turn: stores what was pending and the changes that it finds in the ring, as one frame. Returns
    /// `Idle` where there is nothing to store, where no medium is loaded, or where the half is stuck. Where it returns
    /// `Device`, the device failed, and the half is stuck from then on. The call allocates no memory.
    pub fn turn(&mut self) -> Turn
        ensures { TurnsBack D.state (works_in D.state self.old.medium) self.old result self.new }
    {
        if !self.works() {
            return Turn::Idle;
        }
        self.receiving.look();
        let Some(disks) = &mut self.disks else {
            unreachable!()
        };
        take_known(&mut self.receiving, disks);
        disks.flush_turn()
    }

    /// Whether a medium is loaded whose device has not failed.
    pub fn works(&self) -> bool
        ensures { result ≡ works_in D.state self.now.medium }
    {
        match &self.disks {
            Some(disks) => disks.is_awake() && !disks.has_failed(),
            None => false,
        }
    }

    /// Whether a medium is loaded whose device has failed. Then nothing more is stored.
    pub fn is_stuck(&self) -> bool
        ensures { result ≡ is_stuck_in D.state self.now.medium }
    {
        match &self.disks {
            Some(disks) => disks.is_awake() && disks.has_failed(),
            None => false,
        }
    }

    /// Establishes, for proofs, the type's invariant. Over honest disks, each pair of images that a crash may leave now
    /// gives the volume that is safe, or the one that is stored. This holds for a medium that gives a volume, if it was
    /// opened before or if a crash leaves only what reads return. The medium is as hosts see it after the changes
    /// received so far, except that some of its pending changes may be stored, and that its device may have failed. No
    /// more changes were received than the span allows.
    pub fn known(&self)
        ensures cartridge { KeepsCartridgeIn D.state (option_map (λ m. m.buffer) self.now.medium) }
        ensures follows { FollowsIn D.state self.now.medium (span_of self.now.received) }
        ensures within { KeepsLimits (span_of self.now.received) }
    {
        self.receiving.known();
        if let Some(disks) = &self.disks {
            disks.known();
        }
    }

    /// The disk, for reading, whose side counts for the medium in the drive; if that medium is parked, its first disk.
    /// None where no medium is in the drive.
    pub fn disk(&self) -> Option<&D>
        ensures disk { IfSome result (λ disk. IfSome self.now.medium (λ medium.
            disk_in medium.buffer.held ≡ Some disk.now)) }
        ensures none { result ≡ None → self.now.medium ≡ None }
    {
        match &self.disks {
            Some(disks) => Some(disks.disk()),
            None => None,
        }
    }
}
