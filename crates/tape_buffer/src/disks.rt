//! The disks of a medium while they are away from it, behind a lock of their own.
ghost use Rattle.std.specs.Prelude.{◌≡◌, ◌⊎◌, ◌++◌, List, [], ◌∷◌, None, Some, true, false};
ghost use Rattle.vtl_base.specs.Below.{Advances};
ghost use Rattle.volume_core.specs.Volume.{Part, refusal_of};
ghost use Rattle.volume_core.specs.Medium.{Turns, turn_met_fault, volume_of};
ghost use Rattle.volume_core.specs.Stores.{Stores};
ghost use Rattle.accepted_changes.specs.Core.{IsCore};
ghost use Rattle.tape_buffer.specs.Frames.{IsOneFrameIn, frames_in};
ghost use Rattle.tape_buffer.specs.Limits.{FitsBuffer};
ghost use Rattle.tape_buffer.specs.Moves.{IsHere, IsSafeOrPending, MovesUnreported, ShowsOn, StoresBehind, buffer_below, medium_core};
ghost use Rattle.tape_buffer.specs.State.{IsSettledIn, disk_in, disks_in, state_of};
ghost use Rattle.tape_buffer.specs.Budgets.{KeepsBudget, budget_after};

use crate::budgets::Budget;
use crate::holding::{Holding, disk_of, is_open, known_in};
use crate::lending::take_over;
use crate::pending::Pending;
use crate::storing::turn_over;
use cartridge::{Cartridge, Shelved};
use std::marker::Model;
use tape_disk::Disk;
use volume_core::{Change, Turn};

/// The disks of a medium, while they are away from it (`Buffered::detach`). Within a budget they accept changes without
/// allocating memory and without a call of the device. A flusher's turn stores all that is pending, as one frame. Until
/// they are back (`Buffered::attach`), they show nothing of the volume, and no block is read.
#[derive(Drop)]
pub struct Disks<D: Disk> {
    pub(crate) held: Holding<(Cartridge<D>, Pending), Shelved<D>>,
    pub(crate) left: Budget,
}

impl<D: Disk> Model for Disks<D> {
    ghost use Rattle.tape_buffer.specs.Inner.Lending.{MayBeLent};
    ghost use Rattle.tape_buffer.specs.Invariants.{buffer_of};
    ghost use Rattle.tape_buffer.specs.Taking.{DisksState};

    ghost Value = { DisksState D };

    ghost view = { λ l. record { buffer = buffer_of l.held; left = l.left } };

    ghost invariant = { λ l. MayBeLent l.held l.left };
}

impl<D: Disk> Disks<D> {
    /// The budget that is left: how much the medium may still accept.
    pub fn left(&self) -> Budget
        ensures { result ≡ self.now.left }
    {
        self.left
    }

    /// Accepts a change. The volume must not refuse it, and the budget must suffice for it. The call allocates no
    /// memory, and calls no disk. After a device fault the medium accepts the change too, but never stores it.
    pub fn take(&mut self, change: Change)
        requires applies { refusal_of (volume_of (state_of D.state self.old.buffer)) change ≡ None }
        requires within { KeepsBudget self.old.left (change ∷ []) }
        ensures taken { self.new ≡ record {
          buffer = record self.old.buffer { pending = self.old.buffer.pending ++ change ∷ [] };
          left = budget_after self.old.left (change ∷ []);
        } }
        ensures state { state_of D.state self.new.buffer ≡ record (state_of D.state self.old.buffer) {
          pending = (state_of D.state self.old.buffer).pending ++ change ∷ [];
        } }
        ensures stores { Stores (state_of D.state self.old.buffer) (change ∷ [])
            (state_of D.state self.new.buffer) }
        ensures advances { (state_of D.state self.old.buffer).failed ≡ false →
            Advances (buffer_below D.state) self.old.buffer (change ∷ []) false self.new.buffer }
        ensures moves { MovesUnreported D.state self.old.buffer (change ∷ []) self.new.buffer }
    {
        let left = self.left;
        match &mut self.held {
            Holding::Open((cartridge, pending)) => {
                self.left = take_over(cartridge, pending, left, change);
            }
            Holding::Closed(_) | Holding::Away(_) => unreachable!(),
        }
    }

    /// Stores all that is pending, as one frame, in a flusher's turn. The medium must be open. The result is `Idle`
    /// where nothing is pending or the medium has failed, `Stored` with the number of changes that were stored, or
    /// `Device` where the device failed. The call allocates no memory.
    pub fn flush_turn(&mut self) -> Turn
        requires { (state_of D.state self.old.buffer).awake ≡ true }
        ensures left { self.new.left ≡ self.old.left }
        ensures answer { Turns (state_of D.state self.old.buffer) result (state_of D.state self.new.buffer) }
        ensures frame { IsOneFrameIn result (frames_in self.old.buffer) self.old.buffer.pending
            (frames_in self.new.buffer) }
        ensures stores { Stores (state_of D.state self.old.buffer) [] (state_of D.state self.new.buffer) }
        ensures advances { Advances (buffer_below D.state) self.old.buffer [] (turn_met_fault result)
            self.new.buffer }
        ensures behind { StoresBehind D.state self.old.buffer self.new.buffer }
    {
        match &mut self.held {
            Holding::Open((cartridge, pending)) => turn_over(cartridge, pending),
            Holding::Closed(_) | Holding::Away(_) => unreachable!(),
        }
    }

    /// Whether the medium is open.
    pub fn is_awake(&self) -> bool
        ensures { result ≡ (state_of D.state self.now.buffer).awake }
    {
        is_open(&self.held)
    }

    /// Whether the device has failed since the medium was opened. If so, nothing more is stored. The medium must be
    /// open.
    pub fn has_failed(&self) -> bool
        requires { (state_of D.state self.now.buffer).awake ≡ true }
        ensures { result ≡ (state_of D.state self.now.buffer).failed }
    {
        match &self.held {
            Holding::Open((cartridge, _)) => cartridge.has_failed(),
            Holding::Closed(_) | Holding::Away(_) => unreachable!(),
        }
    }

    /// Does nothing; its contract is that of `Buffered::known`, for the medium that is lent.
    pub fn known(&self)
        ensures core { IsCore (medium_core D.state self.now.buffer) }
        ensures whole { IsSafeOrPending (medium_core D.state self.now.buffer) self.now.buffer.pending }
        ensures fits { FitsBuffer self.now.buffer.pending }
        ensures hand { IsHere self.now.buffer.held }
        ensures shows { ((state_of D.state self.now.buffer).unread ≡ false)
            ⊎ IsSettledIn D.state self.now.buffer.held →
            (volume : List Part) → (state_of D.state self.now.buffer).stored ≡ Some volume →
            ShowsOn D.state (disks_in self.now.buffer.held) (medium_core D.state self.now.buffer) }
    {
        known_in(&self.held);
    }

    /// For reading: the disk of the side that counts, or the first disk where the medium is parked.
    pub fn disk(&self) -> &D
        ensures { disk_in self.now.buffer.held ≡ Some result.now }
    {
        disk_of(&self.held)
    }
}
