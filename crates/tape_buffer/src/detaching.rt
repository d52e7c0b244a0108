//! The disks of a medium go away, and come back.
ghost use Rattle.std.specs.Prelude.{◌≡◌, ◌≤◌, [], false};
ghost use Rattle.vtl_base.specs.Below.{Advances};
ghost use Rattle.vtl_base.specs.declared.limits.TheConstants.{BUFFER_RECORDS};
ghost use Rattle.cartridge.specs.Shown.{HasEntriesIn, IsGrownIn, LacksEntriesIn};
ghost use Rattle.tape_buffer.specs.Aways.{IsCut, IsFoundAs, KnowsAway, loose_in};
ghost use Rattle.tape_buffer.specs.Catalogs.{IsCataloged};
ghost use Rattle.tape_buffer.specs.Detaching.{DetachesFrom, IsAwayAs, away_buffer, has_loose_held, lacks_room_held, left_in, loose_of, passed};
ghost use Rattle.tape_buffer.specs.Inner.Lending.{MayBeLent};
ghost use Rattle.tape_buffer.specs.Invariants.{IsHeld, buffer_of};
ghost use Rattle.tape_buffer.specs.Limits.{FitsBuffer};
ghost use Rattle.tape_buffer.specs.Moves.{IsAway, IsHere, buffer_below};
ghost use Rattle.tape_buffer.specs.State.{state_of};
ghost use Rattle.tape_buffer.specs.Taking.{LendsFrom};
ghost use Rattle.tape_buffer.specs.declared.budgets.Budget.{Budget};

use crate::aways::{Away, away_of};
use crate::budgets::Budget;
use crate::buffered::Buffered;
use crate::disks::Disks;
use crate::holding::{Holding, hold};
use crate::lending::allow;
use crate::pending::Pending;
use cartridge::shown::reserve_shown;
use cartridge::{Cartridge, Shelved};
use object_index::Index;
use std::mem;
use tape_disk::Disk;
use volume_core::Change;
use vtl_base::limits::BUFFER_RECORDS;

impl<D: Disk> Buffered<D> {
    /// Brings the disks back. They must hold the medium as hosts see it, as far as it was stored. The call allocates no
    /// memory, and calls no device.
    pub fn attach(&mut self, disks: Disks<D>)
        requires away { IsAway self.old.held }
        requires found { IsFoundAs (state_of D.state self.old) (state_of D.state disks.buffer) }
        ensures { self.new ≡ disks.buffer }
    {
        let Disks { held, .. } = disks;
        hold(&mut self.held, held);
    }

    /// Sends the disks away. The call allocates memory for as many changes as may be pending; where memory runs out,
    /// the medium accepts none until the disks are back.
    pub fn detach(&mut self) -> Disks<D>
        requires { IsHere self.old.held }
        ensures { DetachesFrom D.state self.old result self.new }
    {
        let (away, left) = away_from(&mut self.catalog, &mut self.held);
        let held = mem::replace(&mut self.held, Holding::Away(away));
        Disks { held, left }
    }

    /// How much may be accepted before the disks are back.
    pub fn left(&self) -> Budget
        requires { IsAway self.now.held }
        ensures left { result ≡ left_in self.now.held }
        ensures few { result.records ≤ BUFFER_RECORDS }
    {
        match &self.held {
            Holding::Away(away) => away.left,
            Holding::Open(_) | Holding::Closed(_) => unreachable!(),
        }
    }

    /// Whether the medium works, and yet accepts no change until its disks are back.
    pub fn lacks_room(&self) -> bool
        ensures { result ≡ lacks_room_held self.now.held }
    {
        match &self.held {
            Holding::Away(away) => self.is_awake() && !away.failed && away.left.records == 0,
            Holding::Open(_) | Holding::Closed(_) => false,
        }
    }

    /// Whether there is a change that was accepted while the disks are away, and not passed on yet.
    pub fn has_loose(&self) -> bool
        ensures { result ≡ has_loose_held self.now.held }
    {
        match &self.held {
            Holding::Away(away) => away.loose.is_some(),
            Holding::Open(_) | Holding::Closed(_) => false,
        }
    }

    /// Passes on the change that was accepted while the disks are away, if there is one.
    pub fn take_loose(&mut self) -> Option<Change>
        requires { IsAway self.old.held }
        ensures loose { loose_in result ≡ loose_of self.old }
        ensures left { self.new ≡ passed self.old }
    {
        match &mut self.held {
            Holding::Away(away) => away.loose.take(),
            Holding::Open(_) | Holding::Closed(_) => unreachable!(),
        }
    }
}

// What a medium knows of itself once its disks go away, and how much the disks take. It reserves memory for that.
fn away_from<D: Disk>(
    catalog: &mut Option<Index>,
    held: &mut Holding<(Cartridge<D>, Pending), Shelved<D>>,
) -> (Away, Budget)
    requires held { IsHeld held.old }
    requires hand { IsHere held.old }
    requires shows { IsCataloged D.state (buffer_of held.old) catalog.old }
    ensures lends { LendsFrom (buffer_of held.old) (record { buffer = buffer_of held.new; left = result.1 }) }
    ensures may { MayBeLent held.new result.1 }
    ensures state { state_of D.state (buffer_of held.new) ≡ state_of D.state (buffer_of held.old) }
    ensures advances { Advances (buffer_below D.state) (buffer_of held.old) [] false (buffer_of held.new) }
    ensures away { IsAwayAs (state_of D.state (buffer_of held.old)) result.1 result.0 }
    ensures fits { FitsBuffer result.0.noted.pending }
    ensures shows { IsCataloged D.state (away_buffer result.0) catalog.new }
    ensures knows { KnowsAway catalog.new result.0 }
{
    let left = allow(held);
    let cut = cut_to(catalog, left);
    (away_of(held, cut), left)
}

// How much may be accepted: all that the disks take, or no change where memory for the catalog runs out.
fn cut_to(catalog: &mut Option<Index>, left: Budget) -> Budget
    requires { left.records ≤ BUFFER_RECORDS }
    ensures grown { IsGrownIn catalog.old catalog.new }
    ensures entries { HasEntriesIn catalog.new result.records }
    ensures cut { IsCut left result }
    ensures cause { (result ≡ left → ⊥) → LacksEntriesIn catalog.old BUFFER_RECORDS }
{
    match reserve_shown(catalog, BUFFER_RECORDS) {
        Ok(()) => left,
        Err(_) => Budget {
            records: 0,
            bytes: left.bytes,
            room: left.room,
        },
    }
}
