//! A drive of a library.
ghost use Rattle.std.specs.Prelude.{[], Some, ◌≡◌, ◌↔◌, IsTrue, IfOk, IfErr, IfSome, Err, false, is_some, option_map, None};
ghost use Rattle.tape_disk.specs.Disk.{Each};
ghost use Rattle.drive_commands.specs.declared.bays.Bay.TheVariants as Bays;
ghost use Rattle.drive_commands.specs.State.{IsAtHand, IsBayPositioned, left_of, machine_of, medium_in};
ghost use Rattle.drive_commands.specs.Data.{AnswersLent};
ghost use Rattle.drive_commands.specs.Execute.{Answers, HonestIn, asked};
ghost use Rattle.drive_commands.specs.Media.{GoesOut, SwitchesOn, TakesIn, TakesTurn};
ghost use Rattle.drive_commands.specs.Relations.{made_nothing};
ghost use Rattle.drive_commands.specs.Synchronize.{Acknowledges, IsSynchronizing, NothingPending};
ghost use Rattle.tape_buffer.specs.Moves.{IsHere, buffer_below};
ghost use Rattle.tape_buffer.specs.State.{state_of};
ghost use Rattle.aptpl_store.specs.Kept.{store_below, store_kept};
ghost use Rattle.bay_moves.specs.Bays.{AnswersInEvent, AnswersLentInEvent, EveryMoment, EveryMomentOff, EveryMomentOn, IsSafeIn, KeepsBoth, KeepsCartridgeIn, ShowsCartridgeIn, ShowsOrders, loaded_or_back, out_or_in};
ghost use Rattle.bay_moves.specs.Inner.Going.{IsAwakeIn};
ghost use Rattle.drive_commands.specs.Events.{FlushTurn, Insert, Load, Unload};
ghost use Rattle.bay_moves.specs.Reservations.{GivesHeld};

use crate::answering::{answer, take_turn};
use crate::laws::reservations::reservations_outlive_each_stop;
use crate::parked::Parked;
use accepted_changes::Accepting;
use aptpl_store::AptplStore;
use drive_commands::Drive;
use pr_core::Reservations;
use scsi_sense::Reply;
use std::alloc::Global;
use std::marker::Model;
use tape_buffer::Buffered;
use tape_disk::Disk;
use volume_core::{Medium, Turn};
use vtl_base::{Bytes, Nexus, NoMemory};

/// Returned by `Bay::power_on` where memory ran out, so that the drive was not switched on: the cartridge and the store
/// that were given to that call.
#[derive(Drop)]
pub struct NotOn<D: Disk> {
    /// The cartridge, still closed; None where none was given.
    pub cartridge: Option<Parked<D>>,
    /// The store of the drive's reservations.
    pub store: AptplStore<D>,
}

/// A drive in buffered mode over a cartridge on two disks, with a store of its reservations on a third disk. The type's
/// invariant says what a stop may leave of the cartridge and of the store.
#[derive(Drop)]
pub struct Bay<D: Disk> {
    pub(crate) drive: Drive<Buffered<D>, AptplStore<D>>,
}

impl<D: Disk> Model for Bay<D> {
    ghost use Rattle.bay_moves.specs.Elements.{BayState};
    ghost use Rattle.bay_moves.specs.Bays.{KeepsBoth};

    ghost Value = { BayState D };

    ghost view = { λ b. b.drive };

    ghost invariant = { λ b. KeepsBoth D.state b.drive };
}

// A drive accepts the orders of its reservations.
impl<D: Disk> Accepting for Bay<D> {
    ghost use Rattle.accepted_changes.specs.Device.{one_disk, one_is_device};
    ghost use Rattle.bay_moves.specs.Accepted.{order_rules};

    ghost rules = { order_rules };

    ghost device = { one_disk D.state };

    ghost is_device = { one_is_device D.state };
}

/// Establishes, for proofs, what a crash may leave of the cartridge in a drive, if there is one. The call does nothing
/// else.
pub fn known<D: Disk>(drive: &Drive<Buffered<D>, AptplStore<D>>)
    ensures { ShowsCartridgeIn D.state (medium_in drive.now.bay) }
{
    if let Some(medium) = drive.medium() {
        medium.known();
    }
}

// The medium of a closed cartridge, if there is one.
fn medium_of<D: Disk>(cartridge: Option<Parked<D>>) -> Option<Buffered<D>>
    ensures same { result ≡ cartridge }
    ensures parked { IfSome result (λ medium. (state_of D.state medium).awake ≡ false) }
    ensures keeps { KeepsCartridgeIn D.state result }
{
    match cartridge {
        Some(cartridge) => Some(cartridge.into_medium()),
        None => None,
    }
}

impl<D: Disk> Bay<D> {
    /// Switches a drive on, with the closed cartridge `cartridge` in it, if one is given. The cartridge is then loaded.
    /// Where its side (the bytes of its file) is refused or the device fails, it stays in the drive, unloaded.
    /// `reservations` must be what a loss of power leaves of the state that `store` saved last. Where memory runs out,
    /// `Err` returns the cartridge and the store.
    pub fn power_on(
        alloc: Global,
        store: AptplStore<D>,
        reservations: Reservations,
        cartridge: Option<Parked<D>>,
    ) -> Result<Bay<D>, NotOn<D>>
        requires { reservations ≡ left_of (store_kept store).saved }
        ensures on { IfOk result (λ bay.
            SwitchesOn (state_of D.state) (buffer_below D.state) cartridge reservations store (Ok bay)) }
        ensures off { IfErr result (λ not. (reason : NoMemory)
            × SwitchesOn (state_of D.state) (buffer_below D.state) cartridge reservations store
            (Err (not.cartridge, not.store, reason))) }

        // What a crash leaves at every moment inside the call.
        ensures moments { IfOk result (λ bay. EveryMomentOn D.state cartridge store bay) }
        ensures moments_off { IfErr result (λ not.
            EveryMomentOff D.state cartridge store not.cartridge not.store) }
    {
        // The law, and the facts of store and reservations, for the proof alone.
        reservations_outlive_each_stop::<Buffered<D>, D>();
        store.known();
        let _ = reservations.state();
        match Drive::power_on(alloc, store, reservations, medium_of(cartridge)) {
            Ok(drive) => {
                known(&drive);
                Ok(Bay { drive })
            }
            Err((medium, store, NoMemory)) => {
                let cartridge = match medium {
                    Some(medium) => Some(Parked::of_medium(medium)),
                    None => None,
                };
                Err(NotOn { cartridge, store })
            }
        }
    }

    /// Answers a command of the host `nexus`, as `Drive::execute` does. `cdb` is the command's descriptor block, and
    /// `sent` the data that the host sends with it.
    pub fn execute(&mut self, nexus: Nexus, cdb: &[u8], sent: &[u8]) -> Reply
        ensures step { Answers (state_of D.state) (buffer_below D.state) store_kept (store_below D.state)
            self.old (asked nexus cdb.now sent.now) result self.new }

        // All is stored before a synchronizing command is acknowledged.
        ensures settled { IsSynchronizing (machine_of (state_of D.state) store_kept self.old) cdb.now
            → Acknowledges result → NothingPending (HonestIn (buffer_below D.state) (medium_in self.old.bay))
            (machine_of (state_of D.state) store_kept self.new) }

        // At every moment inside the call a crash leaves what the call's event says.
        ensures moments { AnswersInEvent D.state self.old (asked nexus cdb.now sent.now) result self.new }

        // A synchronizing command that is acknowledged leaves all that was accepted safe.
        ensures safe { IsSynchronizing (machine_of (state_of D.state) store_kept self.old) cdb.now
            → Acknowledges result → HonestIn (buffer_below D.state) (medium_in self.old.bay)
            → IsSafeIn D.state (medium_in self.new.bay) }
    {
        // The law, and the facts of what is in the drive, for the proof alone.
        reservations_outlive_each_stop::<Buffered<D>, D>();
        let reply = self.drive.execute(nexus, cdb, sent);
        known(&self.drive);
        let _ = self.drive.medium();
        reply
    }

    /// Answers a command of the host `nexus`, as `Drive::execute_lent` does. `sent` lends the command's data: where a
    /// block is written, they are taken out of `sent` without copying; otherwise they stay there.
    pub fn execute_lent(&mut self, nexus: Nexus, cdb: &[u8], sent: &mut Bytes) -> Reply
        ensures step { AnswersLent (state_of D.state) (buffer_below D.state) store_kept (store_below D.state)
            self.old (asked nexus cdb.now sent.old) result self.new sent.new }

        // All is stored before a synchronizing command is acknowledged.
        ensures settled { IsSynchronizing (machine_of (state_of D.state) store_kept self.old) cdb.now
            → Acknowledges result → NothingPending (HonestIn (buffer_below D.state) (medium_in self.old.bay))
            (machine_of (state_of D.state) store_kept self.new) }

        // At every moment inside the call a crash leaves what the call's event says.
        ensures moments { AnswersLentInEvent D.state self.old (asked nexus cdb.now sent.old) result self.new sent.new }

        // A synchronizing command that is acknowledged leaves all that was accepted safe.
        ensures safe { IsSynchronizing (machine_of (state_of D.state) store_kept self.old) cdb.now
            → Acknowledges result → HonestIn (buffer_below D.state) (medium_in self.old.bay)
            → IsSafeIn D.state (medium_in self.new.bay) }
    {
        answer(&mut self.drive, nexus, cdb, sent)
    }

    /// Takes a flusher's turn: stores the pending changes of the loaded medium, and returns what the turn did. The call
    /// allocates no memory.
    pub fn turn(&mut self) -> Turn
        ensures turned { TakesTurn (state_of D.state) (buffer_below D.state) store_kept self.old result self.new }
        ensures moments { EveryMoment D.state self.old FlushTurn made_nothing (medium_in self.old.bay)
            (medium_in self.new.bay) self.new }
    {
        take_turn(&mut self.drive)
    }

    /// Opens a cartridge and loads it into this drive, which must be empty. The condition 28/00 (the medium may have
    /// changed) is established for each nexus. A cartridge that can't be opened is returned, closed, with a reply:
    /// sense key 3, 11/00 where its side is refused or the device fails; sense key Bh, 55/03 where memory runs out.
    pub fn load(&mut self, cartridge: Parked<D>) -> Result<(), (Parked<D>, Reply)>
        requires empty { self.old.bay ≡ Bays.Empty }
        ensures taken { TakesIn (state_of D.state) (buffer_below D.state) self.old cartridge result self.new }
        ensures moments { EveryMoment D.state self.old (Load (state_of D.state cartridge)) made_nothing
            (Some cartridge) (loaded_or_back D.state result self.new) self.new }
    {
        reservations_outlive_each_stop::<Buffered<D>, D>();
        let medium = cartridge.into_medium();
        let loaded = self.drive.load(medium);
        known(&self.drive);
        match loaded {
            Ok(()) => Ok(()),
            Err((medium, reply)) => Err((Parked::of_medium(medium), reply)),
        }
    }

    /// Puts a cartridge into this drive, which must be empty, without loading it. No condition is established. The call
    /// allocates no memory.
    pub fn insert(&mut self, cartridge: Parked<D>)
        requires empty { self.old.bay ≡ Bays.Empty }
        ensures inserted { self.new ≡ record self.old { bay = Bays.Unloaded cartridge } }
        ensures moments { EveryMoment D.state self.old (Insert (state_of D.state cartridge)) made_nothing
            (Some cartridge) (medium_in self.new.bay) self.new }
    {
        reservations_outlive_each_stop::<Buffered<D>, D>();
        let medium = cartridge.into_medium();
        self.drive.insert(medium);
        known(&self.drive);
    }

    /// Unloads the cartridge, as UNLOAD does, and returns it, closed. Returns a reply instead where the drive is empty
    /// (sense key 2, 3A/00) or the device fails (sense key 3, 0C/00). In the second case the cartridge stays loaded,
    /// and has failed.
    pub fn unload(&mut self) -> Result<Parked<D>, Reply>
        ensures out { GoesOut (state_of D.state) (buffer_below D.state) self.old result self.new }
        ensures awake { IsAwakeIn D.state self.old.bay }
        ensures moments { EveryMoment D.state self.old Unload made_nothing (medium_in self.old.bay)
            (out_or_in D.state result self.new) self.new }
    {
        reservations_outlive_each_stop::<Buffered<D>, D>();
        // Read for the proof: a loaded medium is awake.
        let _ = self.drive.medium();
        let out = self.drive.unload();
        known(&self.drive);
        match out {
            Ok(medium) => Ok(Parked::of_medium(medium)),
            Err(reply) => Err(reply),
        }
    }

    /// Whether the drive is empty.
    pub fn is_empty(&self) -> bool
        ensures { IsTrue result ↔ (self.now.bay ≡ Bays.Empty) }
    {
        self.drive.is_empty()
    }

    /// Whether a reservation is held at the drive.
    pub fn held(&self) -> bool
        ensures { result ≡ is_some self.now.reservations.reservation }
    {
        self.drive.held()
    }

    /// How many changes the drive has accepted since it was switched on, as `Drive::accepted` returns.
    pub fn accepted(&self) -> u64
        ensures { result ≡ self.now.accepted }
    {
        self.drive.accepted()
    }

    /// Establishes, for proofs, the type's invariant: over honest disks, what a crash may leave now of the cartridge
    /// and of the reservations. The call does nothing else.
    pub fn known(&self)
        ensures keeps { KeepsBoth D.state self.now }

        // How an image of the store's disk opens, and what it gives of the orders that led to the reservations.
        ensures opens { (D.state self.now.keeper.disk).honest → Each (D.state self.now.keeper.disk)
            (GivesHeld (state_of D.state) (buffer_below D.state) D.state self.now) }
        ensures orders { ShowsOrders D.state self.now }

        // A loaded medium is awake, and the position is on it. A medium that is not loaded is parked.
        ensures positioned { IsBayPositioned (state_of D.state) self.now.bay self.now.position }
    {
        reservations_outlive_each_stop::<Buffered<D>, D>();
        let _ = self.drive.medium();
    }

    /// The drive, for reading. The disks of what is in it are at hand.
    pub fn drive(&self) -> &Drive<Buffered<D>, AptplStore<D>>
        ensures same { result.now ≡ self.now }
        ensures hand { IsAtHand (λ m. IsHere m.held) self.now.bay }
    {
        &self.drive
    }
}
