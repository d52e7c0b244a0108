//! The hosts' half of a bay: a drive whose disks are away, and the end of the ring to whoever has them.
ghost use Rattle.std.specs.Prelude.{◌≡◌, ◌↔◌, IfSome, IsTrue, None, Some, is_some};
ghost use Rattle.aptpl_store.specs.Kept.{store_kept};
ghost use Rattle.drive_commands.specs.declared.bays.Bay.TheVariants as Bays;
ghost use Rattle.drive_commands.specs.Execute.{asked};
ghost use Rattle.drive_commands.specs.State.{bay_of, has_failed_in, machine_of, medium_in};
ghost use Rattle.drive_commands.specs.Synchronize.{Acknowledges, IsSynchronizing};
ghost use Rattle.tape_buffer.specs.Aways.{loose_in};
ghost use Rattle.tape_buffer.specs.Detaching.{passed};
ghost use Rattle.tape_buffer.specs.State.{state_of};
ghost use Rattle.bay_moves.specs.Bays.{ShowsOrders};
ghost use Rattle.split_bay.specs.Fronts.{AnswersOrWaits, AreAway, GivesOrders, IsFrontOf, KeepsHostsHalf, LeavesOrders, OwesIn, has_loose_in, lacks_room_in, loose_in_bay, passed_on, pending_of, sending_with};
ghost use Rattle.split_bay.specs.Rings.{AreEnds};
ghost use Rattle.split_bay.specs.Spans.{span_of};

use crate::backs::Back;
use crate::ends::{Rings, Sending};
use crate::joined::are_ends;
use aptpl_store::AptplStore;
use bay_moves::laws::reservations::{reservations_outlive_each_stop, stores_show_orders};
use drive_commands::{Bay, Drive};
use scsi_sense::Reply;
use std::marker::Model;
use tape_buffer::Buffered;
use tape_disk::Disk;
use volume_core::{Change, Medium};
use vtl_base::{Bytes, Nexus};

/// The hosts' half of a bay: the drive, whose disks are away, with its store of reservations; and the sending end of
/// the ring.
#[derive(Drop)]
pub struct Front<D: Disk, R: Rings> {
    pub(crate) drive: Drive<Buffered<D>, AptplStore<D>>,
    pub(crate) sending: Sending<R>,
}

impl<D: Disk, R: Rings> Model for Front<D, R> {
    ghost use Rattle.split_bay.specs.Fronts.{FrontState, IsFrontOf, KeepsOrders};
    ghost use Rattle.split_bay.specs.Spans.{span_of};

    ghost Value = { FrontState D };

    ghost view = { λ f. record { drive = f.drive; sending = f.sending } };

    ghost invariant = { λ f. IsFrontOf f.drive.bay (span_of f.sending.sent) × KeepsOrders D.state f.drive };
}

impl<D: Disk, R: Rings> Front<D, R> {
    /// Answers a command of the host `nexus`, if the command needs no disk, and sends the change that it made, if it
    /// made one. `cdb` is the command block, and `sent` holds the data that are lent with it. Where both halves are
    /// needed, the result is None and nothing has changed: the data are still in `sent`.
    pub fn execute(&mut self, nexus: Nexus, cdb: &[u8], sent: &mut Bytes) -> Option<Reply>
        ensures step { AnswersOrWaits D.state self.old (asked nexus cdb.now sent.old) result self.new sent.new }

        // A synchronizing command is never acknowledged by this half alone.
        ensures waits { IsSynchronizing (machine_of (state_of D.state) store_kept self.old.drive) cdb.now
            → IfSome result (λ reply. Acknowledges reply → ⊥) }

        // What a crash leaves of the reservations at every moment inside the call.
        ensures moments { LeavesOrders D.state self.old.drive (asked nexus cdb.now sent.old) result self.new.drive }
    {
        // The law, for the proof alone.
        reservations_outlive_each_stop::<Buffered<D>, D>();
        match self.drive.execute_alone(nexus, cdb, sent) {
            Some(reply) => {
                pass_on(&mut self.drive, &mut self.sending);
                Some(reply)
            }
            None => None,
        }
    }

    /// Whether this half and `back` have the same drive number, and equally many spans began in both, modulo 2^64.
    pub fn fits(&self, back: &Back<D, R>) -> bool
        ensures { IsTrue result ↔ AreEnds self.now.sending back.now.number back.now.received }
    {
        are_ends(&self.sending, &back.receiving)
    }

    /// Whether the drive is empty: no cartridge is in it, loaded or not.
    pub fn is_empty(&self) -> bool
        ensures { IsTrue result ↔ (self.now.drive.bay ≡ Bays.Empty) }
    {
        self.drive.is_empty()
    }

    /// Whether a reservation is held at the drive.
    pub fn held(&self) -> bool
        ensures { result ≡ is_some self.now.drive.reservations.reservation }
    {
        self.drive.held()
    }

    /// How many changes were accepted since the drive was switched on; see `Drive::accepted`.
    pub fn accepted(&self) -> u64
        ensures { result ≡ self.now.drive.accepted }
    {
        self.drive.accepted()
    }

    /// Whether hosts see the loaded medium as failed; false where none is loaded.
    pub fn has_failed(&self) -> bool
        ensures { result ≡ has_failed_in (state_of D.state) self.now.drive.bay }
    {
        self.drive.has_failed()
    }

    /// How many changes are pending, as hosts see it: those that were pending when both halves were last held, and all
    /// that were accepted since. A turn may have stored some of them. Without a cartridge the result is 0.
    pub fn pending(&self) -> usize
        ensures { result ≡ pending_of D.state (medium_in self.now.drive.bay) }
    {
        match self.drive.medium() {
            Some(medium) => {
                if medium.is_awake() {
                    medium.pending()
                } else {
                    0
                }
            }
            None => 0,
        }
    }

    // Whether what is in the drive works, and yet accepts no change until its disks are back.
    pub(crate) fn lacks_room(&self) -> bool
        ensures { result ≡ lacks_room_in (medium_in self.now.drive.bay) }
    {
        match self.drive.medium() {
            Some(medium) => medium.lacks_room(),
            None => false,
        }
    }

    /// The store of the drive's reservations, for reading.
    pub fn keeper(&self) -> &AptplStore<D>
        ensures { result.now ≡ self.now.drive.keeper }
    {
        self.drive.keeper()
    }

    /// Establishes, for proofs, the type's invariant. Over an honest disk, each image of the store that a crash may
    /// leave now opens as the reservations that a loss of power leaves, either of those held now or of those whose save
    /// failed; and it gives the orders that led to them. No more changes were sent than the span allows. The position
    /// is on the volume that hosts see.
    pub fn known(&self)
        ensures keeps { KeepsHostsHalf D.state self.now }
        ensures opens { GivesOrders D.state self.now.drive }
        ensures orders { ShowsOrders D.state self.now.drive }
    {
        reservations_outlive_each_stop::<Buffered<D>, D>();
        stores_show_orders::<D>();
        self.sending.known();
        // Read for the proof: the facts are the type's invariant.
        let _ = self.drive.medium();
    }
}

// Sends what the medium in a drive accepted.
fn pass_on<D: Disk, R: Rings>(
    drive: &mut Drive<Buffered<D>, AptplStore<D>>,
    sending: &mut Sending<R>,
)
    requires { OwesIn drive.old.bay (span_of sending.old.sent) }
    ensures stands { IsFrontOf drive.new.bay (span_of sending.new.sent) }
    ensures drive { drive.new ≡ passed_on drive.old }
    ensures sending { sending.new ≡ sending_with sending.old (loose_in_bay drive.old.bay) }
{
    // Most commands make no change, and to lift the medium takes longer than to look.
    if !has_loose(drive) {
        return;
    }
    let mut bay = drive.lift();
    let loose = take_loose(&mut bay);
    drive.lower(bay);
    match loose {
        Some(change) => sending.send(change),
        None => {}
    }
}

// Whether the medium in a drive accepted a change that it did not pass on.
fn has_loose<D: Disk>(drive: &Drive<Buffered<D>, AptplStore<D>>) -> bool
    ensures { result ≡ has_loose_in (medium_in drive.now.bay) }
{
    match drive.medium() {
        Some(medium) => medium.has_loose(),
        None => false,
    }
}

// Takes out what the medium in a drive accepted.
fn take_loose<D: Disk>(bay: &mut Bay<Buffered<D>>) -> Option<Change>
    requires { AreAway bay.old }
    ensures loose { loose_in result ≡ loose_in_bay bay.old }
    ensures left { bay.new ≡ bay_of passed bay.old }
{
    match bay {
        Bay::Empty => None,
        Bay::Unloaded(medium) => medium.take_loose(),
        Bay::Loaded(medium) => medium.take_loose(),
    }
}
