//! A tape drive, with or without a medium in it.
ghost use Rattle.std.specs.Prelude.{◌≡◌, IfOk, IfSome, false, true};
ghost use Rattle.drive_commands.specs.declared.bays.Bay.TheVariants as Bays;
ghost use Rattle.drive_commands.specs.State.{IsAtHand, machine_of, medium_in, left_of};
ghost use Rattle.drive_commands.specs.Conditions.{denial_reply, denied, without_condition};
ghost use Rattle.drive_commands.specs.Checks.{Executes};
ghost use Rattle.drive_commands.specs.Synchronize.{IsSynchronizing, Acknowledges, NothingPending};
ghost use Rattle.drive_commands.specs.Execute.{Answers, Takes, HonestIn, asked};
ghost use Rattle.drive_commands.specs.Alone.{request_needs_disk};
ghost use Rattle.drive_commands.specs.Media.{TakesTurn, TakesIn, InsertSteps, LoadSteps, GoesOut, UnloadSteps, SwitchesOn, PowerOnSteps};

mod alone;
mod lending;
mod lifting;
mod loading;
mod looking;
mod modes;
mod performing;
mod reserving;
mod verdicts;

use crate::bays::{Bay, fill};
use crate::conditions::{Condition, Denial};
use crate::faults::Fault;
use crate::opening::{START, check, open, start_of, wake_reply};
use loading::park;
use positioning::Pos;
use pr_core::{Keeper, Reservations};
use scsi_attention::{Attention, Attentions, AttnSet};
use scsi_sense::{Reply, Sense};
use std::alloc::Global;
use std::marker::Model;
use std::mem;
use volume_core::{Medium, Turn};
use vtl_base::{Nexus, NoMemory};

/// A tape drive, over any type of medium and any keeper, which saves the drive's reservations (SSC-4, SPC-4). A
/// contract sees a `DriveState`, which holds the medium and the keeper themselves. `machine_of` turns that into the
/// machine of the standards, which holds only the states of the two.
#[derive(Drop)]
pub struct Drive<M: Medium, K: Keeper> {
    alloc: Global,
    bay: Bay<M>,
    position: Pos,
    buffered: bool,
    deferred: bool,
    attentions: Attentions,
    reservations: Reservations,
    keeper: K,
    accepted: u64,
}

impl<M: Medium, K: Keeper> Model for Drive<M, K> {
    ghost use Rattle.drive_commands.specs.State.{DriveState, IsBayPositioned};

    ghost Value = { DriveState M K };

    ghost view = { λ d. record {
      bay = d.bay;
      position = d.position;
      buffered = d.buffered;
      deferred = d.deferred;
      attentions = d.attentions;
      reservations = d.reservations;
      keeper = d.keeper;
      accepted = d.accepted;
    } };

    ghost invariant = { λ d. IsBayPositioned M.state d.bay d.position };
}

impl<M: Medium, K: Keeper> Drive<M, K> {
    /// Switches on a drive with `medium` in it, awake or parked, or an empty drive where `medium` is None. The medium
    /// is opened and loaded; it stays unloaded where its side holds no readable volume or the device fails.
    /// `reservations` must be those that a loss of power leaves of what the keeper saved last. Where memory runs out,
    /// medium and keeper are returned; a medium that is awake needs no memory.
    pub fn power_on(
        alloc: Global,
        keeper: K,
        reservations: Reservations,
        medium: Option<M>,
    ) -> Result<Self, (Option<M>, K, NoMemory)>
        requires left { reservations ≡ left_of (K.kept keeper).saved }
        requires hand { IfSome medium (λ m. M.below.at_hand m) }
        ensures switched { SwitchesOn M.state M.below medium reservations keeper result }
        ensures step { IfOk result (λ drive.
            PowerOnSteps M.state M.below K.kept medium keeper drive) }
    {
        switch_on(alloc, keeper, reservations, medium)
    }

    /// Opens `medium`, awake or parked, and loads it into an empty drive. The position is then the start of the medium,
    /// and the unit attention condition that the medium may have changed is established for every nexus. A medium that
    /// can't be opened is returned with a CHECK CONDITION reply. The reply has sense key 4 and codes 44/00 where the
    /// medium has failed; 3 and 11/00 where its side holds no readable volume or the device fails; Bh and 55/03 where
    /// memory runs out.
    pub fn load(&mut self, medium: M) -> Result<(), (M, Reply)>
        requires hand { M.below.at_hand medium }
        requires empty { self.old.bay ≡ Bays.Empty }
        ensures taken { TakesIn M.state M.below self.old medium result self.new }
        ensures step { LoadSteps M.state M.below K.kept self.old medium result self.new }
    {
        self.take_in(medium)
    }

    /// Puts a parked medium into an empty drive, and does not load it. No unit attention condition is established. The
    /// call allocates no memory.
    pub fn insert(&mut self, medium: M)
        requires empty { self.old.bay ≡ Bays.Empty }
        requires parked { (M.state medium).awake ≡ false }
        ensures inserted { self.new ≡ record self.old { bay = Bays.Unloaded medium } }
        ensures step { InsertSteps M.state M.below K.kept self.old medium self.new }
    {
        fill(&mut self.bay, Bay::Unloaded(medium));
    }

    /// Unloads the medium in the drive, as UNLOAD does, and returns it, parked. If the drive is empty, a reply with
    /// sense key 2 and codes 3A/00 is returned instead. If the device fails, the reply has 3 and 0C/00, and the medium
    /// stays loaded, and has failed.
    pub fn unload(&mut self) -> Result<M, Reply>
        requires hand { IsAtHand M.below.at_hand self.old.bay }
        ensures out { GoesOut M.state M.below self.old result self.new }
        ensures parked { IfOk result (λ medium.
            ((M.state medium).awake ≡ false) × (self.new.bay ≡ Bays.Empty)) }
        ensures step { UnloadSteps M.state M.below K.kept self.old result self.new }
    {
        self.give_out()
    }

    /// Takes a flusher's turn: stores what is pending. If the device fails, a deferred error is established. The next
    /// command that is not exempt reports it, or REQUEST SENSE returns it as data. The call allocates no memory.
    pub fn turn(&mut self) -> Turn
        requires hand { IsAtHand M.below.at_hand self.old.bay }
        ensures { TakesTurn M.state M.below K.kept self.old result self.new }
    {
        let Bay::Loaded(medium) = &mut self.bay else {
            return Turn::Idle;
        };
        match medium.flush_turn() {
            Turn::Idle => Turn::Idle,
            Turn::Stored(count) => Turn::Stored(count),
            Turn::Device => {
                self.deferred = true;
                Turn::Device
            }
        }
    }

    /// Answers a command of the host `nexus`: `cdb` is the command block, `sent` the data that were sent with it. Each
    /// refusal and each fault is a reply. Where the work of the command needs the disk of the medium in the drive, that
    /// disk has to be at hand.
    pub fn execute(&mut self, nexus: Nexus, cdb: &[u8], sent: &[u8]) -> Reply
        requires hand { request_needs_disk M.state K.kept M.alone self.old (asked nexus cdb.now sent.now) ≡ true
            → IsAtHand M.below.at_hand self.old.bay }
        ensures step { Answers M.state M.below K.kept K.below
            self.old (asked nexus cdb.now sent.now) result self.new }

        // All is stored before a synchronizing command is acknowledged.
        ensures settled { IsSynchronizing (machine_of M.state K.kept self.old) cdb.now
            → Acknowledges result → NothingPending (HonestIn M.below (medium_in self.old.bay))
            (machine_of M.state K.kept self.new) }
    {
        let alloc = self.alloc;
        match self.check(nexus, cdb, sent) {
            Ok(reply) => reply,
            Err(fault) => fault.reply(alloc),
        }
    }

    // Opens a medium, and loads it into an empty drive. A medium that can't be opened is returned with the reply.
    fn take_in(&mut self, medium: M) -> Result<(), (M, Reply)>
        requires hand { M.below.at_hand medium }
        requires empty { self.old.bay ≡ Bays.Empty }
        ensures { TakesIn M.state M.below self.old medium result self.new }
    {
        let mut medium = medium;
        if let Err(error) = medium.wake() {
            return Err((medium, wake_reply(self.alloc, error)));
        }
        self.position = start_of(&medium);
        fill(&mut self.bay, Bay::Loaded(medium));
        self.attentions.establish_for_all(Attention::MediumChanged);
        Ok(())
    }

    // Parks a loaded medium, and returns the medium that was in the drive.
    fn give_out(&mut self) -> Result<M, Reply>
        requires hand { IsAtHand M.below.at_hand self.old.bay }
        ensures out { GoesOut M.state M.below self.old result self.new }
        ensures parked { IfOk result (λ medium.
            ((M.state medium).awake ≡ false) × (self.new.bay ≡ Bays.Empty)) }
    {
        match mem::replace(&mut self.bay, Bay::Empty) {
            Bay::Empty => Err(check(self.alloc, Sense::medium_not_present())),
            Bay::Unloaded(medium) => Ok(medium),
            Bay::Loaded(medium) => match park(medium) {
                Ok(parked) => Ok(parked),
                Err(broken) => {
                    fill(&mut self.bay, Bay::Loaded(broken));
                    Err(Fault::Writing.reply(self.alloc))
                }
            },
        }
    }

    // Checks a command, and carries it out where it passes all checks.
    fn check(&mut self, nexus: Nexus, cdb: &[u8], sent: &[u8]) -> Result<Reply, Fault>
        requires hand { request_needs_disk M.state K.kept M.alone self.old (asked nexus cdb.now sent.now) ≡ true
            → IsAtHand M.below.at_hand self.old.bay }
        ensures { Takes M.state M.below K.kept K.below
            (Executes (HonestIn M.below (medium_in self.old.bay))
            (asked nexus cdb.now sent.now) (machine_of M.state K.kept self.old))
            self.old result self.new }
    {
        match self.verdict(nexus, cdb, sent) {
            Ok(command) => self.perform(nexus, command, sent),
            Err(denial) => Ok(self.deny(nexus, denial)),
        }
    }

    // Answers a command that is not carried out. A condition that the reply reports is cleared.
    fn deny(&mut self, nexus: Nexus, denial: Denial) -> Reply
        ensures reply { result ≡ denial_reply denial }
        ensures left { self.new ≡ denied denial nexus self.old }
    {
        if let Denial::Reported(condition) = denial {
            self.clear(nexus, condition);
        }
        denial.reply(self.alloc)
    }

    // Clears a condition that was reported to a nexus.
    fn clear(&mut self, nexus: Nexus, condition: Condition)
        ensures { self.new ≡ without_condition condition nexus self.old }
    {
        match condition {
            Condition::DeferredError => self.deferred = false,
            Condition::UnitAttention(attention) => self.attentions.clear(nexus, attention),
        }
    }
}

// Makes a drive, and opens the medium in it, if there is one.
fn switch_on<M: Medium, K: Keeper>(
    alloc: Global,
    keeper: K,
    reservations: Reservations,
    medium: Option<M>,
) -> Result<Drive<M, K>, (Option<M>, K, NoMemory)>
    requires hand { IfSome medium (λ m. M.below.at_hand m) }
    ensures { SwitchesOn M.state M.below medium reservations keeper result }
{
    let bay = match medium {
        Some(medium) => match open(medium) {
            Ok(bay) => bay,
            Err(medium) => return Err((Some(medium), keeper, NoMemory)),
        },
        None => Bay::Empty,
    };
    let mut pending = AttnSet::empty();
    pending.insert(Attention::PowerOn);
    Ok(Drive {
        alloc,
        bay,
        position: START,
        buffered: true,
        deferred: false,
        attentions: Attentions::all(pending),
        reservations,
        keeper,
        accepted: 0,
    })
}
